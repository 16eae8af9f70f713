//! Who gives a place away: the deepest attempt that waits, and of those the greatest.
ghost use Rattle.std.specs.Prelude.{◌≡◌, ℕ, ◌<◌, [], length, IfSome, IfNone, option_and_then};
ghost use Rattle.std.specs.List.{list_all};
ghost use Rattle.tez_pool.specs.Table.{is_within};
ghost use Rattle.tez_pool.specs.Victim.{AreIn, IsGreatest, IsKnown, candidate, candidates, compare, deeper, greater, waiting};

use crate::place::Place;
use std::cmp::Ordering;
use tez_ids::AttemptId;
use tez_plan::{Plan, depth};

/// The greatest of the attempts that wait at a place and are deeper than `bound`.
pub(crate) fn victim(plan: &Plan, places: &[Place], bound: u32) -> Option<AttemptId>
    requires { AreIn plan.now places.now }
    ensures some { IfSome result (IsGreatest plan.now (candidates plan.now bound places.now)) }
    ensures none { IfNone result (candidates plan.now bound places.now ≡ []) }
{
    let mut best = None;
    for place in places {
        let next = candidate(plan, place, bound);
        best = greater(plan, best, next);
    }
    best
}

/// Whether the vertices of all that hold places are among so many.
pub(crate) fn are_within(places: &[Place], vertices: usize) -> bool
    ensures { result ≡ list_all (is_within vertices) places.now }
{
    places.iter().all(|place| place.is_within(vertices))
}

fn candidate(plan: &Plan, place: &Place, bound: u32) -> Option<AttemptId>
    requires { IsKnown plan.now (option_and_then waiting place.now.holder) }
    ensures { result ≡ candidate plan.now bound place.now }
{
    let held = match place.holder {
        Some(held) => held,
        None => return None,
    };
    if held.sent {
        return None;
    }
    if bound < depth(plan, held.attempt.task.vertex) {
        Some(held.attempt)
    } else {
        None
    }
}

fn greater(plan: &Plan, a: Option<AttemptId>, b: Option<AttemptId>) -> Option<AttemptId>
    requires first { IsKnown plan.now a }
    requires second { IsKnown plan.now b }
    ensures { result ≡ greater plan.now a b }
{
    match (a, b) {
        (Some(a), Some(b)) => {
            if compare(plan, b, a).is_gt() {
                Some(b)
            } else {
                Some(a)
            }
        }
        (Some(a), None) => Some(a),
        (None, other) => other,
    }
}

fn compare(plan: &Plan, a: AttemptId, b: AttemptId) -> Ordering
    requires first { a.task.vertex.0 < length plan.now.vertices }
    requires second { b.task.vertex.0 < length plan.now.vertices }
    ensures { result ≡ compare plan.now a b }
{
    let by_depth = depth(plan, a.task.vertex).cmp(&depth(plan, b.task.vertex));
    by_depth.then(a.cmp(&b))
}
