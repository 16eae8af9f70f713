//! What a plan tells of its sinks and of the edges out of its vertices.
ghost use Rattle.std.specs.Prelude.{◌≡◌, ◌<◌, ◌≤◌, ◌&&◌, not, length, slice_get};
ghost use Rattle.std.specs.List.{find, list_all};
ghost use Rattle.std.specs.Option.{option_map};
ghost use Rattle.tez_plan.specs.Dag.{source_of, target_of};
ghost use Rattle.tez_history.specs.Shape.{has_sink, has_edge_out, sinks};
ghost use Rattle.tez_history.specs.Steps.{is_first_without};
ghost use Rattle.tez_master_model.specs.Read.{flag};

use tez_ids::{EdgeId, VertexId};
use tez_plan::Plan;

fn has_sink(p: &Plan, v: VertexId) -> bool
    ensures { result ≡ has_sink p.now v.0 }
{
    match p.vertices().get(v.0 as usize) {
        Some(spec) => spec.sink.is_some(),
        None => false,
    }
}

/// Whether a flag is there and set.
pub(crate) fn flag(flags: &[bool], v: VertexId) -> bool
    ensures { result ≡ flag flags.now v.0 }
{
    match flags.get(v.0 as usize) {
        Some(flag) => *flag,
        None => false,
    }
}

fn is_open(p: &Plan, done: &[bool], v: VertexId) -> bool
    ensures { result ≡ (has_sink p.now v.0 && not (flag done.now v.0)) }
{
    has_sink(p, v) && !flag(done, v)
}

/// The first vertex with a sink whose flag is not set. Takes time in the vertices.
pub(crate) fn first_open(p: &Plan, done: &[bool]) -> Option<VertexId>
    ensures { option_map (λ v. v.0) result ≡ find (λ v. not (flag done.now v)) (sinks p.now) }
{
    for v in 0..p.vertices().len() as u16 {
        if is_open(p, done, VertexId(v)) {
            return Some(VertexId(v));
        }
    }
    None
}

/// Whether a vertex is the first with a sink whose flag is not set.
pub(crate) fn is_first_open(p: &Plan, done: &[bool], v: VertexId) -> bool
    ensures { result ≡ is_first_without (flag done.now) (sinks p.now) v.0 }
{
    match first_open(p, done) {
        Some(first) => first == v,
        None => false,
    }
}

/// Whether the flag of each vertex with a sink is set.
pub(crate) fn are_all_done(p: &Plan, done: &[bool]) -> bool
    ensures { result ≡ list_all (flag done.now) (sinks p.now) }
{
    first_open(p, done).is_none()
}

/// The vertex of the sink that has `number` sinks before it, None where there are no more. Takes
/// time in the vertices.
pub(crate) fn nth_sink(p: &Plan, number: u32) -> Option<VertexId>
    ensures { option_map (λ v. v.0) result ≡ slice_get (sinks p.now) number }
{
    let mut left = number;
    for v in 0..p.vertices().len() as u16 {
        if has_sink(p, VertexId(v)) {
            if left == 0 {
                return Some(VertexId(v));
            }
            left -= 1;
        }
    }
    None
}

/// Whether some edge leads out of a vertex. Takes time in the edges.
pub(crate) fn has_edge_out(p: &Plan, v: VertexId) -> bool
    ensures { result ≡ has_edge_out p.now v.0 }
{
    for e in 0..edge_count(p) {
        let (from, _) = p.ends(EdgeId(e));
        if from == v {
            return true;
        }
    }
    false
}

/// The vertex that an edge leads to, that of number 0 where there is no such edge.
pub(crate) fn target_of(p: &Plan, e: EdgeId) -> VertexId
    ensures { result.0 ≡ target_of p.now e.0 }
{
    if (e.0 as usize) < p.edges().len() {
        let (_, to) = p.ends(e);
        to
    } else {
        VertexId(0)
    }
}

// A plan has at most 256 edges.
fn edge_count(p: &Plan) -> u16
    ensures count { result ≡ length p.now.edges }
    ensures few { result ≤ 256 }
{
    let _valid = p.vertices();
    p.edges().len() as u16
}
