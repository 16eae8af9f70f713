//! The entries of an event.
ghost use Rattle.std.specs.Prelude.{◌≡◌, ◌∷◌, [], IfOk, Some};
ghost use Rattle.tez_events.specs.declared.CoreEvent.{CoreEvent};
ghost use Rattle.tez_master_model.specs.Entries.{entries_in, fetch_in};
ghost use Rattle.tez_entries.specs.Ranges.{CanTell};

use crate::loss::node_lost;
use crate::withdrawal::add_withdrawal;
use std::alloc::{AllocError, Global};
use tez_core::Core;
use tez_events::{CoreEvent, Entry, KillCause};
use tez_ids::{AttemptId, EdgeId, TaskId, VertexId};

/// The entries that an event adds which may come, from what the master holds before it. Takes
/// constant time and the time of what the master tells: for a fetch that meets no pieces that of
/// the notices of the source's task; for a lost node time in the tasks and in its places, and that
/// of the notices of each winner whose pieces lay there.
pub fn entries(alloc: Global, m: &Core, e: &CoreEvent) -> Result<Vec<Entry>, AllocError>
    // `has_next_life` of the core is the test of this, for an event that loses a node.
    requires { CanTell m.now e.now }
    ensures { IfOk result (λ es. es.items ≡ entries_in m.now e.now) }
{
    match *e {
        CoreEvent::Open => Ok(Vec::new(alloc)),
        CoreEvent::Configure(v) => configured(alloc, m, v),
        CoreEvent::Queue(t) => one(alloc, Entry::Queued(m.next_of(t))),
        CoreEvent::Place(a, place) => one(alloc, Entry::Placed(a, m.container_of(place), place)),
        CoreEvent::Fetch(a, e, input) => fetch(alloc, m, a, e, input),
        CoreEvent::Send(a) => one(alloc, Entry::Ordered(a)),
        CoreEvent::Preempt(a) => preempted(alloc, m, a),
        CoreEvent::Fail(a) => failed(alloc, m, a),
        CoreEvent::LoseNode(slot) => node_lost(alloc, m, slot),
        CoreEvent::LoseOutput(t) => output_lost(alloc, m, t),
        CoreEvent::Restart => Ok(Vec::new(alloc)),
        CoreEvent::Ready(v) => one(alloc, Entry::Ready(v)),
        CoreEvent::CommitStart => one(alloc, Entry::CommitStarted),
        CoreEvent::Ask(_) => Ok(Vec::new(alloc)),
        CoreEvent::Publish(v) => one(alloc, Entry::Published(v)),
        CoreEvent::Finish => one(alloc, Entry::Finished),
        CoreEvent::Purge => one(alloc, Entry::Purged),
    }
}

fn one(alloc: Global, entry: Entry) -> Result<Vec<Entry>, AllocError>
    ensures { IfOk result (λ es. es.items ≡ entry ∷ []) }
{
    let mut entries = Vec::new(alloc);
    entries.push(entry)?;
    Ok(entries)
}

fn two(alloc: Global, first: Entry, second: Entry) -> Result<Vec<Entry>, AllocError>
    ensures { IfOk result (λ es. es.items ≡ first ∷ second ∷ []) }
{
    let mut entries = Vec::new(alloc);
    entries.push(first)?;
    entries.push(second)?;
    Ok(entries)
}

// No tasks where the vertex is not to be configured.
fn configured(alloc: Global, m: &Core, v: VertexId) -> Result<Vec<Entry>, AllocError>
    ensures { IfOk result (λ es. es.items ≡ entries_in m.now (CoreEvent.Configure v)) }
{
    match m.configuration(v) {
        Some(config) => one(alloc, Entry::Configured(v, config.tasks, config.base)),
        None => one(alloc, Entry::Configured(v, 0, 0)),
    }
}

fn preempted(alloc: Global, m: &Core, a: AttemptId) -> Result<Vec<Entry>, AllocError>
    ensures { IfOk result (λ es. es.items ≡ entries_in m.now (CoreEvent.Preempt a)) }
{
    two(
        alloc,
        Entry::Killed(a, KillCause::Preempt),
        Entry::Queued(m.next_of(a.task)),
    )
}

// The last failure of a task spends it.
fn failed(alloc: Global, m: &Core, a: AttemptId) -> Result<Vec<Entry>, AllocError>
    ensures { IfOk result (λ es. es.items ≡ entries_in m.now (CoreEvent.Fail a)) }
{
    if m.is_last(a.task) {
        one(alloc, Entry::Failed(a))
    } else {
        two(alloc, Entry::Failed(a), Entry::Queued(m.next_of(a.task)))
    }
}

fn output_lost(alloc: Global, m: &Core, t: TaskId) -> Result<Vec<Entry>, AllocError>
    ensures { IfOk result (λ es. es.items ≡ entries_in m.now (CoreEvent.LoseOutput t)) }
{
    match m.winner_of(t) {
        Some(w) => one(alloc, Entry::OutputLost(w)),
        None => Ok(Vec::new(alloc)),
    }
}

fn fetch(
    alloc: Global,
    m: &Core,
    a: AttemptId,
    e: EdgeId,
    input: u32,
) -> Result<Vec<Entry>, AllocError>
    ensures { IfOk result (λ es. es.items ≡ entries_in m.now (CoreEvent.Fetch a e input)) }
{
    match m.source_of(a, e, input) {
        Some(w) => fetch_from(alloc, m, a, e, input, w),
        None => Ok(Vec::new(alloc)),
    }
}

// Where the pieces are on no shelf the winner that made them is withdrawn.
fn fetch_from(
    alloc: Global,
    m: &Core,
    a: AttemptId,
    e: EdgeId,
    input: u32,
    w: AttemptId,
) -> Result<Vec<Entry>, AllocError>
    ensures { IfOk result (λ es. es.items ≡ fetch_in m.now a e.0 input (Some w)) }
{
    if m.is_on_shelf(w) {
        return one(alloc, Entry::Fetched(a, e, input, w));
    }
    let notices = m.notices(alloc, w.task)?;
    let mut entries = one(alloc, Entry::ReadError(a, e, input, w))?;
    add_withdrawal(&mut entries, m, &notices, w)?;
    Ok(entries)
}
