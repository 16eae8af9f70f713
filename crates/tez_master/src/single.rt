//! Answers of one entry, which take no memory.
ghost use Rattle.std.specs.Prelude.{◌≡◌, ◌∷◌, [], true, is_some, IfSome};
ghost use Rattle.tez_events.specs.declared.CoreEvent.{CoreEvent};
ghost use Rattle.tez_history.specs.Steps.{asked_entries};
ghost use Rattle.tez_master_model.specs.Enabled.{enabled_in};
ghost use Rattle.tez_master_model.specs.Entries.{entries_in};
ghost use Rattle.tez_entries.specs.Ranges.{CanTell, HasLife};
ghost use Rattle.tez_entries.specs.Records.{records_of};
ghost use Rattle.tez_master.specs.Master.{is_single, as_list};

use tez_core::Core;
use tez_events::{CoreEvent, Entry, JournalRecord};
use tez_ids::{TaskId, VertexId};

/// The entry and the record of an event whose answer takes no memory.
pub(crate) fn single(m: &Core, e: &CoreEvent) -> Option<(Entry, Option<JournalRecord>)>
    requires can { CanTell m.now e.now }
    requires enabled { enabled_in m.now e.now ≡ true }
    ensures single { is_some result ≡ is_single m.now e.now }
    ensures entries { IfSome result (λ x. x.0 ∷ [] ≡ entries_in m.now e.now) }
    ensures records { IfSome result (λ x. as_list x.1 ≡ records_of (entries_in m.now e.now)) }
{
    match *e {
        CoreEvent::Publish(vertex) => Some((
            Entry::Published(vertex),
            Some(JournalRecord::SinkPublished { vertex }),
        )),
        CoreEvent::Finish => Some((Entry::Finished, Some(JournalRecord::Finished))),
        CoreEvent::Purge => Some((Entry::Purged, None)),
        CoreEvent::LoseNode(slot) => node_lost(m, slot),
        CoreEvent::LoseOutput(t) => output_lost(m, t),
        CoreEvent::Open
        | CoreEvent::Configure(_)
        | CoreEvent::Queue(_)
        | CoreEvent::Place(_, _)
        | CoreEvent::Fetch(_, _, _)
        | CoreEvent::Send(_)
        | CoreEvent::Preempt(_)
        | CoreEvent::Fail(_)
        | CoreEvent::Restart
        | CoreEvent::Ready(_)
        | CoreEvent::CommitStart
        | CoreEvent::Ask(_) => None,
    }
}

/// The entry and the record of what the store told of a sink.
pub(crate) fn asked(v: VertexId, there: bool) -> (Entry, Option<JournalRecord>)
    ensures entries { result.0 ∷ [] ≡ asked_entries v there }
    ensures records { as_list result.1 ≡ records_of (asked_entries v there) }
{
    if there {
        (
            Entry::Settled(v),
            Some(JournalRecord::SinkPublished { vertex: v }),
        )
    } else {
        (Entry::Asked(v), None)
    }
}

// Once the commit has started nobody works on the node any more.
fn node_lost(m: &Core, slot: u16) -> Option<(Entry, Option<JournalRecord>)>
    requires { HasLife m.now slot }
    ensures single { is_some result ≡ m.now.committing }
    ensures entries { IfSome result (λ x. x.0 ∷ [] ≡ entries_in m.now (CoreEvent.LoseNode slot)) }
    ensures records { IfSome result (λ x. as_list x.1 ≡ records_of (entries_in m.now (CoreEvent.LoseNode slot))) }
{
    if m.is_committing() {
        Some((Entry::NodeLost(slot, m.next_life(slot)), None))
    } else {
        None
    }
}

fn output_lost(m: &Core, t: TaskId) -> Option<(Entry, Option<JournalRecord>)>
    requires { enabled_in m.now (CoreEvent.LoseOutput t) ≡ true }
    ensures single { is_some result ≡ m.now.committing }
    ensures entries { IfSome result (λ x. x.0 ∷ [] ≡ entries_in m.now (CoreEvent.LoseOutput t)) }
    ensures records { IfSome result (λ x. as_list x.1 ≡ records_of (entries_in m.now (CoreEvent.LoseOutput t))) }
{
    if !m.is_committing() {
        return None;
    }
    match m.winner_of(t) {
        Some(w) => Some((Entry::OutputLost(w), None)),
        None => None,
    }
}
