//! What a master answers to an event.
use tez_events::{Entry, JournalRecord};
use tez_ids::{AttemptId, TaskId};
use tez_master_model::Why;

/// What an event adds to the trace and to the journal, the attempt whose order goes out, and the
/// task that it spends.
#[derive(Drop)]
pub struct Effects {
    pub entries: Vec<Entry>,
    pub records: Vec<JournalRecord>,
    pub ordered: Option<AttemptId>,
    pub spent: Option<TaskId>,
}

/// The answer to an event.
#[derive(Drop)]
pub enum Handled {
    /// The event may come, with these effects.
    Done(Effects),
    /// The event may come, adds one entry and at most one record, and the answer took no memory.
    Single(Entry, Option<JournalRecord>),
    /// The event may not come now, and changes nothing.
    Ignored(Why),
}
