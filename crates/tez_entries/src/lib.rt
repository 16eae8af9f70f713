//! The entries that an event adds to the trace of a run, from what the master holds before it, and
//! the records of the journal that entries append.
#![tactic(auto)]

mod events;
mod journal;
mod loss;
mod withdrawal;

pub use events::entries;
pub use journal::records;
