//! The steps of a master that is up: what each event makes of its master, of what its containers,
//! shelves and sinks hold, of its log, and of the store that is lent.
#![tactic(auto)]

mod asking;
mod committing;
mod event;
mod inputs;
mod losses;
mod places;
mod plain;
mod reporting;
mod running;
mod stepping;
mod verdict;

pub use event::Event;
pub use running::Running;
pub use stepping::take;
pub use verdict::{Device, Took, Verdict};
