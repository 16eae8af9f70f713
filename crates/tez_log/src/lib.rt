//! The log of a run: the entries of its trace, and the records that it appended to its journal.
#![tactic(auto)]

mod log;

pub use log::Log;
