//! The parts of a master with the queue of the tasks that wait for a place, so that the next event is
//! chosen without a walk over tasks. It knows no history.
#![tactic(auto)]

mod changes;
mod choosing;
mod enabled;
mod fresh;
mod losing;
mod parts;
mod recovering;

pub use parts::Lead;
