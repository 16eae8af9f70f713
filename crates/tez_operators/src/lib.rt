//! Heads and steps as programs: what a task makes of lists that were cut and routed.
#![tactic(auto)]

mod fault;
mod filters;
mod fuse;
mod group_key;
mod groups;
mod heads;
mod inputs;
mod members;
mod program;
mod sides;
mod steps;
mod totals;
mod words;

pub use fault::ProcessFault;
pub use inputs::{Inputs, Primary};
pub use program::process;
