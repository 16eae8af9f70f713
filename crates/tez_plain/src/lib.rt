//! Heads and steps as plain programs over whole bags: records are sorted by their keys, and rows are
//! made along the runs. The meaning of a job is worked out by them.
#![tactic(auto)]

mod fault;
mod heads;
mod key;
mod keyed;
mod pairs;
mod program;
mod reads;
mod runs;
mod steps;
mod words;

pub use fault::PlainFault;
pub use program::evaluate;
pub use reads::HeadReads;
pub use steps::evaluate_step;
