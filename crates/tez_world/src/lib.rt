//! The world of a job: its master with what its containers, shelves and sinks hold, and its devices.
//! An event is handled to its end by one step.
#![tactic(auto)]

mod job_run;
mod opening;
mod world;

pub use job_run::{JobRun, Mode};
pub use tez_steps::{Device, Event, Took, Verdict};
pub use world::World;
