//! Vertex managers: when the tasks of a vertex are fixed, and how many of them are to be scheduled.
//!
//! A manager decides by what it sees of the source vertices alone, and takes no memory. A vertex
//! that reads a source starts at once. One that is fed one to one has the tasks of its source
//! vertex. One that gathers may shrink to fewer tasks, and starts them slowly.
#![tactic(auto)]

mod immediate;
mod input_ready;
mod manager;
mod seen;
mod shuffle;

pub use immediate::Immediate;
pub use input_ready::InputReady;
pub use manager::{VertexManager, sources_finished};
pub use seen::{Config, Seen};
pub use shuffle::Shuffle;
