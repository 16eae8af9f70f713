//! What the vertex managers see of the source vertices, and which task is to be queued next.
//!
//! A schedule knows of each vertex its configuration, which of its tasks were scheduled and which
//! have a winner, and of each edge the bytes that were made for it. From this it tells what a vertex
//! is to be configured with, how many of its tasks are to be scheduled, and which is the next. No
//! change takes memory, and no answer walks over the tasks.
#![tactic(auto)]

mod changes;
mod edge_bytes;
mod flags;
mod input;
mod manager;
mod planned;
mod schedule;
mod seeing;
mod vertex;

pub use manager::AnyManager;
pub use schedule::Schedule;
