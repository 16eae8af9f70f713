//! The numbers of the parts of a job, and the small list types that several crates share.
#![tactic(auto)]

mod fixed;
mod name;
mod words;

pub use fixed::{read_fixed, write_fixed};
pub use name::{Bytes, Name};
pub use words::{u16_at, u32_at, u64_at};

/// The master's life: it counts the masters that worked on a job, from 1.
#[derive(Clone, Copy, Debug, PartialEq, Eq, PartialOrd, Ord, Hash)]
pub struct Epoch(pub u64);

/// A vertex, by its place in the plan.
#[derive(Clone, Copy, Debug, PartialEq, Eq, PartialOrd, Ord, Hash)]
pub struct VertexId(pub u16);

/// An edge, by its place in the plan.
#[derive(Clone, Copy, Debug, PartialEq, Eq, PartialOrd, Ord, Hash)]
pub struct EdgeId(pub u16);

/// A task of a vertex, numbered from 0.
#[derive(Clone, Copy, Debug, PartialEq, Eq, PartialOrd, Ord, Hash)]
pub struct TaskId {
    pub vertex: VertexId,
    pub index: u32,
}

/// An attempt at a task. Numbers count from 0 within a task and an epoch.
#[derive(Clone, Copy, Debug, PartialEq, Eq, PartialOrd, Ord, Hash)]
pub struct AttemptId {
    pub epoch: Epoch,
    pub task: TaskId,
    pub number: u64,
}

/// A node: its slot, and how many nodes stood there before it.
#[derive(Clone, Copy, Debug, PartialEq, Eq, PartialOrd, Ord, Hash)]
pub struct NodeId {
    pub slot: u16,
    pub life: u64,
}

/// A container, numbered from 0 in the order in which containers are given.
#[derive(Clone, Copy, Debug, PartialEq, Eq, PartialOrd, Ord, Hash)]
pub struct ContainerId(pub u128);
