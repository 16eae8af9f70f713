//! How a world ends, and what a step answers.
use tez_ids::{TaskId, VertexId};
use tez_master_model::Why;

/// A device that a world may fail at.
#[derive(Clone, Copy, Debug, PartialEq, Eq)]
pub enum Device {
    Disk,
    Store,
}

/// How a world ended.
#[derive(Drop)]
pub enum Verdict {
    /// Each sink is published, with so many records and bytes, in the order of vertices.
    Succeeded(Vec<(u64, u64)>),
    /// The sink of this vertex was published before.
    SinkExists(VertexId),
    /// This task failed as often as it may.
    AttemptsSpent(TaskId),
    /// A call of this device failed, or was stopped.
    DeviceFault(Device),
}

/// What a step answers, but for want of memory.
#[derive(Drop)]
pub enum Took {
    Changed,
    /// The event may not come now, and changed nothing.
    Ignored(Why),
    /// The world has ended so.
    Ended(Verdict),
}
