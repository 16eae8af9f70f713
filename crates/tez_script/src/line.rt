use tez_ids::TaskId;

/// When a line comes due.
#[derive(Clone, Copy, Debug, PartialEq, Eq)]
pub enum When {
    /// Once the trace of the call has so many entries.
    At(u64),
    /// Once the task has a `done` in the trace.
    On(TaskId),
}

/// A call of a device that is stopped.
#[derive(Clone, Copy, Debug, PartialEq, Eq)]
pub struct Stop {
    /// The kind of the call: of a disk `size`, `read`, `write`, `sync`; of a store `stage`, `load`,
    /// `ready`, `publish`, `asked`, `purge`; each by its place here, from 0.
    pub call: u8,
    /// Its number among the calls of that kind, from 1.
    pub n: u64,
    /// Whether it is made before it is stopped.
    pub after: bool,
}

/// A line of a script.
#[derive(Clone, Copy, Debug, PartialEq, Eq)]
pub enum ScriptLine {
    /// So many reports of the task enter as failures. Lines of one task add up.
    Fail { task: TaskId, times: u64 },
    /// The first report of the task that enters as a report enters so many times more.
    Repeat { task: TaskId, times: u64 },
    /// The node in the slot is lost.
    LoseNode { slot: u16, when: When },
    /// What the task's winner made is lost.
    LoseOutput { task: TaskId, when: When },
    /// The master stops, and another one takes over.
    Restart { when: When },
    /// The journal's disk stops at a call.
    StopDisk(Stop),
    /// The output store stops at a call.
    StopStore(Stop),
}

/// A device that a line can stop.
#[derive(Clone, Copy)]
pub(crate) enum Device {
    Disk,
    Store,
}
