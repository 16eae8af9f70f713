/// The values of a configuration, in any range.
#[derive(Clone, Copy, Debug, PartialEq, Eq)]
pub struct ConfValues {
    /// Slow start's least fraction of finished source tasks, in thousandths.
    pub min_src: u16,
    /// Slow start's fraction from which all tasks are scheduled, in thousandths.
    pub max_src: u16,
    /// Whether a shuffle vertex may shrink to fewer tasks.
    pub auto_parallel: bool,
    /// Bytes wanted for each consumer task when shrinking.
    pub desired_bytes: u64,
    /// The least number of tasks wanted when shrinking.
    pub min_tasks: u32,
    /// The number of failures at which a task is spent.
    pub max_failed: u32,
    /// The number of stops at which a run ends.
    pub max_masters: u32,
    /// Whether a freed place keeps its container.
    pub reuse: bool,
    /// The number of nodes.
    pub nodes: u16,
    /// Places on each node.
    pub per_node: u16,
}

/// The range that values are outside of.
#[derive(Clone, Copy, Debug, PartialEq, Eq)]
pub enum ConfFault {
    /// `min_src` is above 1000.
    MinSrc,
    /// `max_src` is above 1000.
    MaxSrc,
    /// `desired_bytes` is 0 or above 2^40.
    DesiredBytes,
    /// `min_tasks` is 0 or above 10000.
    MinTasks,
    /// `max_failed` is 0 or above 100.
    MaxFailed,
    /// `max_masters` is 0 or above 100.
    MaxMasters,
    /// `nodes` is 0 or above 64.
    Nodes,
    /// `per_node` is 0 or above 64.
    PerNode,
    /// `max_src` is below `min_src`.
    MaxSrcBelowMinSrc,
    /// There are more than 64 places on all nodes together.
    TooManyPlaces,
}
