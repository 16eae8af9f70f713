/// What a manager sees of its vertex and of the source vertices over its primary edges. A vertex
/// that reads a source has none of these.
#[derive(Clone, Copy)]
pub struct Seen {
    /// How many source tasks there are.
    pub sources: u64,
    /// Whether all source vertices are configured.
    pub configured: bool,
    /// How many source tasks have a winner now.
    pub finished: u64,
    /// The bytes that those winners made for the vertex.
    pub bytes: u128,
    /// The tasks of the vertex: those configured, and before that those planned.
    pub tasks: u32,
}

/// The tasks of a vertex, and how many partitions each of them takes.
#[derive(Clone, Copy, Debug, PartialEq, Eq)]
pub struct Config {
    pub tasks: u32,
    pub base: u32,
}
