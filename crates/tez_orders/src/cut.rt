use tez_plan::Columns;

/// How the value of a task is cut for an edge.
#[derive(Drop)]
pub enum Cut {
    /// One output, numbered 0, with all records.
    Whole,
    /// An output for each part, numbered from 0, with the records whose keys by these columns hash
    /// into it.
    ByKey { cols: Columns, parts: u32 },
}
