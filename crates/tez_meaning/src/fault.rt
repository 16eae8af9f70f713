use tez_ids::VertexId;

/// Why a job has no meaning.
#[derive(Drop)]
pub enum MeaningFault {
    /// A program reads a field that is no number: the first such vertex in the order of `topo`.
    Bad { vertex: VertexId },
    NoMemory,
}
