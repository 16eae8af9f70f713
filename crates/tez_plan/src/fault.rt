use std::alloc::AllocError;
use tez_ids::{EdgeId, VertexId};
use thiserror::Error;

/// What is wrong with a plan, and where. `NoMemory` says nothing of the plan.
#[derive(Clone, Copy, Debug, PartialEq, Eq, Error)]
pub enum PlanFault {
    /// More than 64 vertices (place 64), more than 256 edges (place 256), or more than 4,000,000
    /// physical inputs up to and with the edge of this place.
    #[error("too many at {place}")]
    TooMany { place: u32 },
    /// An earlier vertex has its name.
    #[error("vertex {} has the name of an earlier one", .vertex.0)]
    DuplicateName { vertex: VertexId },
    /// An end of the edge names no vertex.
    #[error("edge {} names no vertex", .edge.0)]
    UnknownName { edge: EdgeId },
    /// An earlier edge has the same source and the same target.
    #[error("edge {} has the ends of an earlier one", .edge.0)]
    DuplicateEdge { edge: EdgeId },
    /// The edges have a cycle. The vertex is the least one on it or behind it.
    #[error("vertex {} is on a cycle or behind one", .vertex.0)]
    Cycle { vertex: VertexId },
    /// No source, no one-to-one edge in and no scatter-gather edge in.
    #[error("vertex {} has no primary input", .vertex.0)]
    NoPrimary { vertex: VertexId },
    /// Two of these kinds, or two one-to-one edges in.
    #[error("vertex {} has more than one kind of primary input", .vertex.0)]
    MixedPrimary { vertex: VertexId },
    /// The edges in are not those that the head asks for.
    #[error("the inputs of vertex {} do not fit its head", .vertex.0)]
    HeadInputs { vertex: VertexId },
    /// The keys of the edges in, or of the head, do not fit the head.
    #[error("the keys at vertex {} do not fit its head", .vertex.0)]
    KeyDiffers { vertex: VertexId },
    /// A one-to-one edge joins vertices of different numbers of tasks.
    #[error("edge {} joins different numbers of tasks", .edge.0)]
    PartitionsDiffer { edge: EdgeId },
    /// Neither an edge out nor a sink.
    #[error("vertex {} has neither an edge out nor a sink", .vertex.0)]
    LeafWithoutSink { vertex: VertexId },
    /// An earlier vertex has its sink.
    #[error("vertex {} has the sink of an earlier one", .vertex.0)]
    DuplicateSink { vertex: VertexId },
    /// Out of memory.
    #[error("out of memory")]
    NoMemory,
}
