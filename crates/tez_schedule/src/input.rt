use tez_ids::{EdgeId, VertexId};

/// An edge over which a vertex is fed, and the vertex that it leads from.
#[derive(Clone, Copy)]
pub struct Input {
    pub edge: EdgeId,
    pub source: VertexId,
}
