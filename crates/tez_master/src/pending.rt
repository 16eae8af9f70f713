//! An answer that is not settled yet.
use tez_core::NewConfig;
use tez_events::CoreEvent;
use tez_ids::{AttemptId, EdgeId, VertexId};
use tez_router::Admission;

/// What an answer was about, with the memory that settling it needs.
#[derive(Drop)]
pub(crate) enum Pending {
    /// An event that needs none.
    Event(CoreEvent),
    Configure(VertexId, NewConfig),
    Place(AttemptId, u32, Admission),
    /// The report of an attempt, with the bytes of its pieces by edge.
    Report(AttemptId, Vec<(EdgeId, u64)>),
    /// The store was asked of a sink, and its text is there or not.
    Asked(VertexId, bool),
}
