use tez_ids::{AttemptId, EdgeId};

/// An attempt waits for an input that is gone: it was an output of the attempt `lost`.
#[derive(Clone, Copy, Debug, PartialEq, Eq)]
pub struct Notice {
    pub attempt: AttemptId,
    pub edge: EdgeId,
    pub input: u32,
    pub lost: AttemptId,
}
