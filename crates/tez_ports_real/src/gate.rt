//! The gate of a run.
use tez_ids::AttemptId;
use tez_ports::Gate;

/// Lets every attempt pass at once.
#[derive(Clone, Copy, Debug)]
pub struct QuietGate {}

impl Gate for QuietGate {
    fn enter(&self, _attempt: AttemptId) {}
}
