//! A gate that holds nobody.
use tez_ids::AttemptId;
use tez_ports::Gate;

/// Lets every attempt pass at once.
#[derive(Clone, Copy, Debug)]
pub struct OpenGate {}

impl Gate for OpenGate {
    fn enter(&self, _attempt: AttemptId) {}
}
