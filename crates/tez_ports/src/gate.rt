use tez_ids::AttemptId;

/// Entered by whoever works an order, before the work. Threads share it, so what takes a gate asks
/// `Gate + Sync`.
pub trait Gate {
    /// Called with the attempt whose order is about to be worked. A test holds a thread here.
    fn enter(&self, attempt: AttemptId);
}
