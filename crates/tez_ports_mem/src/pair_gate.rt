//! A gate at which two attempts meet.
use std::sync::atomic::{AtomicBool, Ordering};
use std::thread;
use tez_ids::AttemptId;
use tez_ports::Gate;

/// How often the first attempt looks for the second.
const TURNS: u32 = 1_000_000;

/// Holds the first attempt until the second has entered, for at most 1,000,000 turns. Each other
/// attempt passes at once.
#[derive(Drop)]
pub struct PairGate {
    first: AttemptId,
    second: AttemptId,
    entered: AtomicBool,
    met: AtomicBool,
}

impl PairGate {
    pub fn new(first: AttemptId, second: AttemptId) -> Self {
        PairGate {
            first,
            second,
            entered: AtomicBool::new(false),
            met: AtomicBool::new(false),
        }
    }

    /// Whether the first attempt passed without the second. Until both have entered, it counts as
    /// run out.
    pub fn ran_out(&self) -> bool {
        !self.met.load(Ordering::SeqCst)
    }

    /// Waits for the second attempt.
    fn wait(&self) {
        for _ in 0..TURNS {
            if self.entered.load(Ordering::SeqCst) {
                self.met.store(true, Ordering::SeqCst);
                return;
            }
            thread::yield_now();
        }
    }
}

impl Gate for PairGate {
    fn enter(&self, attempt: AttemptId) {
        if attempt == self.second {
            self.entered.store(true, Ordering::SeqCst);
        }
        if attempt == self.first {
            self.wait();
        }
    }
}
