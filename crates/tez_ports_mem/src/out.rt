//! A text in memory.
ghost use Rattle.std.specs.Prelude.{◌≡◌, [], ℕ, Some};
ghost use Rattle.tez_ports_mem.specs.Lists.{failing_writes, writes_so_far};

use crate::calls::{Calls, Due};
use std::alloc::Global;
use tez_ports::{OutFailed, TextOut};

/// A text, of which listed writes fail. A failed write adds nothing.
#[derive(Drop)]
pub struct MemOut {
    written: Vec<u8>,
    calls: Calls,
}

impl MemOut {
    /// The writes whose numbers, from 1, are in `fail` answer Failed.
    pub fn new(fail: Vec<u64>, alloc: Global) -> Self
        ensures written { ⟦<MemOut as TextOut>⟧.written result ≡ Some [] }
        ensures faults { ⟦<MemOut as TextOut>⟧.faults result ≡ 0 }
        ensures failing { failing_writes result ≡ fail.items }
        ensures count { writes_so_far result ≡ 0 }
    {
        MemOut {
            written: Vec::new(alloc),
            calls: Calls::new(fail, Vec::new(alloc)),
        }
    }

    /// What was written so far.
    pub fn bytes(&self) -> &[u8]
        ensures { ⟦<MemOut as TextOut>⟧.written self.now ≡ Some result.now }
    {
        self.written.as_slice()
    }
}

impl TextOut for MemOut {
    ghost written = { λ s. Some s.written.items };

    ghost faults = { λ s. s.calls.faults };

    ghost is_sure = { λ _. ⊥ };

    fn write(&mut self, bytes: &[u8]) -> Result<(), OutFailed> {
        match self.calls.due() {
            Due::Fail => Err(OutFailed::Failed),
            Due::Answer | Due::Stop => match self.written.extend_from_slice(bytes) {
                Ok(()) => Ok(()),
                Err(_) => Err(OutFailed::NoMemory),
            },
        }
    }

    ghost sure_tells = { λ s h. absurd h };
}
