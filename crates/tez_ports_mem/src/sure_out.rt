//! A text in memory that never fails.
ghost use Rattle.std.specs.Prelude.{◌≡◌, [], ℕ, Some, ⊤, refl};

use std::alloc::Global;
use tez_ports::{OutFailed, TextOut};

/// A text.
#[derive(Drop)]
pub struct SureOut {
    written: Vec<u8>,
}

impl SureOut {
    pub fn new(alloc: Global) -> Self
        ensures written { ⟦<SureOut as TextOut>⟧.written result ≡ Some [] }
        ensures sure { ⟦<SureOut as TextOut>⟧.is_sure result }
    {
        SureOut {
            written: Vec::new(alloc),
        }
    }

    /// What was written so far.
    pub fn bytes(&self) -> &[u8]
        ensures { ⟦<SureOut as TextOut>⟧.written self.now ≡ Some result.now }
    {
        self.written.as_slice()
    }
}

impl TextOut for SureOut {
    ghost written = { λ s. Some s.written.items };

    ghost faults = { λ _. 0 };

    ghost is_sure = { λ _. ⊤ };

    fn write(&mut self, bytes: &[u8]) -> Result<(), OutFailed> {
        match self.written.extend_from_slice(bytes) {
            Ok(()) => Ok(()),
            Err(_) => Err(OutFailed::NoMemory),
        }
    }

    ghost sure_tells = { λ _ _. refl };
}
