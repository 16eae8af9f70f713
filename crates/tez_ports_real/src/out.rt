//! Standard output.
ghost use Rattle.std.specs.Prelude.{◌≡◌, ℕ, None};

use crate::report::report;
use std::io::{self, Write};
use tez_ports::{OutFailed, TextOut};

/// Standard output, written at each call.
#[derive(Drop)]
pub struct StdOut<'r, R: Print + Eprint> {
    rt: &'r R,
    faults: u64,
}

impl<'r, R: Print + Eprint> StdOut<'r, R> {
    pub fn new(rt: &'r R) -> Self
        ensures { result.faults ≡ 0 }
    {
        StdOut { rt, faults: 0 }
    }
}

impl<R: Print + Eprint> TextOut for StdOut<'_, R> {
    ghost written = { λ _. None };

    ghost faults = { λ s. s.faults };

    ghost is_sure = { λ _. ⊥ };

    fn write(&mut self, bytes: &[u8]) -> Result<(), OutFailed> {
        match io::writer(self.rt).write_all(bytes) {
            Ok(()) => Ok(()),
            Err(error) => {
                report(self.rt, "standard output", &error);
                self.faults = self.faults.saturating_add(1);
                Err(OutFailed::Failed)
            }
        }
    }

    ghost sure_tells = { λ s h. absurd h };
}
