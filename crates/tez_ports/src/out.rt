ghost use Rattle.std.specs.Prelude.{◌≡◌, ◌≤◌, ◌++◌, ℕ, List, Option, length, take, option_map, IsSome, OnOk, IsErrOf};
ghost use Rattle.tez_ports.specs.Causes.{Rose, OutHasCause};

use crate::OutFailed;

/// A text that is only added to, as standard output.
pub trait TextOut {
    /// The bytes so far, where told.
    ghost written: { Self → Option (List ℕ) };

    /// How often a write has failed.
    ghost faults: { Self → ℕ };

    /// It tells what was written, and never answers Failed.
    ghost is_sure: { Self → Type 0 };

    /// Adds all the bytes. After Failed a first part of them may stand.
    fn write(&mut self, bytes: &[u8]) -> Result<(), OutFailed>
        ensures ok { OnOk result (written self.new ≡ option_map (λ b. b ++ bytes.now) (written self.old)) }
        ensures part { IsErrOf result OutFailed.Failed
            → (n : ℕ) × (written self.new ≡ option_map (λ b. b ++ take n bytes.now) (written self.old)) }
        ensures nothing { IsErrOf result OutFailed.NoMemory → written self.new ≡ written self.old }
        ensures cause { OutHasCause (faults self.old) (faults self.new) result }
        ensures stays_sure { is_sure self.old → is_sure self.new }
        ensures sure { is_sure self.old → IsErrOf result OutFailed.Failed → ⊥ };

    /// A sure out tells what was written.
    ghost sure_tells: { (s : Self) → is_sure s → IsSome (written s) };
}

impl<T: TextOut> TextOut for &mut T {
    ghost written = { λ s. T.written s.now };

    ghost faults = { λ s. T.faults s.now };

    ghost is_sure = { λ s. T.is_sure s.now };

    fn write(&mut self, bytes: &[u8]) -> Result<(), OutFailed> {
        (**self).write(bytes)
    }

    ghost sure_tells = { λ s h. T.sure_tells s.now h };
}
