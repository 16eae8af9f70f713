//! The disk of a run that keeps no journal.
ghost use Rattle.std.specs.Prelude.{◌≡◌, ◌≤◌, ℕ, None};
ghost use Rattle.std.proofs.lemmas.Option.{none-some};
ghost use Rattle.tez_ports.specs.Causes.{Rose};

use std::alloc::AllocError;
use tez_ports::{DeviceStop, JournalDisk};

/// A disk that refuses each call and counts a fault. Room is taken as asked for.
#[derive(Drop)]
pub struct NoDisk {
    faults: u64,
    spare: u64,
}

impl NoDisk {
    pub fn new() -> Self
        ensures faults { result.faults ≡ 0 }
        ensures spare { result.spare ≡ 0 }
    {
        NoDisk {
            faults: 0,
            spare: 0,
        }
    }

    fn refuse(&mut self) -> DeviceStop
        ensures failed { result ≡ DeviceStop.Failed }
        ensures rose { Rose self.old.faults self.new.faults }
        ensures later { self.old.faults ≤ self.new.faults }
        ensures spare { self.new.spare ≡ self.old.spare }
    {
        self.faults = self.faults.saturating_add(1);
        DeviceStop::Failed
    }
}

impl JournalDisk for NoDisk {
    ghost disk = { λ _. None };

    ghost faults = { λ s. s.faults };

    ghost stops = { λ _. 0 };

    ghost spare = { λ s. s.spare };

    ghost lent = { λ _. 0 };

    ghost is_faultless = { λ _. ⊥ };

    ghost is_sure = { λ _. ⊥ };

    fn size(&mut self) -> Result<u64, DeviceStop> {
        Err(self.refuse())
    }

    fn read_at(&mut self, _start: u64, _into: &mut [u8]) -> Result<(), DeviceStop> {
        Err(self.refuse())
    }

    fn reserve(&mut self, units: u64) -> Result<(), AllocError> {
        self.spare = self.spare.max(units);
        Ok(())
    }

    fn write_at(&mut self, _start: u64, _bytes: &[u8]) -> Result<(), DeviceStop> {
        Err(self.refuse())
    }

    fn sync(&mut self) -> Result<(), DeviceStop> {
        Err(self.refuse())
    }

    fn power_cut(&mut self) {}

    ghost sound = { λ s d told. absurd (none-some d told) };

    ghost faultless_tells = { λ s h. absurd h };

    ghost sure_is_faultless = { λ s h. h };

    ghost sure_tells = { λ s h. absurd h };
}
