//! A disk in memory that never stops.
ghost use Rattle.std.specs.Prelude.{◌≡◌, ◌<◌, ◌^◌, ℕ, Some, ⊤, refl, option_map};
ghost use Rattle.std.specs.Vec.{vec_len};
ghost use Rattle.tez_ports.specs.Image.{IsSound, settled};
ghost use Rattle.std.proofs.Props.{props};

use crate::picker::Picker;
use crate::platter::{LIMIT, Platter};
use std::alloc::{AllocError, Global};
use tez_ports::{DeviceStop, JournalDisk};

/// A disk that fails only at a write that would pass the limit of 2^62 bytes, and a picker of what a cut
/// of the power leaves. Room for n units takes 18 n bytes beside the content, and as many as that has.
#[derive(Drop)]
pub struct SureDisk {
    platter: Platter,
    faults: u64,
    pick: Picker,
    ghost sound: { IsSound platter.disk } by { Prim.hlevel props },
}

impl SureDisk {
    ghost use Rattle.tez_ports_mem.specs.Lists.{sure_picker_of};

    /// The whole content lasts.
    pub fn new(content: Vec<u8>, pick: Picker, alloc: Global) -> Self
        requires { vec_len content < 2 ^ 62 }
        ensures disk { ⟦<SureDisk as JournalDisk>⟧.disk result ≡ Some (settled content.items) }
        ensures faults { ⟦<SureDisk as JournalDisk>⟧.faults result ≡ 0 }
        ensures sure { ⟦<SureDisk as JournalDisk>⟧.is_sure result }
        ensures pick { sure_picker_of result ≡ pick }
    {
        SureDisk {
            platter: Platter::new(content, alloc),
            faults: 0,
            pick,
        }
    }

    /// The whole of what a read gives.
    pub fn content(&self) -> &[u8]
        ensures { option_map (λ d. d.read) (⟦<SureDisk as JournalDisk>⟧.disk self.now) ≡ Some result.now }
    {
        self.platter.content()
    }
}

impl JournalDisk for SureDisk {
    ghost use Rattle.std.proofs.Common.{subst};
    ghost use Rattle.std.proofs.lemmas.Option.{same_Some};

    ghost disk = { λ s. Some s.platter.disk };

    ghost faults = { λ s. s.faults };

    ghost stops = { λ _. 0 };

    ghost spare = { λ s. s.platter.spare };

    ghost lent = { λ _. 0 };

    ghost is_faultless = { λ _. ⊤ };

    ghost is_sure = { λ _. ⊤ };

    fn size(&mut self) -> Result<u64, DeviceStop> {
        Ok(self.platter.content().len() as u64)
    }

    fn read_at(&mut self, start: u64, into: &mut [u8]) -> Result<(), DeviceStop> {
        self.platter.read(start, into);
        Ok(())
    }

    fn reserve(&mut self, units: u64) -> Result<(), AllocError> {
        self.platter.reserve(units)
    }

    fn write_at(&mut self, start: u64, bytes: &[u8]) -> Result<(), DeviceStop> {
        if bytes.len() as u64 >= LIMIT - start {
            self.faults = self.faults.saturating_add(1);
            return Err(DeviceStop::Failed);
        }
        self.platter.write(start, bytes);
        Ok(())
    }

    fn sync(&mut self) -> Result<(), DeviceStop> {
        self.platter.sync();
        Ok(())
    }

    fn power_cut(&mut self) {
        self.platter.cut(self.pick);
    }

    ghost sound = { λ s d e. subst IsSound (same_Some s.platter.disk d e) s.sound };

    ghost faultless_tells = { λ _ _. refl };

    ghost sure_is_faultless = { λ _ h. h };

    ghost sure_tells = { λ _ _. refl };
}
