//! A disk in memory.
ghost use Rattle.std.specs.Prelude.{◌≡◌, ◌<◌, ◌^◌, [], ℕ, Some, refl, option_map};
ghost use Rattle.std.specs.Vec.{vec_len};
ghost use Rattle.tez_ports.specs.Image.{IsSound, settled};
ghost use Rattle.std.proofs.Props.{props};

use crate::calls::{Calls, Due};
use crate::picker::Picker;
use crate::platter::{LIMIT, Platter};
use std::alloc::{AllocError, Global};
use tez_ports::{DeviceStop, JournalDisk};

/// A disk of which listed calls fail or are stopped, and a picker of what a cut of the power leaves.
/// It is faultless where no call is listed to fail.
/// `reserve` and `power_cut` are not counted. A failed call takes no effect. A stopped write takes
/// effect, so that the power cut behind it picks what is left of it; a stopped sync takes none, so that
/// what was pending still is. Room for n units takes 18 n bytes beside the content, and as many as that has.
#[derive(Drop)]
pub struct MemDisk {
    platter: Platter,
    calls: Calls,
    pick: Picker,
    ghost sound: { IsSound platter.disk } by { Prim.hlevel props },
}

impl MemDisk {
    ghost use Rattle.tez_ports_mem.specs.Lists.{disk_calls_so_far, failing_disk_calls, picker_of, stopped_disk_calls};

    /// The whole content lasts. The calls whose numbers, from 1, are in `fail` answer Failed, and of the
    /// others those in `stop` answer Stopped.
    pub fn new(
        content: Vec<u8>,
        fail: Vec<u64>,
        stop: Vec<u64>,
        pick: Picker,
        alloc: Global,
    ) -> Self
        requires { vec_len content < 2 ^ 62 }
        ensures disk { ⟦<MemDisk as JournalDisk>⟧.disk result ≡ Some (settled content.items) }
        ensures faults { ⟦<MemDisk as JournalDisk>⟧.faults result ≡ 0 }
        ensures stops { ⟦<MemDisk as JournalDisk>⟧.stops result ≡ 0 }
        ensures failing { failing_disk_calls result ≡ fail.items }
        ensures stopped { stopped_disk_calls result ≡ stop.items }
        ensures count { disk_calls_so_far result ≡ 0 }
        ensures pick { picker_of result ≡ pick }
    {
        MemDisk {
            platter: Platter::new(content, alloc),
            calls: Calls::new(fail, stop),
            pick,
        }
    }

    /// The whole of what a read gives.
    pub fn content(&self) -> &[u8]
        ensures { option_map (λ d. d.read) (⟦<MemDisk as JournalDisk>⟧.disk self.now) ≡ Some result.now }
    {
        self.platter.content()
    }
}

impl JournalDisk for MemDisk {
    ghost use Rattle.std.proofs.Common.{subst};
    ghost use Rattle.std.proofs.lemmas.Option.{same_Some};

    ghost disk = { λ s. Some s.platter.disk };

    ghost faults = { λ s. s.calls.faults };

    ghost stops = { λ s. s.calls.stops };

    ghost spare = { λ s. s.platter.spare };

    ghost lent = { λ _. 0 };

    ghost is_faultless = { λ s. s.calls.fail.items ≡ [] };

    ghost is_sure = { λ _. ⊥ };

    fn size(&mut self) -> Result<u64, DeviceStop> {
        match self.calls.due() {
            Due::Fail => Err(DeviceStop::Failed),
            Due::Stop => Err(DeviceStop::Stopped),
            Due::Answer => Ok(self.platter.content().len() as u64),
        }
    }

    fn read_at(&mut self, start: u64, into: &mut [u8]) -> Result<(), DeviceStop> {
        match self.calls.due() {
            Due::Fail => Err(DeviceStop::Failed),
            Due::Stop => Err(DeviceStop::Stopped),
            Due::Answer => {
                self.platter.read(start, into);
                Ok(())
            }
        }
    }

    fn reserve(&mut self, units: u64) -> Result<(), AllocError> {
        self.platter.reserve(units)
    }

    fn write_at(&mut self, start: u64, bytes: &[u8]) -> Result<(), DeviceStop> {
        if bytes.len() as u64 >= LIMIT - start {
            self.calls.fault_at_call();
            return Err(DeviceStop::Failed);
        }
        match self.calls.due() {
            Due::Fail => Err(DeviceStop::Failed),
            Due::Stop => {
                self.platter.write(start, bytes);
                Err(DeviceStop::Stopped)
            }
            Due::Answer => {
                self.platter.write(start, bytes);
                Ok(())
            }
        }
    }

    fn sync(&mut self) -> Result<(), DeviceStop> {
        match self.calls.due() {
            Due::Fail => Err(DeviceStop::Failed),
            Due::Stop => Err(DeviceStop::Stopped),
            Due::Answer => {
                self.platter.sync();
                Ok(())
            }
        }
    }

    fn power_cut(&mut self) {
        self.platter.cut(self.pick);
    }

    ghost sound = { λ s d e. subst IsSound (same_Some s.platter.disk d e) s.sound };

    ghost faultless_tells = { λ _ _. refl };

    ghost sure_is_faultless = { λ s h. absurd h };

    ghost sure_tells = { λ s h. absurd h };
}
