//! An output store in memory that never stops.
ghost use Rattle.std.specs.Prelude.{◌≡◌, [], ℕ, Some, ⊤, refl, option_map};
ghost use Rattle.tez_ports.specs.Content.{Store};

use crate::contents::Contents;
use std::alloc::Global;
use tez_ids::{AttemptId, Bytes, Name};
use tez_ports::{DeviceStop, OutputStore, StoreFault};

/// A store that fails only where a name is not readied or an attempt is not staged. The time of each
/// call grows with what is staged, readied and published.
#[derive(Drop)]
pub struct SureStore {
    contents: Contents,
    faults: u64,
}

impl SureStore {
    pub fn new(alloc: Global) -> Self
        ensures store { ⟦<SureStore as OutputStore>⟧.store result
            ≡ Some (record { staged = []; readied = []; publications = []; stage_calls = [] }) }
        ensures faults { ⟦<SureStore as OutputStore>⟧.faults result ≡ 0 }
        ensures sure { ⟦<SureStore as OutputStore>⟧.is_sure result }
    {
        SureStore {
            contents: Contents::new(alloc),
            faults: 0,
        }
    }

    /// Names and bytes, in the order in which they were published.
    pub fn publications(&self) -> &[(Name, Bytes)]
        ensures { option_map (λ s. s.publications) (⟦<SureStore as OutputStore>⟧.store self.now) ≡ Some result.now }
    {
        self.contents.publications()
    }
}

impl OutputStore for SureStore {
    ghost store = { λ s. Some s.contents };

    ghost faults = { λ s. s.faults };

    ghost stops = { λ _. 0 };

    ghost lent = { λ _. 0 };

    ghost is_faultless = { λ _. ⊤ };

    ghost is_sure = { λ _. ⊤ };

    fn ready(&mut self, name: &str, bytes: &[u8]) -> Result<(), StoreFault> {
        match self.contents.ready(name, bytes) {
            Ok(()) => Ok(()),
            Err(_) => Err(StoreFault::NoMemory),
        }
    }

    fn publish(&mut self, name: &str) -> Result<(), DeviceStop> {
        if self.contents.publish(name) {
            Ok(())
        } else {
            self.faults = self.faults.saturating_add(1);
            Err(DeviceStop::Failed)
        }
    }

    fn is_published(&mut self, name: &str) -> Result<bool, DeviceStop> {
        Ok(self.contents.is_published(name))
    }

    fn stage(&mut self, attempt: AttemptId, bytes: &[u8]) -> Result<(), StoreFault> {
        match self.contents.stage(attempt, bytes) {
            Ok(()) => Ok(()),
            Err(_) => Err(StoreFault::NoMemory),
        }
    }

    fn load(&mut self, alloc: Global, attempt: AttemptId) -> Result<Vec<u8>, StoreFault> {
        let Some(bytes) = self.contents.staged(attempt) else {
            self.faults = self.faults.saturating_add(1);
            return Err(StoreFault::Failed);
        };
        match bytes.to_vec(alloc) {
            Ok(bytes) => Ok(bytes),
            Err(_) => Err(StoreFault::NoMemory),
        }
    }

    fn purge(&mut self) -> Result<(), DeviceStop> {
        self.contents.purge();
        Ok(())
    }

    ghost faultless_tells = { λ _ _. refl };

    ghost sure_is_faultless = { λ _ h. h };

    ghost sure_tells = { λ _ _. refl };
}
