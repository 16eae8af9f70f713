//! An output store in memory.
ghost use Rattle.std.specs.Prelude.{◌≡◌, [], ℕ, Some, refl, option_map};
ghost use Rattle.tez_ports.specs.Content.{Store};
ghost use Rattle.tez_ports_mem.specs.Lists.{calls_so_far, failing_calls, stopped_calls};

use crate::calls::{Calls, Due};
use crate::contents::Contents;
use std::alloc::Global;
use tez_ids::{AttemptId, Bytes, Name};
use tez_ports::{DeviceStop, OutputStore, StoreFault};

/// A store of which listed calls fail or are stopped. A failed call takes no effect. A stopped call
/// takes effect, as when the answer is lost, but for `ready` and `stage` where memory is missing. It is
/// faultless where no call is listed to fail. The time of each call grows with what is staged, readied and published.
#[derive(Drop)]
pub struct MemStore {
    contents: Contents,
    calls: Calls,
}

impl MemStore {
    /// The calls whose numbers, from 1, are in `fail` answer Failed, and of the others those in `stop`
    /// answer Stopped.
    pub fn new(fail: Vec<u64>, stop: Vec<u64>, alloc: Global) -> Self
        ensures store { ⟦<MemStore as OutputStore>⟧.store result
            ≡ Some (record { staged = []; readied = []; publications = []; stage_calls = [] }) }
        ensures faults { ⟦<MemStore as OutputStore>⟧.faults result ≡ 0 }
        ensures stops { ⟦<MemStore as OutputStore>⟧.stops result ≡ 0 }
        ensures failing { failing_calls result ≡ fail.items }
        ensures stopped { stopped_calls result ≡ stop.items }
        ensures count { calls_so_far result ≡ 0 }
    {
        MemStore {
            contents: Contents::new(alloc),
            calls: Calls::new(fail, stop),
        }
    }

    /// Names and bytes, in the order in which they were published.
    pub fn publications(&self) -> &[(Name, Bytes)]
        ensures { option_map (λ s. s.publications) (⟦<MemStore as OutputStore>⟧.store self.now) ≡ Some result.now }
    {
        self.contents.publications()
    }
}

impl OutputStore for MemStore {
    ghost store = { λ s. Some s.contents };

    ghost faults = { λ s. s.calls.faults };

    ghost stops = { λ s. s.calls.stops };

    ghost lent = { λ _. 0 };

    ghost is_faultless = { λ s. s.calls.fail.items ≡ [] };

    ghost is_sure = { λ _. ⊥ };

    fn ready(&mut self, name: &str, bytes: &[u8]) -> Result<(), StoreFault> {
        match self.calls.due() {
            Due::Fail => Err(StoreFault::Failed),
            Due::Stop => {
                let _ = self.contents.ready(name, bytes);
                Err(StoreFault::Stopped)
            }
            Due::Answer => match self.contents.ready(name, bytes) {
                Ok(()) => Ok(()),
                Err(_) => Err(StoreFault::NoMemory),
            },
        }
    }

    fn publish(&mut self, name: &str) -> Result<(), DeviceStop> {
        match self.calls.due() {
            Due::Fail => Err(DeviceStop::Failed),
            Due::Stop => {
                self.contents.publish(name);
                Err(DeviceStop::Stopped)
            }
            Due::Answer => {
                if self.contents.publish(name) {
                    Ok(())
                } else {
                    self.calls.fault();
                    Err(DeviceStop::Failed)
                }
            }
        }
    }

    fn is_published(&mut self, name: &str) -> Result<bool, DeviceStop> {
        match self.calls.due() {
            Due::Fail => Err(DeviceStop::Failed),
            Due::Stop => Err(DeviceStop::Stopped),
            Due::Answer => Ok(self.contents.is_published(name)),
        }
    }

    fn stage(&mut self, attempt: AttemptId, bytes: &[u8]) -> Result<(), StoreFault> {
        match self.calls.due() {
            Due::Fail => Err(StoreFault::Failed),
            Due::Stop => {
                let _ = self.contents.stage(attempt, bytes);
                Err(StoreFault::Stopped)
            }
            Due::Answer => match self.contents.stage(attempt, bytes) {
                Ok(()) => Ok(()),
                Err(_) => Err(StoreFault::NoMemory),
            },
        }
    }

    fn load(&mut self, alloc: Global, attempt: AttemptId) -> Result<Vec<u8>, StoreFault> {
        match self.calls.due() {
            Due::Fail => Err(StoreFault::Failed),
            Due::Stop => Err(StoreFault::Stopped),
            Due::Answer => {
                let Some(bytes) = self.contents.staged(attempt) else {
                    self.calls.fault();
                    return Err(StoreFault::Failed);
                };
                match bytes.to_vec(alloc) {
                    Ok(bytes) => Ok(bytes),
                    Err(_) => Err(StoreFault::NoMemory),
                }
            }
        }
    }

    fn purge(&mut self) -> Result<(), DeviceStop> {
        match self.calls.due() {
            Due::Fail => Err(DeviceStop::Failed),
            Due::Stop => {
                self.contents.purge();
                Err(DeviceStop::Stopped)
            }
            Due::Answer => {
                self.contents.purge();
                Ok(())
            }
        }
    }

    ghost faultless_tells = { λ _ _. refl };

    ghost sure_is_faultless = { λ s h. absurd h };

    ghost sure_tells = { λ s h. absurd h };
}
