//! Input files in memory.
ghost use Rattle.std.specs.Prelude.{◌≡◌, ◌≤◌, ◌<◌, [], ℕ, Some, length, IfOk, IsErrOf, IsSomeAnd};
ghost use Rattle.tez_ports.specs.Content.{bytes_of};
ghost use Rattle.tez_ports_mem.specs.Lists.{failing_reads, reads_so_far};

use crate::calls::{Calls, Due};
use crate::named::find;
use std::alloc::Global;
use tez_ids::{Bytes, Name};
use tez_ports::{InputFiles, ReadFault};

/// Files by name, of which listed reads fail. Of two entries of a name the first counts.
#[derive(Drop)]
pub struct MemFiles {
    entries: Vec<(Name, Bytes)>,
    calls: Calls,
    failed: Name,
}

impl MemFiles {
    /// The reads whose numbers, from 1, are in `fail` answer Failed.
    pub fn new(entries: Vec<(Name, Bytes)>, fail: Vec<u64>, alloc: Global) -> Self
        ensures files { ⟦<MemFiles as InputFiles>⟧.files result ≡ Some entries.items }
        ensures faults { ⟦<MemFiles as InputFiles>⟧.faults result ≡ 0 }
        ensures failed { ⟦<MemFiles as InputFiles>⟧.failed result ≡ [] }
        ensures failing { failing_reads result ≡ fail.items }
        ensures count { reads_so_far result ≡ 0 }
    {
        MemFiles {
            entries,
            calls: Calls::new(fail, Vec::new(alloc)),
            failed: Name::new(String::new(alloc)),
        }
    }
}

impl InputFiles for MemFiles {
    ghost files = { λ s. Some s.entries.items };

    ghost faults = { λ s. s.calls.faults };

    ghost failed = { λ s. s.failed };

    ghost is_sure = { λ _. ⊥ };

    fn read(&mut self, alloc: Global, name: &str, limit: u64) -> Result<Vec<u8>, ReadFault> {
        let Ok(copy) = Name::copy_of(alloc, name) else {
            return Err(ReadFault::NoMemory);
        };
        match self.calls.due() {
            Due::Fail => {
                self.failed = copy;
                Err(ReadFault::Failed)
            }
            Due::Answer | Due::Stop => read_entry(alloc, &self.entries, name, limit),
        }
    }

    ghost sure_tells = { λ s h. absurd h };
}

/// The bytes of a name, where they are at most `limit`. The time grows with the entries.
pub(crate) fn read_entry(
    alloc: Global,
    entries: &[(Name, Bytes)],
    name: &str,
    limit: u64,
) -> Result<Vec<u8>, ReadFault>
    ensures whole { IfOk result (λ v. bytes_of name.now entries.now ≡ Some v.items) }
    ensures fits { IfOk result (λ v. length v.items ≤ limit) }
    ensures missing { IsErrOf result ReadFault.Missing → bytes_of name.now entries.now ≡ None }
    ensures too_large { IsErrOf result ReadFault.TooLarge
        → IsSomeAnd (bytes_of name.now entries.now) (λ bytes. limit < length bytes) }
    ensures never_fails { IsErrOf result ReadFault.Failed → ⊥ }
{
    let Some(bytes) = find(entries, name) else {
        return Err(ReadFault::Missing);
    };
    if bytes.len() as u64 > limit {
        return Err(ReadFault::TooLarge);
    }
    match bytes.to_vec(alloc) {
        Ok(bytes) => Ok(bytes),
        Err(_) => Err(ReadFault::NoMemory),
    }
}
