//! Input files of the working folder.
ghost use Rattle.std.specs.Prelude.{◌≡◌, [], ℕ, None};

use crate::folder::read_up_to;
use crate::report::report;
use std::alloc::Global;
use std::io::ErrorKind;
use std::rt::Files;
use tez_ids::Name;
use tez_ports::{InputFiles, ReadFault};

/// Files whose names are paths of the working folder.
#[derive(Drop)]
pub struct FolderFiles<'r, R: Files + Eprint> {
    rt: &'r R,
    faults: u64,
    failed: Name,
}

impl<'r, R: Files + Eprint> FolderFiles<'r, R> {
    pub fn new(alloc: Global, rt: &'r R) -> Self
        ensures faults { result.faults ≡ 0 }
        ensures failed { result.failed ≡ [] }
    {
        FolderFiles {
            rt,
            faults: 0,
            failed: Name::new(String::new(alloc)),
        }
    }
}

impl<R: Files + Eprint> InputFiles for FolderFiles<'_, R> {
    ghost files = { λ _. None };

    ghost faults = { λ s. s.faults };

    ghost failed = { λ s. s.failed };

    ghost is_sure = { λ _. ⊥ };

    /// Reads at most one byte past the limit, however long the file is.
    fn read(&mut self, alloc: Global, name: &str, limit: u64) -> Result<Vec<u8>, ReadFault> {
        let Ok(copy) = Name::copy_of(alloc, name) else {
            return Err(ReadFault::NoMemory);
        };
        match read_up_to(alloc, self.rt, name, limit.saturating_add(1)) {
            Ok(bytes) => {
                if bytes.len() as u64 > limit {
                    Err(ReadFault::TooLarge)
                } else {
                    Ok(bytes)
                }
            }
            Err(error) => match error.kind() {
                ErrorKind::NotFound => Err(ReadFault::Missing),
                ErrorKind::OutOfMemory => Err(ReadFault::NoMemory),
                _ => {
                    report(self.rt, name, &error);
                    self.faults = self.faults.saturating_add(1);
                    self.failed = copy;
                    Err(ReadFault::Failed)
                }
            },
        }
    }

    ghost sure_tells = { λ s h. absurd h };
}
