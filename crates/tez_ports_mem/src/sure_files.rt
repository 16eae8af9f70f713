//! Input files in memory that never fail.
ghost use Rattle.std.specs.Prelude.{◌≡◌, [], ℕ, Some, ⊤, refl};

use crate::files::read_entry;
use std::alloc::Global;
use tez_ids::{Bytes, Name};
use tez_ports::{InputFiles, ReadFault};

/// Files by name. Of two entries of a name the first counts.
#[derive(Drop)]
pub struct SureFiles {
    entries: Vec<(Name, Bytes)>,
}

impl SureFiles {
    pub fn new(entries: Vec<(Name, Bytes)>) -> Self
        ensures files { ⟦<SureFiles as InputFiles>⟧.files result ≡ Some entries.items }
        ensures sure { ⟦<SureFiles as InputFiles>⟧.is_sure result }
    {
        SureFiles { entries }
    }
}

impl InputFiles for SureFiles {
    ghost files = { λ s. Some s.entries.items };

    ghost faults = { λ _. 0 };

    ghost failed = { λ _. [] };

    ghost is_sure = { λ _. ⊤ };

    fn read(&mut self, alloc: Global, name: &str, limit: u64) -> Result<Vec<u8>, ReadFault> {
        read_entry(alloc, &self.entries, name, limit)
    }

    ghost sure_tells = { λ _ _. refl };
}
