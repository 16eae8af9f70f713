ghost use Rattle.std.specs.Prelude.{◌≤◌};
ghost use Rattle.tez_tables.specs.Table.{broadcast};
ghost use Rattle.tez_tables.proofs.TableLemmas.{broadcast_inside, broadcast_covered};

use crate::EdgeManager;
use std::alloc::{AllocError, Global};

/// The one output of each source task goes to every consumer, whose input i is that of source i.
#[derive(Clone, Copy)]
pub struct Broadcast {
    pub sources: u32,
    pub consumers: u32,
    pub ghost some: { 1 ≤ sources },
    pub ghost somewhere: { 1 ≤ consumers },
}

impl EdgeManager for Broadcast {
    ghost table = { λ s. broadcast s.sources s.consumers };

    fn sources(&self) -> u32 {
        self.sources
    }

    fn consumers(&self) -> u32 {
        self.consumers
    }

    fn inputs_of(&self, _consumer: u32) -> u32 {
        self.sources
    }

    fn outputs_of(&self, _source: u32) -> u32 {
        1
    }

    fn route_error(&self, _consumer: u32, input: u32) -> (u32, u32) {
        (input, 0)
    }

    fn route(
        &self,
        alloc: Global,
        source: u32,
        _output: u32,
    ) -> Result<Vec<(u32, u32)>, AllocError> {
        let mut found = Vec::new(alloc);
        for consumer in 0..self.consumers {
            found.push((consumer, source))?;
        }
        Ok(found)
    }

    ghost inside = { λ s. broadcast_inside s.sources s.consumers };

    ghost covered = { λ s. broadcast_covered s.sources s.consumers s.somewhere };
}
