ghost use Rattle.std.specs.Prelude.{◌≤◌, ◌*◌, ◌<◌, ◌^◌};
ghost use Rattle.tez_tables.specs.Table.{scatter_gather};
ghost use Rattle.tez_tables.proofs.TableLemmas.{scatter_gather_inside, scatter_gather_covered};

use crate::EdgeManager;
use std::alloc::{AllocError, Global};
use tez_shrink::{ranges, tasks_of};

/// Each source task has `parts` outputs, its partitions. Consumer t takes the partitions from
/// `t * base` to before `(t + 1) * base` of every source task, as far as there are any: those of the
/// first source task first.
#[derive(Clone, Copy)]
pub struct ScatterGather {
    pub sources: u32,
    pub parts: u32,
    pub base: u32,
    pub ghost some: { 1 ≤ sources },
    pub ghost based: { 1 ≤ base },
    pub ghost narrow: { base ≤ parts },
    pub ghost fits: { sources * parts < 2 ^ 32 },
}

impl EdgeManager for ScatterGather {
    ghost table = { λ s. scatter_gather s.sources s.parts s.base };

    fn sources(&self) -> u32 {
        self.sources
    }

    fn consumers(&self) -> u32 {
        tasks_of(self.parts, self.base)
    }

    fn inputs_of(&self, consumer: u32) -> u32 {
        let (first, end) = ranges(self.parts, self.base, consumer);
        self.sources * (end - first)
    }

    fn outputs_of(&self, _source: u32) -> u32 {
        self.parts
    }

    fn route_error(&self, consumer: u32, input: u32) -> (u32, u32) {
        let (first, end) = ranges(self.parts, self.base, consumer);
        (input / (end - first), first + input % (end - first))
    }

    fn route(
        &self,
        alloc: Global,
        source: u32,
        output: u32,
    ) -> Result<Vec<(u32, u32)>, AllocError> {
        let consumer = output / self.base;
        let (first, end) = ranges(self.parts, self.base, consumer);
        let mut found = Vec::new(alloc);
        found.push((consumer, source * (end - first) + (output - first)))?;
        Ok(found)
    }

    ghost inside = { λ s. scatter_gather_inside s.sources s.parts s.base };

    ghost covered = { λ s. scatter_gather_covered s.sources s.parts s.base s.based };
}
