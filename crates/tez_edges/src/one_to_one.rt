ghost use Rattle.std.specs.Prelude.{◌≤◌};
ghost use Rattle.tez_tables.specs.Table.{one_to_one};
ghost use Rattle.tez_tables.proofs.TableLemmas.{one_to_one_inside, one_to_one_covered};

use crate::EdgeManager;
use std::alloc::{AllocError, Global};

/// Source task i feeds consumer task i.
#[derive(Clone, Copy)]
pub struct OneToOne {
    pub tasks: u32,
    pub ghost some: { 1 ≤ tasks },
}

impl EdgeManager for OneToOne {
    ghost table = { λ s. one_to_one s.tasks };

    fn sources(&self) -> u32 {
        self.tasks
    }

    fn consumers(&self) -> u32 {
        self.tasks
    }

    fn inputs_of(&self, _consumer: u32) -> u32 {
        1
    }

    fn outputs_of(&self, _source: u32) -> u32 {
        1
    }

    fn route_error(&self, consumer: u32, _input: u32) -> (u32, u32) {
        (consumer, 0)
    }

    fn route(
        &self,
        alloc: Global,
        source: u32,
        _output: u32,
    ) -> Result<Vec<(u32, u32)>, AllocError> {
        let mut found = Vec::new(alloc);
        found.push((source, 0))?;
        Ok(found)
    }

    ghost inside = { λ s. one_to_one_inside s.tasks };

    ghost covered = { λ s. one_to_one_covered s.tasks };
}
