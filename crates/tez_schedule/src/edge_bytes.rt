ghost use Rattle.std.specs.Prelude.{◌≡◌, ◌≤◌, ◌<◌, ◌^◌, ◌*◌, length, slice_set, replicate, IfOk};
ghost use Rattle.tez_plan.specs.Ranges.{most_tasks};
ghost use Rattle.tez_schedule.specs.Table.{made_in};

use std::alloc::{AllocError, Global};
use std::marker::Model;
use tez_ids::VertexId;

/// The bytes that were made for an edge, by source task, with their sum.
#[derive(Drop)]
pub(crate) struct EdgeBytes {
    source: VertexId,
    made: Vec<u64>,
    total: u128,
}

impl Model for EdgeBytes {
    ghost use Rattle.tez_schedule.specs.State.{EdgeState};
    ghost use Rattle.tez_schedule.specs.Kept.{AddsUp};

    ghost Value = { EdgeState };

    ghost view = { λ e. record { source = e.source; made = e.made.items } };

    ghost invariant = { λ e. AddsUp e.total e.made.items };
}

impl EdgeBytes {
    /// An edge from a vertex with so many tasks, for which nothing was made.
    pub fn new(alloc: Global, source: VertexId, tasks: u32) -> Result<Self, AllocError>
        requires { tasks ≤ most_tasks }
        ensures { IfOk result (λ e. e ≡ record { source = source; made = replicate tasks 0 }) }
    {
        Ok(EdgeBytes {
            source,
            made: vec![in alloc; 0; tasks as usize]?,
            total: 0,
        })
    }

    /// The vertex that the edge leads from.
    pub fn source(&self) -> VertexId
        ensures { result ≡ self.now.source }
    {
        self.source
    }

    /// How many bytes were made by all source tasks together.
    pub fn total(&self) -> u128
        ensures sum { result ≡ made_in self.now }
        ensures few { result < 2 ^ 78 }
    {
        self.total
    }

    /// A source task made so many bytes. Changes nothing where there is no such task.
    pub fn set(&mut self, task: u32, bytes: u64)
        ensures { self.new ≡ record self.old { made = slice_set self.old.made task bytes } }
    {
        let at = task as usize;
        if at < self.made.len() {
            self.total = self.total - self.made[at] as u128 + bytes as u128;
            self.made[at] = bytes;
        }
    }
}
