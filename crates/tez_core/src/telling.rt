//! What the parts tell of what an event is to add.
ghost use Rattle.std.specs.Prelude.{◌≡◌, ◌+◌, ◌<◌, ◌^◌, ◌↔◌, IsTrue, false, slice_get, IfSome, IfOk};
ghost use Rattle.std.specs.Option.{option_map_or};
ghost use Rattle.tez_task.specs.Table.{is_last};
ghost use Rattle.tez_pool.specs.Table.{held_on};
ghost use Rattle.tez_router.specs.Table.{notices_in, without};
ghost use Rattle.tez_schedule.specs.Table.{configures_at};
ghost use Rattle.tez_master_model.specs.Read.{lost_in};
ghost use Rattle.tez_master_model.specs.Entries.{container_in, is_last_in, next_life};
ghost use Rattle.tez_core.specs.Parts.{task_at};

use crate::lost::lost_with;
use crate::parts::Core;
use std::alloc::{AllocError, Global};
use tez_conf::Conf;
use tez_ids::{AttemptId, ContainerId, Epoch, TaskId, VertexId};
use tez_plan::Plan;
use tez_router::Notice;
use tez_vertex::VertexMachine;
use tez_vman::Config;

impl Core {
    pub fn plan(&self) -> &Plan
        ensures { result.now ≡ self.now.plan }
    {
        &self.plan
    }

    pub fn conf(&self) -> &Conf
        ensures { result.now ≡ self.now.conf }
    {
        &self.conf
    }

    /// The number of this master.
    pub fn epoch(&self) -> Epoch
        ensures { result.0 ≡ self.now.epoch }
    {
        self.epoch
    }

    /// The container of a place, that of number 0 where there is no such place.
    pub fn container_of(&self, place: u32) -> ContainerId
        ensures { result ≡ container_in self.now place }
    {
        if place < self.pool.places() {
            self.pool.container_of(place)
        } else {
            ContainerId(0)
        }
    }

    /// The life of the node of a slot, None where there is no such slot.
    pub fn life_of(&self, slot: u16) -> Option<u64>
        ensures { result ≡ slice_get self.now.pool.lives slot }
    {
        self.pool.life_of(slot)
    }

    /// Whether the next life of a slot can be numbered, if the slot is there.
    pub fn has_next_life(&self, slot: u16) -> bool
        ensures { IsTrue result ↔ IfSome (slice_get self.now.pool.lives slot) (λ life. life + 1 < 2 ^ 64) }
    {
        match self.life_of(slot) {
            Some(life) => life < u64::MAX,
            None => true,
        }
    }

    /// The life of the node that stands in a slot next, 1 where there is no such slot.
    pub fn next_life(&self, slot: u16) -> u64
        // `has_next_life` is the test of this.
        requires { IfSome (slice_get self.now.pool.lives slot) (λ life. life + 1 < 2 ^ 64) }
        ensures { result ≡ next_life self.now slot }
    {
        match self.life_of(slot) {
            Some(life) => life + 1,
            None => 1,
        }
    }

    /// Whether the next failure of a task is its last.
    pub fn is_last(&self, t: TaskId) -> bool
        ensures { result ≡ is_last_in self.now t }
    {
        is_last(&self.vertices, t)
    }

    /// Who waits for the output of a task's winner, and where. Takes the time of the router's
    /// `notices`.
    pub fn notices(&self, alloc: Global, t: TaskId) -> Result<Vec<Notice>, AllocError>
        ensures { IfOk result (λ found. found.items ≡ notices_in self.now.router t) }
    {
        self.router.notices(alloc, t)
    }

    /// The same, but for these attempts. Takes the time of the router's `notices_except`.
    pub fn notices_except(
        &self,
        alloc: Global,
        t: TaskId,
        ended: &[AttemptId],
    ) -> Result<Vec<Notice>, AllocError>
        ensures { IfOk result (λ found. found.items ≡ notices_in (without self.now.router ended.now) t) }
    {
        self.router.notices_except(alloc, t, ended)
    }

    /// The attempts at the places of a node, by place. Takes time in these places.
    pub fn held_on(&self, alloc: Global, slot: u16) -> Result<Vec<AttemptId>, AllocError>
        ensures { IfOk result (λ found. found.items ≡ held_on self.now.pool slot) }
    {
        match self.pool.life_of(slot) {
            Some(_) => self.pool.held(alloc, slot),
            None => Ok(Vec::new(alloc)),
        }
    }

    /// The winners whose pieces lie on a node, in the order of tasks. Takes time in the tasks, and in
    /// the edges for each task whose winner worked there.
    pub fn lost_on(&self, alloc: Global, slot: u16) -> Result<Vec<AttemptId>, AllocError>
        ensures { IfOk result (λ found. found.items ≡ lost_in self.now slot) }
    {
        lost_with(alloc, &self.plan, &self.locations, &self.vertices, slot)
    }
}

fn is_last(vertices: &[VertexMachine], t: TaskId) -> bool
    ensures { result ≡ option_map_or is_last (task_at vertices.now t) false }
{
    match vertices.get(t.vertex.0 as usize) {
        Some(x) if t.index < x.tasks() => x.is_last(t.index),
        _ => false,
    }
}
