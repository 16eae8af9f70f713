//! What the parts tell.
ghost use Rattle.std.specs.Prelude.{◌≡◌, ◌<◌, ◌/◌, ◌^◌, ◌↔◌, IsTrue, Some, slice_get, is_none, IfSome};
ghost use Rattle.std.specs.Option.{option_map};
ghost use Rattle.tez_task.specs.TaskState.{HasRoom};
ghost use Rattle.tez_pool.specs.Table.{place_held};
ghost use Rattle.tez_schedule.specs.Table.{config_at, progress_at, is_task};
ghost use Rattle.tez_master_model.specs.Enabled.{why_in};
ghost use Rattle.tez_master_model.specs.Read.{task_in, state_in, winner_in, next_in, is_in_queue, is_at_place, is_at_work, is_queued, waits, processes, free_place, is_free_place, location_in, is_on_shelf, source_in, are_done, first_sink, all_sinks, next_sink, is_next, is_running};

use crate::locations::location_at;
use crate::parts::Core;
use crate::sinks::{are_all_done, has_edge_out, is_first_open, nth_sink, target_of};
use crate::tasks::{has_room, next_of, state_of, why_of, winner_of};
use tez_attempt::AttemptState;
use tez_ids::{AttemptId, EdgeId, NodeId, TaskId, VertexId};
use tez_master_model::Why;
use tez_vman::Config;

pub(crate) fn is_in_queue(state: Option<AttemptState>) -> bool
    ensures { result ≡ is_in_queue state }
{
    matches!(state, Some(AttemptState::Queued))
}

fn is_at_place(state: Option<AttemptState>) -> bool
    ensures { result ≡ is_at_place state }
{
    matches!(state, Some(AttemptState::Placed))
}

fn is_at_work(state: Option<AttemptState>) -> bool
    ensures { result ≡ is_at_work state }
{
    matches!(state, Some(AttemptState::Processing))
}

impl Core {
    /// How far an attempt has come, where it is its task's live one.
    pub fn state_of(&self, a: AttemptId) -> Option<AttemptState>
        ensures { result ≡ state_in self.now a }
    {
        state_of(&self.vertices, a)
    }

    /// The winner of a task. None where it has none, and where there is no such task.
    pub fn winner_of(&self, t: TaskId) -> Option<AttemptId>
        ensures { result ≡ winner_in self.now t }
    {
        winner_of(&self.vertices, t)
    }

    /// The attempt of a task that is queued next.
    pub fn next_of(&self, t: TaskId) -> AttemptId
        ensures { result ≡ next_in self.now t }
    {
        next_of(&self.vertices, self.epoch, t)
    }

    /// Whether an attempt waits for a place.
    pub fn is_queued(&self, a: AttemptId) -> bool
        ensures { result ≡ is_queued self.now a }
    {
        is_in_queue(self.state_of(a))
    }

    /// Whether an attempt holds a place and fetches its inputs.
    pub fn waits(&self, a: AttemptId) -> bool
        ensures { result ≡ waits self.now a }
    {
        is_at_place(self.state_of(a))
    }

    /// Whether the order of an attempt is out.
    pub fn processes(&self, a: AttemptId) -> bool
        ensures { result ≡ processes self.now a }
    {
        is_at_work(self.state_of(a))
    }

    /// Why an attempt is not processing, None where it is: it is of an earlier master, it was never
    /// queued, it has ended, or it has not come so far.
    pub fn why(&self, a: AttemptId) -> Option<Why>
        ensures { result ≡ why_in self.now a }
    {
        if a.epoch.0 < self.epoch.0 {
            return Some(Why::OldEpoch);
        }
        if self.epoch.0 < a.epoch.0 {
            return Some(Why::UnknownAttempt);
        }
        why_of(&self.vertices, a)
    }

    /// The node slot where the pieces of a task's winner lie, if they lie anywhere.
    pub fn location_of(&self, t: TaskId) -> Option<u16>
        ensures { result ≡ location_in self.now t }
    {
        location_at(&self.locations, t)
    }

    /// Whether the pieces of this winner are on the shelf. Takes time in the edges.
    pub fn is_on_shelf(&self, w: AttemptId) -> bool
        ensures { result ≡ is_on_shelf self.now w }
    {
        has_edge_out(&self.plan, w.task.vertex) && self.location_of(w.task).is_some()
    }

    /// The winner behind an input of an attempt, over an edge that leads to its vertex.
    pub fn source_of(&self, a: AttemptId, e: EdgeId, input: u32) -> Option<AttemptId>
        ensures { result ≡ source_in self.now a e.0 input }
    {
        if target_of(&self.plan, e) == a.task.vertex {
            self.router.source_of(a, e, input)
        } else {
            None
        }
    }

    /// The least free place.
    pub fn free_place(&self) -> Option<u32>
        ensures { result ≡ free_place self.now }
    {
        self.pool.free_place()
    }

    /// Whether a place is there and free.
    pub fn is_free_place(&self, place: u32) -> bool
        ensures { result ≡ is_free_place self.now place }
    {
        place < self.pool.places() && self.pool.holder(place).is_none()
    }

    /// The place of an attempt, and the node of that place.
    pub fn place_of(&self, a: AttemptId) -> Option<(u32, NodeId)>
        ensures place { option_map (λ x. x.0) result ≡ place_held self.now.pool.places a }
        ensures slot { IfSome result (λ x. x.1.slot ≡ x.0 / self.now.pool.per_node) }
        ensures life { IfSome result (λ x. slice_get self.now.pool.lives x.1.slot ≡ Some x.1.life) }
    {
        match self.pool.place_of(a) {
            Some((place, _)) => Some((place, self.pool.node_of(place))),
            None => None,
        }
    }

    /// Whether one attempt more of a task can be numbered, if the task is there.
    pub fn has_room(&self, t: TaskId) -> bool
        ensures { IsTrue result ↔ IfSome (task_in self.now t) HasRoom }
    {
        has_room(&self.vertices, t)
    }

    /// Whether the containers of freed places can be numbered.
    pub fn has_containers(&self) -> bool
        ensures { IsTrue result ↔ (self.now.pool.next < 2 ^ 127) }
    {
        self.pool.next_container().0 < 1 << 127
    }

    /// Whether a task is one of a configured vertex.
    pub fn is_task(&self, t: TaskId) -> bool
        ensures { result ≡ is_task self.now.schedule t }
    {
        self.schedule.is_task(t)
    }

    /// The tasks of a vertex, and how many partitions each of them takes.
    pub fn config_of(&self, v: VertexId) -> Option<Config>
        ensures { result ≡ config_at self.now.schedule v.0 }
    {
        self.schedule.config_of(v)
    }

    /// How many tasks of a vertex have a winner, and how many there are.
    pub fn progress(&self, v: VertexId) -> (u32, u32)
        ensures { result ≡ progress_at self.now.schedule v.0 }
    {
        self.schedule.progress(v)
    }

    /// Whether every task of every vertex has a winner.
    pub fn are_done(&self) -> bool
        ensures { result ≡ are_done self.now }
    {
        self.schedule.are_done()
    }

    /// Whether it is up, and the job is not finished.
    pub fn is_running(&self) -> bool
        ensures { result ≡ is_running self.now }
    {
        self.up && !self.finished
    }

    pub(crate) fn is_first_unreadied(&self, v: VertexId) -> bool
        ensures { result ≡ first_sink self.now self.now.readied v.0 }
    {
        is_first_open(&self.plan, &self.readied, v)
    }

    pub(crate) fn are_all_readied(&self) -> bool
        ensures { result ≡ all_sinks self.now self.now.readied }
    {
        are_all_done(&self.plan, &self.readied)
    }

    /// The vertex whose sink the journal records next, None once each is recorded. Takes time in the
    /// vertices.
    pub fn next_sink(&self) -> Option<VertexId>
        ensures { option_map (λ v. v.0) result ≡ next_sink self.now }
    {
        nth_sink(&self.plan, self.recorded)
    }

    pub(crate) fn are_all_recorded(&self) -> bool
        ensures { result ≡ is_none (next_sink self.now) }
    {
        self.next_sink().is_none()
    }

    pub(crate) fn is_next(&self, v: VertexId) -> bool
        ensures { result ≡ is_next self.now v.0 }
    {
        match self.next_sink() {
            Some(next) => next == v,
            None => false,
        }
    }
}
