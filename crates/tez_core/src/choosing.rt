//! What the parts tell to one who chooses the next event, and to one who loses a node.
ghost use Rattle.std.specs.Prelude.{◌≡◌, ◌<◌, ◌≤◌, [], length, Some, IfSome, IfNone};
ghost use Rattle.std.specs.Option.{option_map};
ghost use Rattle.tez_plan.specs.Faults.{IsValid};
ghost use Rattle.tez_plan.specs.Ranges.{IsInRanges};
ghost use Rattle.tez_plan.specs.Order.{depth};
ghost use Rattle.tez_vertex.specs.Table.{task_of};
ghost use Rattle.tez_pool.specs.Index.{held_at};
ghost use Rattle.tez_pool.specs.Victim.{AreIn, IsGreatest, candidates};
ghost use Rattle.tez_schedule.specs.Table.{next_configure};
ghost use Rattle.tez_master_model.specs.Read.{is_on_slot};
ghost use Rattle.tez_master_model.specs.Choice.{sink_to_ready, ready_choice, commit_choice, ask_choice, publish_choice, finish_choice};
ghost use Rattle.tez_core.specs.Choosing.{queued_one, queued_at, count_at, work_choice, found_to_ready, end_choice, lost_at};

use crate::depths;
use crate::parts::Core;
use crate::reads::is_in_queue;
use crate::sinks::{first_open, flag, has_edge_out};
use crate::tasks::vertex_of;
use tez_events::CoreEvent;
use tez_ids::{AttemptId, TaskId, VertexId};
use tez_vertex::VertexMachine;

fn queued_one(x: &VertexMachine, index: u32) -> Option<AttemptId>
    requires { index < length x.now.tasks }
    ensures { option_map queued_one (task_of x.now index) ≡ Some result }
{
    match x.live(index) {
        Some(a) if is_in_queue(x.attempt_state(index, a)) => Some(a),
        _ => None,
    }
}

fn queued_at(vertices: &[VertexMachine], t: TaskId) -> Option<AttemptId>
    ensures { result ≡ queued_at vertices.now t }
{
    match vertex_of(vertices, t) {
        Some(x) => queued_one(x, t.index),
        None => None,
    }
}

fn count_at(vertices: &[VertexMachine], v: VertexId) -> u32
    ensures { result ≡ count_at vertices.now v.0 }
{
    match vertices.get(v.0 as usize) {
        Some(x) => x.tasks(),
        None => 0,
    }
}

impl Core {
    /// The attempt of a task that waits for a place.
    pub fn queued_of(&self, t: TaskId) -> Option<AttemptId>
        ensures { result ≡ queued_at self.now.vertices t }
    {
        queued_at(&self.vertices, t)
    }

    /// How many tasks a vertex has: none before it is configured.
    pub fn tasks_of(&self, v: VertexId) -> u32
        ensures { result ≡ count_at self.now.vertices v.0 }
    {
        count_at(&self.vertices, v)
    }

    /// How many vertices the plan has.
    pub fn vertices(&self) -> u16
        ensures count { result ≡ length self.now.plan.vertices }
        ensures few { result ≤ 64 }
        ensures valid { IsValid self.now.plan }
        ensures in_ranges { IsInRanges self.now.plan }
    {
        self.plan.vertices().len() as u16
    }

    /// The depth of a vertex, 0 where there is no such vertex.
    pub fn depth_of(&self, v: VertexId) -> u32
        ensures { result ≡ depth self.now.plan v.0 }
    {
        depths::depth_of(&self.plan, v)
    }

    /// Whether the commit has begun.
    pub fn is_committing(&self) -> bool
        ensures { result ≡ self.now.committing }
    {
        self.committing
    }

    /// How many places a node has by the configuration.
    pub fn per_node(&self) -> u16
        ensures places { result ≡ self.now.conf.per_node }
        ensures few { result ≤ 64 }
    {
        self.conf.values().per_node
    }

    /// At how many failures a task is spent.
    pub fn max_failed(&self) -> u32
        ensures limit { result ≡ self.now.conf.max_failed }
        ensures some { 1 ≤ result }
        ensures few { result ≤ 100 }
    {
        self.conf.values().max_failed
    }

    /// Who holds a place.
    pub fn holder(&self, place: u32) -> Option<AttemptId>
        ensures { result ≡ held_at self.now.pool.places place }
    {
        if place < self.pool.places() {
            self.pool.holder(place)
        } else {
            None
        }
    }

    /// Of the attempts that wait at a place and are deeper than `depth`, the deepest, and of those
    /// the greatest. Takes time in the number of places.
    pub fn victim(&self, depth: u32) -> Option<AttemptId>
        requires { AreIn self.now.plan self.now.pool.places }
        ensures some { IfSome result (IsGreatest self.now.plan (candidates self.now.plan depth self.now.pool.places)) }
        ensures none { IfNone result (candidates self.now.plan depth self.now.pool.places ≡ []) }
    {
        self.pool.victim(&self.plan, depth)
    }

    /// The winner of a task, where its pieces lie on this node. Takes time in the edges.
    pub fn lost_at(&self, slot: u16, t: TaskId) -> Option<AttemptId>
        ensures { result ≡ lost_at self.now slot t }
    {
        match self.winner_of(t) {
            Some(w) if self.is_on_slot(slot, w) => Some(w),
            _ => None,
        }
    }

    fn is_on_slot(&self, slot: u16, w: AttemptId) -> bool
        ensures { result ≡ is_on_slot self.now slot w }
    {
        match self.location_of(w.task) {
            Some(location) => location == slot && has_edge_out(&self.plan, w.task.vertex),
            None => false,
        }
    }

    /// The first vertex to configure, else the first task to queue, else the first input to fetch,
    /// else the first order to send. Takes time in the vertices and edges and in the attempts that
    /// hold places, and in the inputs before the first that can be fetched.
    pub fn work_choice(&self) -> Option<CoreEvent>
        ensures { result ≡ work_choice self.now }
    {
        if let Some(v) = self.schedule.next_configure() {
            return Some(CoreEvent::Configure(v));
        }
        if let Some(t) = self.schedule.next_queue() {
            return Some(CoreEvent::Queue(t));
        }
        if let Some(f) = self.router.next_fetch() {
            return Some(CoreEvent::Fetch(f.attempt, f.edge, f.input));
        }
        match self.router.next_complete() {
            Some(a) => Some(CoreEvent::Send(a)),
            None => None,
        }
    }

    /// The first sink to put aside once all is done, else the commit where all of them are, else the
    /// sink of which the store is to be asked, else the one to publish, else the end of the job. Takes
    /// time in the vertices.
    pub fn end_choice(&self) -> Option<CoreEvent>
        ensures { result ≡ end_choice self.now }
    {
        if let Some(e) = self.ready_choice() {
            return Some(e);
        }
        if let Some(e) = self.commit_choice() {
            return Some(e);
        }
        if let Some(e) = self.ask_choice() {
            return Some(e);
        }
        match self.publish_choice() {
            Some(e) => Some(e),
            None => self.finish_choice(),
        }
    }

    fn ready_choice(&self) -> Option<CoreEvent>
        ensures { result ≡ ready_choice self.now }
    {
        if !self.are_done() {
            return None;
        }
        match self.sink_to_ready() {
            Some(v) => Some(CoreEvent::Ready(v)),
            None => None,
        }
    }

    fn sink_to_ready(&self) -> Option<VertexId>
        ensures { option_map (λ v. v.0) result ≡ sink_to_ready self.now }
    {
        if self.found {
            return self.found_to_ready();
        }
        if self.committing {
            return None;
        }
        first_open(&self.plan, &self.readied)
    }

    // In a commit that an earlier master started.
    fn found_to_ready(&self) -> Option<VertexId>
        ensures { option_map (λ v. v.0) result ≡ found_to_ready self.now }
    {
        match self.next_sink() {
            Some(v) if flag(&self.asked, v) && !flag(&self.readied, v) => Some(v),
            _ => None,
        }
    }

    fn commit_choice(&self) -> Option<CoreEvent>
        ensures { result ≡ commit_choice self.now }
    {
        if !self.committing && self.are_all_readied() {
            Some(CoreEvent::CommitStart)
        } else {
            None
        }
    }

    fn ask_choice(&self) -> Option<CoreEvent>
        ensures { result ≡ ask_choice self.now }
    {
        if !self.found {
            return None;
        }
        match self.next_sink() {
            Some(v) if !flag(&self.asked, v) => Some(CoreEvent::Ask(v)),
            _ => None,
        }
    }

    fn publish_choice(&self) -> Option<CoreEvent>
        ensures { result ≡ publish_choice self.now }
    {
        if !self.committing {
            return None;
        }
        match self.next_sink() {
            Some(v) if self.is_put_aside(v) => Some(CoreEvent::Publish(v)),
            _ => None,
        }
    }

    fn finish_choice(&self) -> Option<CoreEvent>
        ensures { result ≡ finish_choice self.now }
    {
        if self.committing && self.are_all_recorded() {
            Some(CoreEvent::Finish)
        } else {
            None
        }
    }
}
