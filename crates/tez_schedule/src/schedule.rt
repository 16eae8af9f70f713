ghost use Rattle.std.specs.Prelude.{◌≡◌, ◌≤◌, true, length, IfOk, IfSome};
ghost use Rattle.std.specs.Option.{option_map};
ghost use Rattle.tez_schedule.specs.Planned.{planned_schedule};
ghost use Rattle.tez_schedule.specs.Table.{next_configure, configures_at, config_at, can_configure, next_queue, next_at, may_queue, is_task, progress_at, is_done_at, are_done, after_configure, after_schedule, after_win, after_withdraw, with_result};

use crate::changes;
use crate::edge_bytes::EdgeBytes;
use crate::planned::{planned_edges, planned_vertices};
use crate::seeing::{ask, configures_at};
use crate::vertex::VertexSchedule;
use std::alloc::{AllocError, Global};
use std::marker::Model;
use tez_conf::Conf;
use tez_ids::{EdgeId, TaskId, VertexId};
use tez_plan::Plan;
use tez_vman::Config;

/// What the master knows of the tasks of a plan's vertices, as far as it decides what is to be
/// configured and queued next. A plan has at most 64 vertices and 256 edges; no call takes memory
/// but `new`.
#[derive(Drop)]
pub struct Schedule {
    vertices: Vec<VertexSchedule>,
    edges: Vec<EdgeBytes>,
    greatest: Vec<u32>,
}

impl Model for Schedule {
    ghost use Rattle.tez_schedule.specs.State.{ScheduleState};
    ghost use Rattle.tez_schedule.specs.Kept.{IsKept};

    ghost Value = { ScheduleState };

    ghost view = { λ s. record { vertices = s.vertices.items; edges = s.edges.items; greatest = s.greatest.items } };

    ghost invariant = { λ s. IsKept (record { vertices = s.vertices.items; edges = s.edges.items; greatest = s.greatest.items }) };
}

impl Schedule {
    /// The schedule of a plan: no vertex is configured, nothing is scheduled, and nothing has a
    /// winner.
    pub fn new(alloc: Global, p: &Plan, c: &Conf) -> Result<Self, AllocError>
        ensures { IfOk result (λ s. s ≡ planned_schedule p.now c.now) }
    {
        Ok(Schedule {
            vertices: planned_vertices(alloc, p, c)?,
            edges: planned_edges(alloc, p)?,
            greatest: vec![in alloc; 0; p.vertices().len()]?,
        })
    }

    /// What a vertex is to be configured with now. None as long as it is not to be configured, once
    /// it is, and where there is no such vertex.
    pub fn configuration(&self, v: VertexId) -> Option<Config>
        ensures value { result ≡ configures_at self.now v.0 }
        ensures fits { IfSome result (λ c. can_configure self.now v.0 c ≡ true) }
    {
        configures_at(&self.vertices, &self.edges, v)
    }

    /// The first vertex that is to be configured. Takes time in the vertices and edges.
    pub fn next_configure(&self) -> Option<VertexId>
        ensures { option_map (λ v. v.0) result ≡ next_configure self.now }
    {
        for v in 0..self.vertices.len() as u16 {
            if self.configuration(VertexId(v)).is_some() {
                return Some(VertexId(v));
            }
        }
        None
    }

    /// The configuration of a vertex.
    pub fn config_of(&self, v: VertexId) -> Option<Config>
        ensures { result ≡ config_at self.now v.0 }
    {
        match self.vertices.get(v.0 as usize) {
            Some(x) => x.config(),
            None => None,
        }
    }

    /// Whether a vertex is there, is not configured, and has at least as many tasks in the plan as
    /// here, of which there is at least one.
    pub fn can_configure(&self, v: VertexId, config: Config) -> bool
        ensures { result ≡ can_configure self.now v.0 config }
    {
        match self.vertices.get(v.0 as usize) {
            Some(x) => x.can_have(config),
            None => false,
        }
    }

    /// The first task that may be queued, by vertex. Takes time in the vertices.
    pub fn next_queue(&self) -> Option<TaskId>
        ensures { result ≡ next_queue self.now }
    {
        for v in 0..self.vertices.len() as u16 {
            if let Some(t) = self.next_of(VertexId(v)) {
                return Some(t);
            }
        }
        None
    }

    // The first task of a vertex that may be queued.
    fn next_of(&self, v: VertexId) -> Option<TaskId>
        ensures { result ≡ next_at self.now v.0 }
    {
        match self.vertices.get(v.0 as usize) {
            Some(x) => match x.next_task(self.greatest[v.0 as usize]) {
                Some(index) => Some(TaskId { vertex: v, index }),
                None => None,
            },
            None => None,
        }
    }

    /// Whether a task may be queued now: it was not scheduled, and its source task has a winner
    /// where its vertex is fed one to one; else it is the first one, and there are more to schedule.
    pub fn may_queue(&self, t: TaskId) -> bool
        ensures { result ≡ may_queue self.now t }
    {
        match self.vertices.get(t.vertex.0 as usize) {
            Some(x) => x.may_queue(self.greatest[t.vertex.0 as usize], t.index),
            None => false,
        }
    }

    /// Whether a task is one of a configured vertex.
    pub fn is_task(&self, t: TaskId) -> bool
        ensures { result ≡ is_task self.now t }
    {
        match self.vertices.get(t.vertex.0 as usize) {
            Some(x) => x.has_task(t.index),
            None => false,
        }
    }

    /// How many tasks of a vertex have a winner, and how many there are. Both are 0 as long as it is
    /// not configured, and where there is no such vertex.
    pub fn progress(&self, v: VertexId) -> (u32, u32)
        ensures { result ≡ progress_at self.now v.0 }
    {
        match self.vertices.get(v.0 as usize) {
            Some(x) => x.progress(),
            None => (0, 0),
        }
    }

    /// Whether a vertex is configured and each of its tasks has a winner.
    pub fn is_done(&self, v: VertexId) -> bool
        ensures { result ≡ is_done_at self.now v.0 }
    {
        match self.vertices.get(v.0 as usize) {
            Some(x) => x.is_done(),
            None => false,
        }
    }

    /// Whether each vertex is configured and each task has a winner.
    pub fn are_done(&self) -> bool
        ensures { result ≡ are_done self.now }
    {
        self.vertices.iter().all(|x| x.is_done())
    }

    /// A vertex is configured. Takes time in its planned tasks, the vertices and the edges.
    pub fn configure(&mut self, v: VertexId, config: Config)
        // `can_configure` is the test of this, and what `configuration` answers passes it.
        requires { can_configure self.old v.0 config ≡ true }
        ensures { self.new ≡ after_configure self.old v.0 config }
    {
        changes::configure(&mut self.vertices, v, config);
        ask(&self.vertices, &self.edges, &mut self.greatest);
    }

    /// A task was queued, or kept from an earlier master. Changes nothing where there is no such
    /// task. Takes logarithmic time in the tasks of its vertex.
    pub fn schedule(&mut self, t: TaskId)
        ensures { self.new ≡ after_schedule self.old t }
    {
        changes::schedule(&mut self.vertices, t);
    }

    /// A task has a winner, which made so many bytes for each edge. An edge that is not named got
    /// none, and of two words for an edge the last counts. Takes time in the vertices and edges, and
    /// logarithmic time in the tasks of the vertices that are fed one to one.
    pub fn win(&mut self, t: TaskId, made: &[(EdgeId, u64)])
        // `is_task` is the test of this.
        requires { is_task self.old t ≡ true }
        ensures { self.new ≡ after_win self.old t made.now }
    {
        self.set_result(t, true, made);
    }

    /// A task has no winner any more, and what it made does not count. Takes as long as `win`.
    pub fn withdraw(&mut self, t: TaskId)
        ensures { self.new ≡ after_withdraw self.old t }
    {
        self.set_result(t, false, &[]);
    }

    fn set_result(&mut self, t: TaskId, has: bool, made: &[(EdgeId, u64)])
        requires { has ≡ true → is_task self.old t ≡ true }
        ensures { self.new ≡ with_result self.old t has made.now }
    {
        changes::set_winner(&mut self.vertices, t, has);
        changes::set_made(&mut self.edges, t, made);
        ask(&self.vertices, &self.edges, &mut self.greatest);
    }
}
