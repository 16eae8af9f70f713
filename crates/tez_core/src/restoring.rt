//! What a new master takes over from those before it, one thing after another.
ghost use Rattle.std.specs.Prelude.{◌≡◌, true, None, Some, OnOk, OnErr, IfSome};
ghost use Rattle.tez_vertex.specs.Table.{IsFresh, task_of, after_restore};
ghost use Rattle.tez_router.specs.Configure.{CanConfigure};
ghost use Rattle.tez_schedule.specs.Table.{can_configure};
ghost use Rattle.tez_master_model.specs.Vertices.{carry_one, failures_in, keep_one};
ghost use Rattle.tez_master_model.specs.Read.{task_in};
ghost use Rattle.tez_master_model.specs.Settled.{with_config};
ghost use Rattle.tez_core.specs.Parts.{task_at};
ghost use Rattle.tez_master_model.specs.Recovery.{carried, kept, committed, IsNew, CanBeKept};

use crate::kept_winner::Kept;
use crate::locations::set_location;
use crate::new_tasks::{new_tasks, set_tasks};
use crate::parts::Core;
use std::alloc::{AllocError, Global};
use tez_ids::{AttemptId, TaskId, VertexId};
use tez_vertex::VertexMachine;
use tez_vman::Config;

impl Core {
    /// A vertex has the tasks again that an earlier master gave it, and the edges at it get managers of
    /// so many. Changes nothing where there is no memory. Takes time in the tasks and in the edges.
    pub fn stand(&mut self, alloc: Global, v: VertexId, config: Config) -> Result<(), AllocError>
        requires edges { CanConfigure self.old.router v.0 config }
        requires tasks { can_configure self.old.schedule v.0 config ≡ true }
        ensures stood { OnOk result (self.new ≡ with_config self.old v.0 config) }
        ensures refused { OnErr result (self.new ≡ self.old) }
    {
        let tasks = new_tasks(alloc, &self.vertices, v, config.tasks)?;
        set_tasks(&mut self.vertices, v, tasks, config.tasks);
        self.router.configure(v, config);
        self.schedule.configure(v, config);
        Ok(())
    }

    /// So many attempts of a task failed under earlier masters. To be called before its first attempt
    /// is queued, and before its winner is kept. Changes nothing where there is no such task.
    pub fn carry(&mut self, t: TaskId, failures: u32)
        requires { IfSome (task_in self.old t) (IsFresh failures) }
        ensures { self.new ≡ carried self.old (t, failures) }
    {
        carry(&mut self.vertices, t, failures);
    }

    /// A winner of an earlier master is kept: its task counts as scheduled and done, and its pieces lie
    /// where they lay. Takes the time of `done`.
    pub fn keep(&mut self, k: &Kept)
        requires { CanBeKept self.old k.now }
        ensures { self.new ≡ kept self.old k.now }
    {
        let a = k.attempt();
        keep(&mut self.vertices, a);
        self.router.announce(a);
        self.schedule.schedule(a.task);
        self.schedule.win(a.task, k.made());
        set_location(&mut self.locations, a.task, k.slot());
    }

    /// The commit that an earlier master started is taken up, with so many sinks recorded.
    pub fn take_up(&mut self, recorded: u32)
        ensures { self.new ≡ committed self.old recorded }
    {
        self.recorded = recorded;
        self.committing = true;
        self.found = true;
    }
}

fn carry(vertices: &mut [VertexMachine], t: TaskId, failures: u32)
    requires { IfSome (task_at vertices.old t) (IsFresh failures) }
    ensures { vertices.new ≡ carry_one vertices.old (t, failures) }
{
    let v = t.vertex.0 as usize;
    if v < vertices.len() {
        carry_at(&mut vertices[v], t.index, failures);
    }
}

fn carry_at(x: &mut VertexMachine, index: u32, failures: u32)
    requires { IfSome (task_of x.old index) (IsFresh failures) }
    ensures { x.new ≡ after_restore x.old index failures None }
{
    if index < x.tasks() {
        x.restore(index, failures, None);
    }
}

fn keep(vertices: &mut [VertexMachine], a: AttemptId)
    requires { IfSome (task_at vertices.old a.task) IsNew }
    ensures { vertices.new ≡ keep_one vertices.old a }
{
    let v = a.task.vertex.0 as usize;
    if v < vertices.len() {
        keep_at(&mut vertices[v], a.task.index, a);
    }
}

// With the failures that the task has.
fn keep_at(x: &mut VertexMachine, index: u32, a: AttemptId)
    requires { IfSome (task_of x.old index) IsNew }
    ensures { x.new ≡ after_restore x.old index (failures_in x.old index) (Some a) }
{
    if index < x.tasks() {
        let failures = x.failures(index);
        x.restore(index, failures, Some(a));
    }
}
