//! Changes in two halves: the first takes all memory and changes nothing, the second takes none.
ghost use Rattle.std.specs.Prelude.{◌≡◌, None, IfOk, IfSome};
ghost use Rattle.tez_events.specs.declared.CoreEvent.{CoreEvent};
ghost use Rattle.tez_task.specs.TaskState.{HasRoom};
ghost use Rattle.tez_pool.specs.Table.{place_held};
ghost use Rattle.tez_master_model.specs.Read.{task_in};
ghost use Rattle.tez_master_model.specs.Settled.{settled};
ghost use Rattle.tez_master_model.specs.Steady.{CanHaveConfig};
ghost use Rattle.tez_core.specs.Prepared.{tasks_for, IsPreparedFor, IsAdmissionFor};

use crate::new_tasks::{new_tasks, set_tasks};
use crate::parts::Core;
use crate::tasks::take;
use std::alloc::{AllocError, Global};
use std::marker::Model;
use tez_ids::{AttemptId, VertexId};
use tez_router::Admission;
use tez_task::TaskEvent;
use tez_vertex::NewTasks;

/// What configuring a vertex takes: its tasks.
#[derive(Drop)]
pub struct NewConfig {
    vertex: VertexId,
    tasks: Option<NewTasks>,
}

impl Model for NewConfig {
    ghost use Rattle.tez_core.specs.Prepared.{NewConfigState};

    ghost Value = { NewConfigState };

    ghost view = { λ x. record { vertex = x.vertex; tasks = x.tasks } };
}

impl Core {
    /// What configuring a vertex takes, for `configure_prepared`. Good as long as the master does not
    /// change. Takes time in the tasks that the vertex gets.
    pub fn prepare_configure(&self, alloc: Global, v: VertexId) -> Result<NewConfig, AllocError>
        ensures { IfOk result (λ x. IsPreparedFor self.now v x) }
    {
        let tasks = self.tasks_for(alloc, v)?;
        Ok(NewConfig { vertex: v, tasks })
    }

    fn tasks_for(&self, alloc: Global, v: VertexId) -> Result<Option<NewTasks>, AllocError>
        ensures { IfOk result (λ x. x ≡ tasks_for self.now v.0) }
    {
        match self.configuration(v) {
            Some(config) => new_tasks(alloc, &self.vertices, v, config.tasks),
            None => Ok(None),
        }
    }

    /// Configures a vertex. Takes no memory, and time in the edges, for each edge at the vertex also in
    /// the attempts that wait.
    pub fn configure_prepared(&mut self, x: NewConfig)
        requires prepared { IsPreparedFor self.old x.vertex x }
        requires can { CanHaveConfig self.old x.vertex.0 }
        ensures { self.new ≡ settled self.old (CoreEvent.Configure x.vertex) }
    {
        if let Some(config) = self.configuration(x.vertex) {
            set_tasks(&mut self.vertices, x.vertex, x.tasks, config.tasks);
            self.router.configure(x.vertex, config);
            self.schedule.configure(x.vertex, config);
        }
    }

    /// What placing an attempt takes, for `place_prepared`: the room that its fetches need. Good as long
    /// as the master does not change.
    pub fn prepare_place(&self, alloc: Global, a: AttemptId) -> Result<Admission, AllocError>
        ensures { IfOk result (λ x. IsAdmissionFor self.now a x) }
    {
        self.router.admission(alloc, a)
    }

    /// A queued attempt takes a place. Takes no memory, and time in the attempts that wait.
    pub fn place_prepared(&mut self, a: AttemptId, place: u32, x: Admission)
        requires prepared { IsAdmissionFor self.old a x }
        requires room { IfSome (task_in self.old a.task) HasRoom }
        requires absent { place_held self.old.pool.places a ≡ None }
        ensures { self.new ≡ settled self.old (CoreEvent.Place a place) }
    {
        self.router.admit_prepared(x);
        take(&mut self.vertices, a.task, TaskEvent::Place(a));
        let _container = self.pool.place(a, place);
    }
}
