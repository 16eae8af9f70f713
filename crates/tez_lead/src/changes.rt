//! What each event makes of the parts, with the queue.
ghost use Rattle.std.specs.Prelude.{◌≡◌, ◌<◌, ◌+◌, ◌^◌, true, length, slice_get, is_some, IfSome, None};
ghost use Rattle.tez_events.specs.declared.CoreEvent.{CoreEvent};
ghost use Rattle.tez_task.specs.TaskState.{HasRoom};
ghost use Rattle.tez_pool.specs.Table.{place_held};
ghost use Rattle.tez_schedule.specs.Table.{is_task};
ghost use Rattle.tez_queue.specs.Queue.{with_task};
ghost use Rattle.tez_master_model.specs.Read.{task_in, source_in, is_queued, is_next};
ghost use Rattle.tez_master_model.specs.Settled.{settled, killed, without_node, withdrawn, after_done, after_asked};
ghost use Rattle.tez_master_model.specs.Steady.{CanHaveConfig};
ghost use Rattle.tez_core.specs.Choosing.{queued_at};
ghost use Rattle.tez_core.specs.Prepared.{IsPreparedFor, IsAdmissionFor};

use crate::parts::Lead;
use tez_core::{Core, NewConfig};
use tez_ids::{AttemptId, EdgeId, TaskId, VertexId};
use tez_queue::TaskQueue;
use tez_router::Admission;

/// The queue at a task that may have changed.
pub(crate) fn refresh(core: &Core, queue: &mut TaskQueue, t: TaskId)
    ensures { queue.new ≡ with_task queue.old t (is_some (queued_at core.now.vertices t)) }
{
    if core.queued_of(t).is_some() {
        queue.put(t);
    } else {
        queue.remove(t);
    }
}

impl Lead {
    /// A task gets its first attempt.
    pub fn queue(&mut self, t: TaskId)
        requires room { IfSome (task_in self.old t) HasRoom }
        ensures { self.new ≡ settled self.old (CoreEvent.Queue t) }
    {
        self.core.queue(t);
        refresh(&self.core, &mut self.queue, t);
    }

    /// Configures a vertex, with what `prepare_configure` of the parts gave. Takes no memory, and time
    /// in the edges, for each edge at the vertex also in the attempts that wait.
    pub fn configure_prepared(&mut self, v: VertexId, x: NewConfig)
        requires prepared { IsPreparedFor self.old v x }
        requires can { CanHaveConfig self.old v.0 }
        ensures { self.new ≡ settled self.old (CoreEvent.Configure v) }
    {
        let _fits = self.core.configuration(v);
        self.core.configure_prepared(x);
    }

    /// A queued attempt takes a place, with what `prepare_place` of the parts gave. Takes no memory.
    pub fn place_prepared(&mut self, a: AttemptId, place: u32, x: Admission)
        requires prepared { IsAdmissionFor self.old a x }
        requires room { IfSome (task_in self.old a.task) HasRoom }
        requires absent { place_held self.old.pool.places a ≡ None }
        requires queued { is_queued self.old a ≡ true }
        ensures { self.new ≡ settled self.old (CoreEvent.Place a place) }
    {
        self.core.place_prepared(a, place, x);
        refresh(&self.core, &mut self.queue, a.task);
    }

    /// A waiting attempt fetches an input. Where the pieces are on no shelf the winner that made
    /// them is withdrawn.
    pub fn fetch(&mut self, a: AttemptId, e: EdgeId, input: u32)
        requires room { IfSome (source_in self.old a e.0 input) (λ w. IfSome (task_in self.old w.task) HasRoom) }
        ensures { self.new ≡ settled self.old (CoreEvent.Fetch a e input) }
    {
        if let Some(w) = self.core.source_of(a, e, input) {
            self.core.fetch(a, e, input);
            refresh(&self.core, &mut self.queue, w.task);
        }
    }

    /// An attempt that holds a place of a lost node is killed. The place is freed with the node.
    pub fn kill(&mut self, a: AttemptId)
        requires room { IfSome (task_in self.old a.task) HasRoom }
        ensures { self.new ≡ killed self.old a }
    {
        self.core.kill(a);
        refresh(&self.core, &mut self.queue, a.task);
    }

    /// The places of a lost node are free with new containers, and no pieces lie there. Takes time in
    /// the planned tasks and the places of the node.
    pub fn drop_node(&mut self, slot: u16)
        requires slot { slot < length self.old.pool.lives }
        requires life { IfSome (slice_get self.old.pool.lives slot) (λ life. life + 1 < 2 ^ 64) }
        requires containers { self.old.pool.next < 2 ^ 127 }
        ensures { self.new ≡ without_node self.old slot }
    {
        self.core.drop_node(slot);
    }

    /// A winner is withdrawn: its task gets another attempt, and no sink counts as put aside.
    pub fn withdraw(&mut self, w: AttemptId)
        requires room { IfSome (task_in self.old w.task) HasRoom }
        ensures { self.new ≡ withdrawn self.old w }
    {
        self.core.withdraw(w);
        refresh(&self.core, &mut self.queue, w.task);
    }

    /// The order of a waiting attempt goes out.
    pub fn send(&mut self, a: AttemptId)
        requires room { IfSome (task_in self.old a.task) HasRoom }
        ensures { self.new ≡ settled self.old (CoreEvent.Send a) }
    {
        self.core.send(a);
        refresh(&self.core, &mut self.queue, a.task);
    }

    /// A waiting attempt is killed, and its place is free.
    pub fn preempt(&mut self, a: AttemptId)
        requires room { IfSome (task_in self.old a.task) HasRoom }
        requires containers { self.old.pool.next < 2 ^ 127 }
        ensures { self.new ≡ settled self.old (CoreEvent.Preempt a) }
    {
        self.core.preempt(a);
        refresh(&self.core, &mut self.queue, a.task);
    }

    /// An attempt fails, and its place is free.
    pub fn fail(&mut self, a: AttemptId)
        requires room { IfSome (task_in self.old a.task) HasRoom }
        requires containers { self.old.pool.next < 2 ^ 127 }
        ensures { self.new ≡ settled self.old (CoreEvent.Fail a) }
    {
        self.core.fail(a);
        refresh(&self.core, &mut self.queue, a.task);
    }

    /// An attempt that processes has succeeded, and its pieces have so many bytes on these edges.
    pub fn done(&mut self, a: AttemptId, made: &[(EdgeId, u64)])
        requires room { IfSome (task_in self.old a.task) HasRoom }
        requires containers { self.old.pool.next < 2 ^ 127 }
        requires known { is_task self.old.schedule a.task ≡ true }
        ensures { self.new ≡ after_done self.old a made.now }
    {
        self.core.done(a, made);
        refresh(&self.core, &mut self.queue, a.task);
    }

    /// The output of a task's winner is lost.
    pub fn lose_output(&mut self, t: TaskId)
        ensures { self.new ≡ settled self.old (CoreEvent.LoseOutput t) }
    {
        self.core.lose_output(t);
    }

    /// The text of a sink is put aside.
    pub fn ready(&mut self, v: VertexId)
        ensures { self.new ≡ settled self.old (CoreEvent.Ready v) }
    {
        self.core.ready(v);
    }

    /// The commit begins.
    pub fn start_commit(&mut self)
        ensures { self.new ≡ settled self.old CoreEvent.CommitStart }
    {
        self.core.start_commit();
    }

    /// The store was asked of the sink that is recorded next. Where its text is there already the sink
    /// is recorded, else it is to be published.
    pub fn asked(&mut self, v: VertexId, there: bool)
        requires next { is_next self.old v.0 ≡ true }
        ensures { self.new ≡ after_asked self.old v.0 there }
    {
        self.core.asked(v, there);
    }

    /// The text of a sink is published, and the sink is recorded.
    pub fn publish(&mut self, v: VertexId)
        requires next { is_next self.old v.0 ≡ true }
        ensures { self.new ≡ settled self.old (CoreEvent.Publish v) }
    {
        self.core.publish(v);
    }

    /// The job finishes.
    pub fn finish(&mut self)
        ensures { self.new ≡ settled self.old CoreEvent.Finish }
    {
        self.core.finish();
    }

    /// What is left over is purged, and the master is up no more.
    pub fn purge(&mut self)
        ensures { self.new ≡ settled self.old CoreEvent.Purge }
    {
        self.core.purge();
    }
}
