//! What each event makes of the parts.
ghost use Rattle.std.specs.Prelude.{◌≡◌, ◌<◌, ◌+◌, ◌^◌, true, false, length, slice_get, is_some, IfSome, None};
ghost use Rattle.tez_ids.specs.declared.VertexId.{VertexId};
ghost use Rattle.tez_events.specs.declared.CoreEvent.{CoreEvent};
ghost use Rattle.tez_task.specs.TaskState.{HasRoom};
ghost use Rattle.tez_task.specs.declared.TaskEvent.{TaskEvent};
ghost use Rattle.tez_schedule.specs.Table.{is_task};
ghost use Rattle.tez_master_model.specs.Read.{task_in, source_in, next_sink, is_next};
ghost use Rattle.tez_master_model.specs.Settled.{settled, killed, without_node, withdrawn, unreadied, with_location, released, after_fetch, after_done, after_asked, one_recorded, slot_in};

use crate::flags::{clear_all, set_flag};
use crate::locations::{drop_slot, set_location};
use crate::parts::Core;
use crate::tasks::take;
use tez_ids::{AttemptId, EdgeId, TaskId, VertexId};
use tez_task::TaskEvent;

impl Core {
    /// A task gets its first attempt.
    pub fn queue(&mut self, t: TaskId)
        requires room { IfSome (task_in self.old t) HasRoom }
        ensures { self.new ≡ settled self.old (CoreEvent.Queue t) }
    {
        take(&mut self.vertices, t, TaskEvent::Queue);
        self.schedule.schedule(t);
    }

    /// A waiting attempt fetches an input. Where the pieces are on no shelf the winner that made
    /// them is withdrawn.
    pub fn fetch(&mut self, a: AttemptId, e: EdgeId, input: u32)
        requires room { IfSome (source_in self.old a e.0 input) (λ w. IfSome (task_in self.old w.task) HasRoom) }
        ensures { self.new ≡ settled self.old (CoreEvent.Fetch a e input) }
    {
        match self.source_of(a, e, input) {
            Some(w) => self.fetch_from(a, e, input, w),
            None => {}
        }
    }

    fn fetch_from(&mut self, a: AttemptId, e: EdgeId, input: u32, w: AttemptId)
        requires room { IfSome (task_in self.old w.task) HasRoom }
        ensures { self.new ≡ after_fetch self.old a e.0 input (Some w) }
    {
        if self.is_on_shelf(w) {
            self.router.fetched(a, e, input, w);
        } else {
            self.withdraw(w);
        }
    }

    /// An attempt that holds a place of a lost node is killed. The place is freed with the node.
    pub fn kill(&mut self, a: AttemptId)
        requires room { IfSome (task_in self.old a.task) HasRoom }
        ensures { self.new ≡ killed self.old a }
    {
        take(&mut self.vertices, a.task, TaskEvent::Kill(a));
        self.router.dismiss(a);
    }

    /// The places of a lost node are free with new containers, and no pieces lie there. Takes time in
    /// the planned tasks and the places of the node.
    pub fn drop_node(&mut self, slot: u16)
        requires slot { slot < length self.old.pool.lives }
        requires life { IfSome (slice_get self.old.pool.lives slot) (λ life. life + 1 < 2 ^ 64) }
        requires containers { self.old.pool.next < 2 ^ 127 }
        ensures { self.new ≡ without_node self.old slot }
    {
        self.pool.lose_node(slot);
        drop_slot(&mut self.locations, slot);
    }

    /// A winner is withdrawn: its task gets another attempt, and no sink counts as put aside.
    pub fn withdraw(&mut self, w: AttemptId)
        requires room { IfSome (task_in self.old w.task) HasRoom }
        ensures { self.new ≡ withdrawn self.old w }
    {
        take(&mut self.vertices, w.task, TaskEvent::Lose(w));
        self.router.withdraw(w.task);
        self.schedule.withdraw(w.task);
        set_location(&mut self.locations, w.task, None);
        clear_all(&mut self.readied);
    }

    /// The order of a waiting attempt goes out.
    pub fn send(&mut self, a: AttemptId)
        requires room { IfSome (task_in self.old a.task) HasRoom }
        ensures { self.new ≡ settled self.old (CoreEvent.Send a) }
    {
        take(&mut self.vertices, a.task, TaskEvent::Send(a));
        self.pool.sent(a);
        self.router.dismiss(a);
    }

    /// A waiting attempt is killed, and its place is free.
    pub fn preempt(&mut self, a: AttemptId)
        requires room { IfSome (task_in self.old a.task) HasRoom }
        requires containers { self.old.pool.next < 2 ^ 127 }
        ensures { self.new ≡ settled self.old (CoreEvent.Preempt a) }
    {
        self.release(a, TaskEvent::Kill(a));
    }

    /// An attempt fails, and its place is free.
    pub fn fail(&mut self, a: AttemptId)
        requires room { IfSome (task_in self.old a.task) HasRoom }
        requires containers { self.old.pool.next < 2 ^ 127 }
        ensures { self.new ≡ settled self.old (CoreEvent.Fail a) }
    {
        self.release(a, TaskEvent::Fail(a));
    }

    fn release(&mut self, a: AttemptId, e: TaskEvent)
        requires room { IfSome (task_in self.old a.task) HasRoom }
        requires containers { self.old.pool.next < 2 ^ 127 }
        ensures { self.new ≡ released self.old a e }
    {
        take(&mut self.vertices, a.task, e);
        self.pool.release(a);
        self.router.dismiss(a);
    }

    /// An attempt that processes has succeeded, and its pieces have so many bytes on these edges.
    pub fn done(&mut self, a: AttemptId, made: &[(EdgeId, u64)])
        requires room { IfSome (task_in self.old a.task) HasRoom }
        requires containers { self.old.pool.next < 2 ^ 127 }
        requires known { is_task self.old.schedule a.task ≡ true }
        ensures { self.new ≡ after_done self.old a made.now }
    {
        let slot = self.slot_of(a);
        take(&mut self.vertices, a.task, TaskEvent::Succeed(a));
        self.pool.release(a);
        self.router.announce(a);
        self.schedule.win(a.task, made);
        set_location(&mut self.locations, a.task, slot);
    }

    // The node slot of the place of an attempt.
    fn slot_of(&self, a: AttemptId) -> Option<u16>
        ensures { result ≡ slot_in self.now a }
    {
        match self.pool.place_of(a) {
            Some((place, _)) => Some(self.pool.node_of(place).slot),
            None => None,
        }
    }

    /// The output of a task's winner is lost.
    pub fn lose_output(&mut self, t: TaskId)
        ensures { self.new ≡ settled self.old (CoreEvent.LoseOutput t) }
    {
        set_location(&mut self.locations, t, None);
    }

    /// The text of a sink is put aside.
    pub fn ready(&mut self, v: VertexId)
        ensures { self.new ≡ settled self.old (CoreEvent.Ready v) }
    {
        set_flag(&mut self.readied, v);
    }

    /// The commit begins.
    pub fn start_commit(&mut self)
        ensures { self.new ≡ settled self.old CoreEvent.CommitStart }
    {
        self.committing = true;
    }

    /// The store was asked of the sink that is recorded next. Where its text is there already the sink
    /// is recorded, else it is to be published.
    #[tactic(auto, using(crate::proofs::NextSink::next_there))]
    pub fn asked(&mut self, v: VertexId, there: bool)
        requires next { is_next self.old v.0 ≡ true }
        ensures { self.new ≡ after_asked self.old v.0 there }
    {
        if there {
            self.record_next();
        } else {
            self.not_there(v);
        }
    }

    fn not_there(&mut self, v: VertexId)
        ensures { self.new ≡ after_asked self.old v.0 false }
    {
        set_flag(&mut self.asked, v);
    }

    /// The text of a sink is published, and the sink is recorded.
    #[tactic(auto, using(crate::proofs::NextSink::next_there))]
    pub fn publish(&mut self, v: VertexId)
        requires next { is_next self.old v.0 ≡ true }
        ensures { self.new ≡ settled self.old (CoreEvent.Publish v) }
    {
        self.record_next();
    }

    // A plan has at most 64 sinks.
    #[tactic(auto, using(crate::proofs::NextSink::few_recorded))]
    fn record_next(&mut self)
        requires { is_some (next_sink self.old) ≡ true }
        ensures { self.new ≡ one_recorded self.old }
    {
        let _few = self.vertices();
        self.recorded += 1;
    }

    /// The job finishes.
    pub fn finish(&mut self)
        ensures { self.new ≡ settled self.old CoreEvent.Finish }
    {
        self.finished = true;
    }

    /// What is left over is purged, and the master is up no more.
    pub fn purge(&mut self)
        ensures { self.new ≡ settled self.old CoreEvent.Purge }
    {
        self.up = false;
    }
}
