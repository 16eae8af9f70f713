//! Which events may come, and why another one may not.
ghost use Rattle.std.specs.Prelude.{◌≡◌};
ghost use Rattle.tez_events.specs.declared.CoreEvent.{CoreEvent};
ghost use Rattle.tez_master_model.specs.Read.{is_shallower_queued, depth_in};
ghost use Rattle.tez_master_model.specs.Enabled.{enabled_in, why_not};

use crate::parts::Lead;
use tez_events::CoreEvent;
use tez_ids::AttemptId;
use tez_master_model::Why;

impl Lead {
    /// Whether an event may come now. To open, to restart and to ask the store is not the master's.
    /// Takes time in the vertices and edges.
    pub fn is_enabled(&self, e: &CoreEvent) -> bool
        ensures { result ≡ enabled_in self.now e.now }
    {
        match *e {
            CoreEvent::Open => false,
            CoreEvent::Configure(v) => self.core.may_configure(v),
            CoreEvent::Queue(t) => self.core.may_queue(t),
            CoreEvent::Place(a, place) => self.core.may_place(a, place),
            CoreEvent::Fetch(a, e, input) => self.core.may_fetch(a, e, input),
            CoreEvent::Send(a) => self.core.may_send(a),
            CoreEvent::Preempt(a) => self.may_preempt(a),
            CoreEvent::Fail(a) => self.core.may_fail(a),
            CoreEvent::LoseNode(slot) => self.core.may_lose_node(slot),
            CoreEvent::LoseOutput(t) => self.core.may_lose_output(t),
            CoreEvent::Restart => false,
            CoreEvent::Ready(v) => self.core.may_ready(v),
            CoreEvent::CommitStart => self.core.may_start_commit(),
            CoreEvent::Ask(_) => false,
            CoreEvent::Publish(v) => self.core.may_publish(v),
            CoreEvent::Finish => self.core.may_finish(),
            CoreEvent::Purge => self.core.may_purge(),
        }
    }

    /// Whether a waiting attempt may give up its place: no place is free, and a queued attempt has a
    /// lesser depth.
    pub fn may_preempt(&self, a: AttemptId) -> bool
        ensures { result ≡ enabled_in self.now (CoreEvent.Preempt a) }
    {
        self.core.is_running()
            && self.core.waits(a)
            && self.core.free_place().is_none()
            && self.is_shallower_queued(a)
    }

    fn is_shallower_queued(&self, a: AttemptId) -> bool
        ensures { result ≡ is_shallower_queued self.now (depth_in self.now a) }
    {
        let _valid = self.core.vertices();
        match self.first_queued() {
            Some(b) => { self.core.depth_of(b.task.vertex) < self.core.depth_of(a.task.vertex) }
            None => false,
        }
    }

    /// Why an event is ignored that may not come.
    pub fn why_not(&self, e: &CoreEvent) -> Why
        ensures { result ≡ why_not self.now e.now }
    {
        self.core.why_not(e)
    }
}
