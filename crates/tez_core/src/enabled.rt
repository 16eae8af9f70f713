//! Which events may come, and why another one may not.
ghost use Rattle.std.specs.Prelude.{◌≡◌, ◌||◌, not};
ghost use Rattle.tez_events.specs.declared.CoreEvent.{CoreEvent};
ghost use Rattle.tez_master_model.specs.Read.{flag};
ghost use Rattle.tez_master_model.specs.Enabled.{enabled_in, is_lost, may_ask, may_ready_in, may_publish_in, or_not_enabled, why_not};

use crate::parts::Core;
use crate::sinks::flag;
use tez_events::CoreEvent;
use tez_ids::{AttemptId, EdgeId, TaskId, VertexId};
use tez_master_model::Why;

// An attempt that is there is no ground of its own.
fn or_not_enabled(why: Option<Why>) -> Why
    ensures { result ≡ or_not_enabled why }
{
    match why {
        None => Why::NotEnabled,
        Some(Why::Over) => Why::NotEnabled,
        Some(Why::Down) => Why::NotEnabled,
        Some(Why::OldEpoch) => Why::OldEpoch,
        Some(Why::UnknownAttempt) => Why::UnknownAttempt,
        Some(Why::AttemptEnded) => Why::AttemptEnded,
        Some(Why::Stranger) => Why::NotEnabled,
        Some(Why::NotEnabled) => Why::NotEnabled,
    }
}

impl Core {
    /// Whether a vertex may be configured now.
    pub fn may_configure(&self, v: VertexId) -> bool
        ensures { result ≡ enabled_in self.now (CoreEvent.Configure v) }
    {
        self.is_running() && self.schedule.configuration(v).is_some()
    }

    /// Whether a task may get its first attempt now.
    pub fn may_queue(&self, t: TaskId) -> bool
        ensures { result ≡ enabled_in self.now (CoreEvent.Queue t) }
    {
        self.is_running() && self.schedule.may_queue(t)
    }

    /// Whether an attempt may take a place now: it is queued, and the place is free.
    pub fn may_place(&self, a: AttemptId, place: u32) -> bool
        ensures { result ≡ enabled_in self.now (CoreEvent.Place a place) }
    {
        self.is_running() && self.is_queued(a) && self.is_free_place(place)
    }

    /// Whether an attempt may fetch an input now: it waits, has not fetched it, and a winner is
    /// behind it.
    pub fn may_fetch(&self, a: AttemptId, e: EdgeId, input: u32) -> bool
        ensures { result ≡ enabled_in self.now (CoreEvent.Fetch a e input) }
    {
        self.is_running()
            && self.waits(a)
            && !self.router.is_fetched(a, e, input)
            && self.source_of(a, e, input).is_some()
    }

    /// Whether the order of an attempt may go out: it waits, and misses no input.
    pub fn may_send(&self, a: AttemptId) -> bool
        ensures { result ≡ enabled_in self.now (CoreEvent.Send a) }
    {
        self.is_running() && self.waits(a) && self.router.missing(a) == 0
    }

    /// Whether an attempt may fail: its order is out.
    pub fn may_fail(&self, a: AttemptId) -> bool
        ensures { result ≡ enabled_in self.now (CoreEvent.Fail a) }
    {
        self.is_running() && self.processes(a)
    }

    /// Whether the node of a slot may be lost.
    pub fn may_lose_node(&self, slot: u16) -> bool
        ensures { result ≡ enabled_in self.now (CoreEvent.LoseNode slot) }
    {
        self.up && slot < self.conf.nodes()
    }

    /// Whether the output of a task's winner may be lost: it is on a shelf.
    pub fn may_lose_output(&self, t: TaskId) -> bool
        ensures { result ≡ enabled_in self.now (CoreEvent.LoseOutput t) }
    {
        self.up && self.is_lost(self.winner_of(t))
    }

    fn is_lost(&self, winner: Option<AttemptId>) -> bool
        ensures { result ≡ is_lost self.now winner }
    {
        match winner {
            Some(w) => self.is_on_shelf(w),
            None => false,
        }
    }

    /// Whether the text of a sink may be put aside: all is done, and it is the first that is not. In a
    /// commit that an earlier master started it is the sink to be recorded next, and the store was
    /// asked of it.
    pub fn may_ready(&self, v: VertexId) -> bool
        ensures { result ≡ enabled_in self.now (CoreEvent.Ready v) }
    {
        self.is_running() && self.are_done() && self.is_to_ready(v)
    }

    fn is_to_ready(&self, v: VertexId) -> bool
        ensures { result ≡ may_ready_in self.now v.0 }
    {
        if self.found {
            self.is_next(v) && flag(&self.asked, v) && !flag(&self.readied, v)
        } else {
            !self.committing && self.is_first_unreadied(v)
        }
    }

    /// Whether the store may be asked of a sink: it is to be recorded next in a commit that an earlier
    /// master started, and was not asked of it.
    pub fn may_ask(&self, v: VertexId) -> bool
        ensures { result ≡ may_ask self.now v.0 }
    {
        self.is_running() && self.found && self.is_next(v) && !flag(&self.asked, v)
    }

    /// Whether the commit may begin: every sink's text is put aside.
    pub fn may_start_commit(&self) -> bool
        ensures { result ≡ enabled_in self.now CoreEvent.CommitStart }
    {
        self.is_running() && !self.committing && self.are_all_readied()
    }

    /// Whether the text of a sink may be published: it is the first that is not recorded. In a commit
    /// that an earlier master started it has to be put aside first.
    pub fn may_publish(&self, v: VertexId) -> bool
        ensures { result ≡ enabled_in self.now (CoreEvent.Publish v) }
    {
        self.is_running() && self.is_to_publish(v)
    }

    fn is_to_publish(&self, v: VertexId) -> bool
        ensures { result ≡ may_publish_in self.now v.0 }
    {
        self.committing && self.is_next(v) && self.is_put_aside(v)
    }

    // In a commit of its own a master put every sink's text aside before it began.
    pub(crate) fn is_put_aside(&self, v: VertexId) -> bool
        ensures { result ≡ (not self.now.found || flag self.now.readied v.0) }
    {
        !self.found || flag(&self.readied, v)
    }

    /// Whether the job may finish: every sink is recorded.
    pub fn may_finish(&self) -> bool
        ensures { result ≡ enabled_in self.now CoreEvent.Finish }
    {
        self.is_running() && self.committing && self.are_all_recorded()
    }

    /// Whether what is left over may be purged: the job is finished.
    pub fn may_purge(&self) -> bool
        ensures { result ≡ enabled_in self.now CoreEvent.Purge }
    {
        self.up && self.finished
    }

    /// Why an event is ignored that may not come.
    pub fn why_not(&self, e: &CoreEvent) -> Why
        ensures { result ≡ why_not self.now e.now }
    {
        match *e {
            CoreEvent::Open => Why::NotEnabled,
            CoreEvent::Configure(_) => Why::NotEnabled,
            CoreEvent::Queue(_) => Why::NotEnabled,
            CoreEvent::Place(a, _) => or_not_enabled(self.why(a)),
            CoreEvent::Fetch(a, _, _) => or_not_enabled(self.why(a)),
            CoreEvent::Send(a) => or_not_enabled(self.why(a)),
            CoreEvent::Preempt(a) => or_not_enabled(self.why(a)),
            CoreEvent::Fail(a) => or_not_enabled(self.why(a)),
            CoreEvent::LoseNode(_) => Why::NotEnabled,
            CoreEvent::LoseOutput(_) => Why::NotEnabled,
            CoreEvent::Restart => Why::NotEnabled,
            CoreEvent::Ready(_) => Why::NotEnabled,
            CoreEvent::CommitStart => Why::NotEnabled,
            CoreEvent::Ask(_) => Why::NotEnabled,
            CoreEvent::Publish(_) => Why::NotEnabled,
            CoreEvent::Finish => Why::NotEnabled,
            CoreEvent::Purge => Why::NotEnabled,
        }
    }
}
