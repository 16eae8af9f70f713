//! What a running world makes of an event.
ghost use Rattle.tez_steps.specs.Holds.{parts_of, Holds};
ghost use Rattle.tez_steps.specs.Taking.{IsQuietStep, IsStep};

use crate::committing::{publish, purge, ready, start_commit};
use crate::event::Event;
use crate::inputs::{fetch, send};
use crate::losses::{lose_node, lose_output};
use crate::places::{fail, place, preempt};
use crate::plain::take_plain;
use crate::reporting::report;
use crate::running::Running;
use crate::verdict::Took;
use std::alloc::{AllocError, Global};
use tez_conf::Conf;
use tez_events::CoreEvent;
use tez_log::Log;
use tez_meaning::Job;
use tez_ports::OutputStore;

/// Handles an event of a master that is up. What may not come is ignored, and changes nothing; where
/// memory is refused the event is dropped, and nothing changes but what was put aside in the store.
pub fn take<S: OutputStore>(
    alloc: Global,
    job: &Job,
    conf: &Conf,
    running: &mut Running,
    log: &mut Log,
    store: &mut S,
    e: Event,
) -> Result<Took, AllocError>
    requires holds { Holds job.now conf.now (parts_of running.old) log.old.past }
    ensures { IsStep S.store S.faults S.stops S.lent S.is_sure job.now conf.now e
        running.old log.old store.old result running.new log.new store.new }
{
    match e {
        Event::Report(r) => report(alloc, job, conf, running, log, store, r),
        Event::Core(e) => take_event(alloc, job, conf, running, log, store, e),
    }
}

/// An event that is no report.
fn take_event<S: OutputStore>(
    alloc: Global,
    job: &Job,
    conf: &Conf,
    running: &mut Running,
    log: &mut Log,
    store: &mut S,
    e: CoreEvent,
) -> Result<Took, AllocError>
    requires holds { Holds job.now conf.now (parts_of running.old) log.old.past }
    ensures { IsStep S.store S.faults S.stops S.lent S.is_sure job.now conf.now (Event.Core e)
        running.old log.old store.old result running.new log.new store.new }
{
    match e {
        CoreEvent::Ready(v) => ready(alloc, job, conf, running, log, store, v),
        CoreEvent::Publish(v) => publish(alloc, job, conf, running, log, store, v),
        CoreEvent::Purge => purge(alloc, job, conf, running, log, store),
        e => take_quiet(alloc, job, conf, running, log, e),
    }
}

/// An event that calls no device. One that does is refused.
fn take_quiet(
    alloc: Global,
    job: &Job,
    conf: &Conf,
    running: &mut Running,
    log: &mut Log,
    e: CoreEvent,
) -> Result<Took, AllocError>
    requires holds { Holds job.now conf.now (parts_of running.old) log.old.past }
    ensures { IsQuietStep job.now conf.now e running.old log.old result running.new log.new }
{
    match e {
        CoreEvent::Place(a, p) => place(alloc, job, conf, running, log, a, p),
        CoreEvent::Fetch(a, e, i) => fetch(alloc, job, conf, running, log, a, e, i),
        CoreEvent::Send(a) => send(alloc, job, conf, running, log, a),
        CoreEvent::Preempt(a) => preempt(alloc, job, conf, running, log, a),
        CoreEvent::Fail(a) => fail(alloc, job, conf, running, log, a),
        CoreEvent::LoseNode(slot) => lose_node(alloc, job, conf, running, log, slot),
        CoreEvent::LoseOutput(t) => lose_output(alloc, job, conf, running, log, t),
        CoreEvent::CommitStart => start_commit(alloc, job, conf, running, log),
        CoreEvent::Open => take_plain(alloc, job, conf, running, log, CoreEvent::Open),
        CoreEvent::Configure(v) => {
            take_plain(alloc, job, conf, running, log, CoreEvent::Configure(v))
        }
        CoreEvent::Queue(t) => take_plain(alloc, job, conf, running, log, CoreEvent::Queue(t)),
        CoreEvent::Restart => take_plain(alloc, job, conf, running, log, CoreEvent::Restart),
        CoreEvent::Ask(v) => take_plain(alloc, job, conf, running, log, CoreEvent::Ask(v)),
        CoreEvent::Finish => take_plain(alloc, job, conf, running, log, CoreEvent::Finish),
        CoreEvent::Ready(_) => Err(AllocError),
        CoreEvent::Publish(_) => Err(AllocError),
        CoreEvent::Purge => Err(AllocError),
    }
}
