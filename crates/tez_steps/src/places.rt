//! Attempts come to places and leave them.
ghost use Rattle.std.specs.Prelude.{◌≡◌, IfOk};
ghost use Rattle.tez_events.specs.declared.CoreEvent.{CoreEvent};
ghost use Rattle.tez_steps.specs.Holds.{parts_of, Holds};
ghost use Rattle.tez_master.specs.Master.{spent_told};
ghost use Rattle.tez_world_invariant.specs.Step.{left};
ghost use Rattle.tez_steps.specs.Parts.{IsFailed};
ghost use Rattle.tez_steps.specs.Taking.{IsQuietStep};

use crate::asking::{ask, settle};
use crate::running::Running;
use crate::verdict::{Took, Verdict};
use std::alloc::{AllocError, Global};
use tez_assembly::edges_into_vertex;
use tez_conf::Conf;
use tez_events::CoreEvent;
use tez_ids::{AttemptId, TaskId};
use tez_log::Log;
use tez_master::Handled;
use tez_meaning::Job;

/// A queued attempt takes a place, and begins to gather.
pub(crate) fn place(
    alloc: Global,
    job: &Job,
    conf: &Conf,
    running: &mut Running,
    log: &mut Log,
    a: AttemptId,
    place: u32,
) -> Result<Took, AllocError>
    requires holds { Holds job.now conf.now (parts_of running.old) log.old.past }
    ensures { IsQuietStep job.now conf.now (CoreEvent.Place a place) running.old log.old result running.new log.new }
{
    let handled = ask(alloc, job, conf, running, log, &CoreEvent::Place(a, place))?;
    if let Handled::Ignored(why) = handled {
        return Ok(Took::Ignored(why));
    }
    let edges = edges_into_vertex(alloc, job.plan(), a.task.vertex)?;
    running.seats.seat(alloc, place, a, edges.as_slice())?;
    settle(running, log, handled);
    Ok(Took::Changed)
}

/// A waiting attempt gives up its place, and what it gathered is dropped.
pub(crate) fn preempt(
    alloc: Global,
    job: &Job,
    conf: &Conf,
    running: &mut Running,
    log: &mut Log,
    a: AttemptId,
) -> Result<Took, AllocError>
    requires holds { Holds job.now conf.now (parts_of running.old) log.old.past }
    ensures { IsQuietStep job.now conf.now (CoreEvent.Preempt a) running.old log.old result running.new log.new }
{
    let handled = ask(alloc, job, conf, running, log, &CoreEvent::Preempt(a))?;
    if let Handled::Ignored(why) = handled {
        return Ok(Took::Ignored(why));
    }
    leave(running, a);
    settle(running, log, handled);
    Ok(Took::Changed)
}

/// Clears the seat of an attempt.
fn leave(running: &mut Running, a: AttemptId)
    ensures master { running.new.master ≡ running.old.master }
    ensures seats { running.new.seats ≡ left running.old.master.state running.old.seats a }
    ensures shelves { running.new.shelves ≡ running.old.shelves }
    ensures texts { running.new.texts ≡ running.old.texts }
    ensures sums { running.new.sums ≡ running.old.sums }
{
    if let Some((place, _)) = running.master.place_of(a) {
        running.seats.leave(place);
    }
}

/// The task that an answer spends.
fn spent_by(handled: &Handled) -> Option<TaskId>
    ensures { result ≡ spent_told handled.now }
{
    match handled {
        Handled::Done(effects) => effects.spent,
        Handled::Single(_, _) => None,
        Handled::Ignored(_) => None,
    }
}

/// An attempt fails. Where that spends its task, the world ends.
pub(crate) fn fail(
    alloc: Global,
    job: &Job,
    conf: &Conf,
    running: &mut Running,
    log: &mut Log,
    a: AttemptId,
) -> Result<Took, AllocError>
    requires holds { Holds job.now conf.now (parts_of running.old) log.old.past }
    ensures failed { IfOk result (λ took. IsFailed job.now conf.now a running.old log.old took running.new log.new) }
    ensures step { IsQuietStep job.now conf.now (CoreEvent.Fail a) running.old log.old result running.new log.new }
{
    let handled = ask(alloc, job, conf, running, log, &CoreEvent::Fail(a))?;
    if let Handled::Ignored(why) = handled {
        return Ok(Took::Ignored(why));
    }
    let spent = spent_by(&handled);
    leave(running, a);
    settle(running, log, handled);
    match spent {
        Some(t) => Ok(Took::Ended(Verdict::AttemptsSpent(t))),
        None => Ok(Took::Changed),
    }
}
