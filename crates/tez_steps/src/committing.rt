//! The commit: sinks are put aside, published, and the job finishes.
ghost use Rattle.std.specs.Prelude.{◌≡◌, ◌⊎◌, map, option_map, slice_set, slice_index_or, Some, None, IsSome, MatchOption, IfOk, OnOk, OnErr, IsErrOf, is_some};
ghost use Rattle.tez_ports.specs.Causes.{StoreHasCause};
ghost use Rattle.tez_ports.specs.Content.{Told, IsEither};
ghost use Rattle.tez_events.specs.declared.CoreEvent.{CoreEvent};
ghost use Rattle.tez_commit.specs.Merge.{AreStaged, merged, prepares};
ghost use Rattle.tez_history.specs.Shape.{sinks};
ghost use Rattle.tez_sinks.specs.Sinks.{sink_of, sink_name};
ghost use Rattle.tez_steps.specs.Holds.{parts_of, Holds};
ghost use Rattle.tez_steps.specs.Committing.{winners_in, sum_in};
ghost use Rattle.tez_steps.specs.declared.event.Event.{Event};
ghost use Rattle.tez_steps.specs.Taking.{IsQuietStep, IsStep};

use crate::asking::{ask, settle};
use crate::running::Running;
use crate::verdict::{Device, Took, Verdict};
use std::alloc::{AllocError, Global};
use tez_commit::{prepare, publish_next};
use tez_conf::Conf;
use tez_events::{CoreEvent, JournalRecord, Sums};
use tez_ids::{AttemptId, TaskId, VertexId};
use tez_log::Log;
use tez_master::Handled;
use tez_meaning::Job;
use tez_ports::{OutputStore, StoreFault};

/// The text of a sink is put aside.
pub(crate) fn ready<S: OutputStore>(
    alloc: Global,
    job: &Job,
    conf: &Conf,
    running: &mut Running,
    log: &mut Log,
    store: &mut S,
    v: VertexId,
) -> Result<Took, AllocError>
    requires holds { Holds job.now conf.now (parts_of running.old) log.old.past }
    ensures { IsStep S.store S.faults S.stops S.lent S.is_sure job.now conf.now (Event.Core (CoreEvent.Ready v))
        running.old log.old store.old result running.new log.new store.new }
{
    let handled = ask(alloc, job, conf, running, log, &CoreEvent::Ready(v))?;
    if let Handled::Ignored(why) = handled {
        return Ok(Took::Ignored(why));
    }
    match put_aside(alloc, job, running, store, v) {
        Ok(sum) => {
            note_text(&mut running.texts, v, sum);
            settle(running, log, handled);
            Ok(Took::Changed)
        }
        Err(StoreFault::NoMemory) => Err(AllocError),
        Err(StoreFault::Failed) => Ok(Took::Ended(Verdict::DeviceFault(Device::Store))),
        Err(StoreFault::Stopped) => Ok(Took::Ended(Verdict::DeviceFault(Device::Store))),
    }
}

/// The text of a sink is made and put aside; it has so many records and bytes.
fn put_aside<S: OutputStore>(
    alloc: Global,
    job: &Job,
    running: &Running,
    store: &mut S,
    v: VertexId,
) -> Result<(u64, u64), StoreFault>
    ensures named { OnOk result (IsSome (sink_of job.now.plan v.0)) }
    ensures ok { OnOk result (S.store store.new
        ≡ option_map (prepares (winners_in running.now.master.state v.0) (sink_name job.now.plan v.0))
        (S.store store.old)) }
    ensures sum { IfOk result
        (λ sum. Told (S.store store.old) (λ s. sum
        ≡ sum_in (merged s.staged (winners_in running.now.master.state v.0)))) }
    ensures err { OnErr result
        (IsEither (prepares (winners_in running.now.master.state v.0) (sink_name job.now.plan v.0)) (S.store store.old)
        (S.store store.new)) }
    ensures cause { StoreHasCause (S.faults store.old) (S.stops store.old) (S.faults store.new)
        (S.stops store.new) result }
    ensures told { is_some (S.store store.new) ≡ is_some (S.store store.old) }
    ensures lent { S.lent store.new ≡ S.lent store.old }
    ensures stays_sure { S.is_sure store.old → S.is_sure store.new }
    ensures sure { S.is_sure store.old → OnErr result
        (IsErrOf result StoreFault.NoMemory
        ⊎ Told (S.store store.old) (λ s. AreStaged s.staged (winners_in running.now.master.state v.0) → ⊥)) }
    ensures never_stops { S.is_sure store.old → IsErrOf result StoreFault.Stopped → ⊥ }
{
    let Some(name) = name_of(job, v) else {
        return Err(StoreFault::NoMemory);
    };
    let Ok(winners) = winners_of(alloc, running, v) else {
        return Err(StoreFault::NoMemory);
    };
    match prepare(alloc, store, winners.as_slice(), name) {
        Ok(prepared) => Ok((prepared.records, prepared.bytes)),
        Err(fault) => Err(fault),
    }
}

/// The name of a vertex's sink, where it has one.
fn name_of(job: &Job, v: VertexId) -> Option<&str>
    ensures { MatchOption result (sink_of job.now.plan v.0 ≡ None) (λ name. sink_of job.now.plan v.0 ≡ Some name.now) }
{
    let vertex = job.plan().vertices().get(v.0 as usize)?;
    match &vertex.sink {
        Some(name) => Some(name.as_str()),
        None => None,
    }
}

/// Notes the records and bytes of a sink.
fn note_text(texts: &mut Vec<(u64, u64)>, v: VertexId, sum: (u64, u64))
    ensures { texts.new.items ≡ slice_set texts.old.items v.0 sum }
{
    let index = v.0 as usize;
    if index < texts.len() {
        texts[index] = sum;
    }
}

/// The winners of the tasks of a vertex, in order.
fn winners_of(alloc: Global, running: &Running, v: VertexId) -> Result<Vec<AttemptId>, AllocError>
    ensures { IfOk result (λ winners. winners.items ≡ winners_in running.now.master.state v.0) }
{
    let mut winners = Vec::new(alloc);
    let (_, tasks) = running.master.progress(v);
    for index in 0..tasks {
        if let Some(w) = running.master.winner_of(TaskId { vertex: v, index }) {
            winners.push(w)?;
        }
    }
    Ok(winners)
}

/// The commit starts: the records and bytes of all sinks are fixed.
pub(crate) fn start_commit(
    alloc: Global,
    job: &Job,
    conf: &Conf,
    running: &mut Running,
    log: &mut Log,
) -> Result<Took, AllocError>
    requires holds { Holds job.now conf.now (parts_of running.old) log.old.past }
    ensures { IsQuietStep job.now conf.now CoreEvent.CommitStart running.old log.old result running.new log.new }
{
    let handled = ask(alloc, job, conf, running, log, &CoreEvent::CommitStart)?;
    if let Handled::Ignored(why) = handled {
        return Ok(Took::Ignored(why));
    }
    let sums = sums_of(alloc, job, running.texts.as_slice())?;
    let noted = sums_of(alloc, job, running.texts.as_slice())?;
    log.reserve(1, 1)?;
    running.sums = sums;
    log.note(JournalRecord::CommitStarted {
        sums: Sums::new(noted),
    });
    settle(running, log, handled);
    Ok(Took::Changed)
}

/// The records and bytes of the sinks, in the order of their vertices.
fn sums_of(alloc: Global, job: &Job, texts: &[(u64, u64)]) -> Result<Vec<(u64, u64)>, AllocError>
    ensures { IfOk result (λ sums. sums.items ≡ map (λ v. slice_index_or texts.now v (0, 0)) (sinks job.now.plan)) }
{
    let mut sums = Vec::new(alloc);
    let vertices = job.plan().vertices();
    for v in 0..vertices.len() {
        if vertices[v].sink.is_some() {
            sums.push(sum_at(texts, v))?;
        }
    }
    Ok(sums)
}

/// The records and bytes that are noted of a vertex.
fn sum_at(texts: &[(u64, u64)], v: usize) -> (u64, u64)
    ensures { result ≡ slice_index_or texts.now v (0, 0) }
{
    match texts.get(v) {
        Some(sum) => *sum,
        None => (0, 0),
    }
}

/// The text of a sink is published.
pub(crate) fn publish<S: OutputStore>(
    alloc: Global,
    job: &Job,
    conf: &Conf,
    running: &mut Running,
    log: &mut Log,
    store: &mut S,
    v: VertexId,
) -> Result<Took, AllocError>
    requires holds { Holds job.now conf.now (parts_of running.old) log.old.past }
    ensures { IsStep S.store S.faults S.stops S.lent S.is_sure job.now conf.now (Event.Core (CoreEvent.Publish v))
        running.old log.old store.old result running.new log.new store.new }
{
    let handled = ask(alloc, job, conf, running, log, &CoreEvent::Publish(v))?;
    if let Handled::Ignored(why) = handled {
        return Ok(Took::Ignored(why));
    }
    let Some(name) = name_of(job, v) else {
        return Err(AllocError);
    };
    match publish_next(store, name) {
        Ok(()) => {
            settle(running, log, handled);
            Ok(Took::Changed)
        }
        Err(_) => Ok(Took::Ended(Verdict::DeviceFault(Device::Store))),
    }
}

/// What is left over is purged, and the world ends.
pub(crate) fn purge<S: OutputStore>(
    alloc: Global,
    job: &Job,
    conf: &Conf,
    running: &mut Running,
    log: &mut Log,
    store: &mut S,
) -> Result<Took, AllocError>
    requires holds { Holds job.now conf.now (parts_of running.old) log.old.past }
    ensures { IsStep S.store S.faults S.stops S.lent S.is_sure job.now conf.now (Event.Core CoreEvent.Purge)
        running.old log.old store.old result running.new log.new store.new }
{
    let handled = ask(alloc, job, conf, running, log, &CoreEvent::Purge)?;
    if let Handled::Ignored(why) = handled {
        return Ok(Took::Ignored(why));
    }
    match store.purge() {
        Ok(()) => {
            settle(running, log, handled);
            let sums = std::mem::replace(&mut running.sums, Vec::new(alloc));
            Ok(Took::Ended(Verdict::Succeeded(sums)))
        }
        Err(_) => Ok(Took::Ended(Verdict::DeviceFault(Device::Store))),
    }
}
