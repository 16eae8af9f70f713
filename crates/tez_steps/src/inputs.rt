//! Attempts fetch their inputs, and their orders go out.
ghost use Rattle.std.specs.Prelude.{◌≡◌, ◌<◌, ℕ, map, length, slice_get, Some, IsSome, IfSome, IfOk, OnOk, OnErr};
ghost use Rattle.tez_ids.specs.declared.AttemptId.{AttemptId as Attempt};
ghost use Rattle.tez_plan.specs.declared.parts.VertexSpec.{VertexSpec as Vertex};
ghost use Rattle.tez_vman.specs.declared.seen.Config.{Config as Configured};
ghost use Rattle.tez_events.specs.declared.CoreEvent.{CoreEvent};
ghost use Rattle.tez_history.specs.Shape.{edges_to};
ghost use Rattle.tez_schedule.specs.Table.{config_at};
ghost use Rattle.tez_inflight.specs.Seats.{Gathered, Gathers, Records as RecordList, seat_at, gatherer, numbered};
ghost use Rattle.tez_assembly.specs.Order.{order_for};
ghost use Rattle.tez_world_invariant.specs.Step.{fetched};
ghost use Rattle.tez_steps.specs.Holds.{parts_of, Holds};
ghost use Rattle.tez_steps.specs.Taking.{IsQuietStep};

use crate::asking::{ask, settle};
use crate::running::Running;
use crate::verdict::Took;
use std::alloc::{AllocError, Global};
use tez_assembly::assemble;
use tez_conf::Conf;
use tez_events::CoreEvent;
use tez_ids::{AttemptId, EdgeId, VertexId};
use tez_log::Log;
use tez_master::Handled;
use tez_master_model::Why;
use tez_meaning::Job;
use tez_orders::Order;
use tez_record::Records;

/// A waiting attempt fetches an input: the piece is copied where it is on a shelf, and else its
/// winner is withdrawn.
pub(crate) fn fetch(
    alloc: Global,
    job: &Job,
    conf: &Conf,
    running: &mut Running,
    log: &mut Log,
    a: AttemptId,
    e: EdgeId,
    input: u32,
) -> Result<Took, AllocError>
    requires holds { Holds job.now conf.now (parts_of running.old) log.old.past }
    ensures { IsQuietStep job.now conf.now (CoreEvent.Fetch a e input) running.old log.old result running.new log.new }
{
    let handled = ask(
        alloc,
        job,
        conf,
        running,
        log,
        &CoreEvent::Fetch(a, e, input),
    )?;
    if let Handled::Ignored(why) = handled {
        return Ok(Took::Ignored(why));
    }
    copy_piece(alloc, running, a, e, input)?;
    settle(running, log, handled);
    Ok(Took::Changed)
}

/// Copies the piece behind an input to the seat of the attempt, where it is on a shelf.
fn copy_piece(
    alloc: Global,
    running: &mut Running,
    a: AttemptId,
    e: EdgeId,
    input: u32,
) -> Result<(), AllocError>
    ensures ok { OnOk result (running.new ≡ record running.old {
      seats = fetched running.old.master.state running.old.shelves running.old.seats a e.0 input;
    }) }
    ensures refused { OnErr result (running.new ≡ running.old) }
{
    let Some((w, output)) = running.master.piece_of(a, e, input) else {
        return Ok(());
    };
    let Some((place, _)) = running.master.place_of(a) else {
        return Ok(());
    };
    match running.shelves.piece(w, e, output) {
        Some(piece) => running.seats.gather(alloc, place, e, &piece),
        None => Ok(()),
    }
}

/// The order of a waiting attempt goes out, with what it has gathered.
pub(crate) fn send(
    alloc: Global,
    job: &Job,
    conf: &Conf,
    running: &mut Running,
    log: &mut Log,
    a: AttemptId,
) -> Result<Took, AllocError>
    requires holds { Holds job.now conf.now (parts_of running.old) log.old.past }
    ensures { IsQuietStep job.now conf.now (CoreEvent.Send a) running.old log.old result running.new log.new }
{
    let handled = ask(alloc, job, conf, running, log, &CoreEvent::Send(a))?;
    if let Handled::Ignored(why) = handled {
        return Ok(Took::Ignored(why));
    }
    let Some((place, _)) = running.master.place_of(a) else {
        return Ok(Took::Ignored(Why::Stranger));
    };
    let order = order_of(alloc, job, running, a, place)?;
    let given = order.copy(alloc)?;
    running.seats.put_out(place, order, given);
    settle(running, log, handled);
    Ok(Took::Changed)
}

/// The order of the attempt that waits at a place.
fn order_of(
    alloc: Global,
    job: &Job,
    running: &Running,
    a: AttemptId,
    place: u32,
) -> Result<Order, AllocError>
    requires vertex { a.task.vertex.0 < length job.now.plan.vertices }
    requires configured { IfSome (config_at running.now.master.state.schedule a.task.vertex.0)
        (λ c. a.task.index < c.tasks) }
    requires there { IsSome (config_at running.now.master.state.schedule a.task.vertex.0) }
    requires gathers { gatherer (seat_at running.now.seats.seats place) ≡ Some a }
    requires gathered { (parts : Gathered) → seat_at running.now.seats.seats place ≡ Gathers a parts
        → map (λ part. part.0) parts ≡ map (λ e. e.0) (edges_to job.now.plan a.task.vertex.0) }
    ensures { IfOk result (λ o. (s : Vertex) (copy : ℕ → RecordList) (c : Configured)
        → slice_get job.now.plan.vertices a.task.vertex.0 ≡ Some s
        → config_at running.now.master.state.schedule a.task.vertex.0 ≡ Some c
        → seat_at running.now.seats.seats place
        ≡ Gathers a (map (λ e. (e.0, copy e.0)) (edges_to job.now.plan a.task.vertex.0))
        → o ≡ order_for job.now c.tasks a place copy s) }
{
    let parts = gathered_at(alloc, running, place)?;
    let tasks = tasks_of(running, a.task.vertex);
    match assemble(alloc, job, tasks, a, place, parts) {
        Ok(order) => Ok(order),
        Err(_parts) => Err(AllocError),
    }
}

/// The tasks of a vertex, 1 while it is not configured.
fn tasks_of(running: &Running, v: VertexId) -> u32
    ensures { IfSome (config_at running.now.master.state.schedule v.0) (λ c. result ≡ c.tasks) }
{
    match running.master.config_of(v) {
        Some(config) => config.tasks,
        None => 1,
    }
}

/// A copy of what was gathered at a place.
fn gathered_at(
    alloc: Global,
    running: &Running,
    place: u32,
) -> Result<Vec<(EdgeId, Records)>, AllocError>
    ensures { IfOk result (λ found. (a : Attempt) (parts : Gathered)
        → seat_at running.now.seats.seats place ≡ Gathers a parts → map numbered found.items ≡ parts) }
{
    match running.seats.gathered(place) {
        Some((_, parts)) => copy_parts(alloc, parts),
        None => Ok(Vec::new(alloc)),
    }
}

fn copy_parts(
    alloc: Global,
    parts: &[(EdgeId, Records)],
) -> Result<Vec<(EdgeId, Records)>, AllocError>
    ensures { IfOk result (λ copies. copies.items ≡ parts.now) }
{
    let mut copies = Vec::with_capacity(alloc, parts.len())?;
    for (edge, records) in parts {
        copies.push((*edge, records.copy(alloc)?))?;
    }
    Ok(copies)
}
