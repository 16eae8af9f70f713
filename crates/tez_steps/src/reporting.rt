//! Orders are reported.
ghost use Rattle.std.specs.Prelude.{◌≡◌, ◌≤◌, ◌<◌, ◌⊎◌, ◌/◌, ◌&&◌, ◌==◌, length, option_map, unwrap_or, Some, None, true, IfOk, IfErr, OnOk, OnErr, IsErrOf, is_some};
ghost use Rattle.tez_record.specs.Bag.{text};
ghost use Rattle.tez_ports.specs.Causes.{StoreHasCause};
ghost use Rattle.tez_ports.specs.Content.{IsEither};
ghost use Rattle.tez_plan.specs.Dag.{edge, is_scatter_gather};
ghost use Rattle.tez_shelves.specs.Piece.{bytes_on};
ghost use Rattle.tez_master_model.specs.Enabled.{why_in};
ghost use Rattle.tez_inflight.specs.Seats.{Out, seat_at};
ghost use Rattle.tez_history.specs.Shape.{has_sink};
ghost use Rattle.tez_orders.specs.Orders.{OrderParts};
ghost use Rattle.tez_orders.specs.Outcomes.{IsOutcome};
ghost use Rattle.tez_world_invariant.specs.Reports.{made_for};
ghost use Rattle.tez_steps.specs.Holds.{parts_of, Holds};
ghost use Rattle.tez_steps.specs.Reporting.{IsAtWork, IsDoneReport, staged_for};
ghost use Rattle.tez_steps.specs.declared.event.Event.{Event};
ghost use Rattle.tez_steps.specs.Taking.{LeavesStore, IsStep};

use crate::asking::{make_room, settle};
use crate::places::fail;
use crate::running::Running;
use crate::verdict::{Device, Took, Verdict};
use std::alloc::{AllocError, Global};
use tez_conf::Conf;
use tez_ids::{AttemptId, EdgeId, NodeId, VertexId};
use tez_log::Log;
use tez_master::Handled;
use tez_master_model::Why;
use tez_meaning::Job;
use tez_orders::{Outcome, Report};
use tez_plan::{EdgeSpec, Movement, Plan};
use tez_ports::{OutputStore, StoreFault};
use tez_record::Records;
use tez_shelves::Pieces;

/// The report of an order. It is ignored unless its attempt is processing, and its order is the one
/// that went out.
pub(crate) fn report<S: OutputStore>(
    alloc: Global,
    job: &Job,
    conf: &Conf,
    running: &mut Running,
    log: &mut Log,
    store: &mut S,
    r: Report,
) -> Result<Took, AllocError>
    requires holds { Holds job.now conf.now (parts_of running.old) log.old.past }
    ensures { IsStep S.store S.faults S.stops S.lent S.is_sure job.now conf.now (Event.Report r)
        running.old log.old store.old result running.new log.new store.new }
{
    let at = match at_work(running, &r) {
        Ok(at) => at,
        Err(why) => return Ok(Took::Ignored(why)),
    };
    let (_order, outcome) = r.into_parts();
    match outcome {
        Outcome::NoMemory => Err(AllocError),
        Outcome::Bad(_record) => fail(alloc, job, conf, running, log, at.a),
        Outcome::Done { value, pieces } => {
            done(alloc, job, conf, running, log, store, at, &value, pieces)
        }
    }
}

/// An attempt with its place and node.
#[derive(Clone, Copy)]
pub(crate) struct At {
    pub(crate) a: AttemptId,
    pub(crate) place: u32,
    pub(crate) node: NodeId,
}

/// Where the attempt of a report is at work, or why the report is ignored: the attempt is not
/// processing, or its order is not the one that went out.
fn at_work(running: &Running, r: &Report) -> Result<At, Why>
    ensures ignored { IfErr result (λ why. (why_in running.now.master.state r.now.order.attempt ≡ Some why)
        ⊎ (why ≡ Why.Stranger)) }
    ensures own { IfOk result (λ at. at.a ≡ r.now.order.attempt) }
    ensures works { IfOk result (λ at. IsAtWork running.now.master.state at) }
    ensures there { IfOk result (λ at. seat_at running.now.seats.seats at.place ≡ Out r.now.order) }
{
    let a = r.order().attempt();
    if let Some(why) = running.master.why(a) {
        return Err(why);
    }
    let Some((place, node)) = running.master.place_of(a) else {
        return Err(Why::Stranger);
    };
    let Some(order) = running.seats.order_at(place) else {
        return Err(Why::Stranger);
    };
    if order.same(r.order()) {
        Ok(At { a, place, node })
    } else {
        Err(Why::Stranger)
    }
}

/// The bytes of the pieces on each scatter-gather edge out of a vertex, by edge.
fn made_of(
    alloc: Global,
    plan: &Plan,
    a: AttemptId,
    pieces: &Pieces,
) -> Result<Vec<(EdgeId, u64)>, AllocError>
    ensures { IfOk result (λ made. made.items ≡ made_for plan.now a (λ e. unwrap_or (bytes_on (edge e) pieces.now) 0)) }
{
    let _valid = plan.vertices();
    made_over(alloc, plan, a, pieces)
}

fn made_over(
    alloc: Global,
    plan: &Plan,
    a: AttemptId,
    pieces: &Pieces,
) -> Result<Vec<(EdgeId, u64)>, AllocError>
    requires { length plan.now.edges ≤ 256 }
    ensures { IfOk result (λ made. made.items ≡ made_for plan.now a (λ e. unwrap_or (bytes_on (edge e) pieces.now) 0)) }
{
    let edges = plan.edges();
    let mut made = Vec::new(alloc);
    for e in 0..edges.len() {
        let edge = &edges[e];
        let (source, _target) = plan.ends(EdgeId(e as u16));
        if leaves_by_key(edge, source, a.task.vertex) {
            made.push((EdgeId(e as u16), bytes_over(pieces, EdgeId(e as u16))))?;
        }
    }
    Ok(made)
}

/// Whether an edge from this source is a scatter-gather edge out of a vertex.
fn leaves_by_key(edge: &EdgeSpec, source: VertexId, v: VertexId) -> bool
    ensures { result ≡ (is_scatter_gather edge.now && (source.0 == v.0)) }
{
    is_by_key(edge) && source.0 == v.0
}

fn is_by_key(edge: &EdgeSpec) -> bool
    ensures { result ≡ is_scatter_gather edge.now }
{
    match edge.movement {
        Movement::ScatterGather { .. } => true,
        Movement::OneToOne => false,
        Movement::Broadcast => false,
    }
}

fn bytes_over(pieces: &Pieces, e: EdgeId) -> u64
    ensures { result ≡ unwrap_or (bytes_on e pieces.now) 0 }
{
    match pieces.bytes(e) {
        Some(bytes) => bytes,
        None => 0,
    }
}

/// An attempt has succeeded: its value is staged where its vertex has a sink, and its pieces come
/// onto the shelf of its node.
fn done<S: OutputStore>(
    alloc: Global,
    job: &Job,
    conf: &Conf,
    running: &mut Running,
    log: &mut Log,
    store: &mut S,
    at: At,
    value: &Records,
    pieces: Pieces,
) -> Result<Took, AllocError>
    requires holds { Holds job.now conf.now (parts_of running.old) log.old.past }
    requires works { IsAtWork running.old.master.state at }
    requires due { (o : OrderParts) → seat_at running.old.seats.seats at.place ≡ Out o
        → IsOutcome o (Outcome.Done value.now pieces) }
    ensures taken { IfOk result (λ took. IsDoneReport job.now conf.now at.a (Outcome.Done value.now pieces)
        running.old log.old took running.new log.new) }
    ensures leaves { LeavesStore S.store S.faults S.stops S.lent S.is_sure job.now
        running.old log.old store.old result running.new log.new store.new }
{
    let _known = conf;
    let made = made_of(alloc, job.plan(), at.a, &pieces)?;
    let handled = running.master.done(alloc, at.a, made.as_slice())?;
    make_room(log, &handled)?;
    match stage(job.plan(), store, at.a, value) {
        Ok(()) => {}
        Err(StoreFault::NoMemory) => return Err(AllocError),
        Err(StoreFault::Failed) => return Ok(Took::Ended(Verdict::DeviceFault(Device::Store))),
        Err(StoreFault::Stopped) => return Ok(Took::Ended(Verdict::DeviceFault(Device::Store))),
    }
    if running.shelves.put(at.a, at.node, pieces).is_err() {
        return Err(AllocError);
    }
    running.seats.leave(at.place);
    settle(running, log, handled);
    Ok(Took::Changed)
}

/// Stages the text of a value, where the attempt's vertex has a sink.
fn stage<S: OutputStore>(
    plan: &Plan,
    store: &mut S,
    a: AttemptId,
    value: &Records,
) -> Result<(), StoreFault>
    ensures ok { OnOk result (S.store store.new
        ≡ option_map (staged_for plan.now a (text value.now)) (S.store store.old)) }
    ensures err { OnErr result
        (IsEither (staged_for plan.now a (text value.now)) (S.store store.old) (S.store store.new)) }
    ensures cause { StoreHasCause (S.faults store.old) (S.stops store.old) (S.faults store.new)
        (S.stops store.new) result }
    ensures told { is_some (S.store store.new) ≡ is_some (S.store store.old) }
    ensures lent { S.lent store.new ≡ S.lent store.old }
    ensures stays_sure { S.is_sure store.old → S.is_sure store.new }
    ensures sure { S.is_sure store.old → OnErr result (IsErrOf result StoreFault.NoMemory) }
{
    if has_sink(plan, a.task.vertex) {
        store.stage(a, value.text())
    } else {
        Ok(())
    }
}

fn has_sink(plan: &Plan, v: VertexId) -> bool
    ensures { result ≡ has_sink plan.now v.0 }
{
    match plan.vertices().get(v.0 as usize) {
        Some(vertex) => vertex.sink.is_some(),
        None => false,
    }
}
