// A container: a thread that takes its orders, works them and reports.
ghost use Rattle.std.specs.Prelude.{◌≡◌, ◌++◌, ◌∷◌, [], length, IsTrue, IsFalse, true, false};
ghost use Rattle.crossbeam_queue.specs.Passes.{view, IsPassOf, IsSamePass, ruled_capacity};
ghost use Rattle.tez_crew.specs.Lists.{Begins};
ghost use Rattle.tez_crew.specs.Orders.{taker};
ghost use Rattle.tez_crew.specs.Events.{reporter};

use crate::event_queue::{EventPass, EventQueue, PushReport};
use crate::order_queue::{OrderPass, OrderQueue, PopOrder};
use std::alloc::Global;
use std::sync::Wait;
use std::sync::atomic::{AtomicBool, Ordering};
use std::thread;
use std::thread::Promise;
use tez_orders::{Report, work};
use tez_ports::Gate;

/// What the dispatcher and one container share.
#[derive(Drop)]
pub struct Mailbox {
    pub order_queue: OrderQueue,
    pub stop: AtomicBool,
}

/// Where a container works. As a promise: what its thread returns.
#[derive(Clone, Copy)]
pub struct Container<'a> {
    pub mailbox: &'a Mailbox,
    pub events: &'a EventQueue,
    pub place: u32,
}

impl<'a> Promise<ContainerResult> for Container<'a> {
    ghost use Rattle.std.specs.Prelude.{◌≡◌};
    ghost use Rattle.crossbeam_queue.specs.Passes.{view, IsPassOf};
    ghost use Rattle.tez_crew.specs.Orders.{taker};
    ghost use Rattle.tez_crew.specs.Events.{reporter};

    ghost kept_by = { λ p w. IsPassOf p.mailbox.now.order_queue w.orders × IsPassOf p.events.now w.reports
        × (view w.orders ≡ taker (view w.orders).taken) × (view w.reports ≡ reporter p.place (view w.reports).reported) };
}

/// Both passes of a container that ended: what it reported is a first part of what it took.
#[derive(Drop)]
pub struct ContainerResult {
    pub orders: OrderPass,
    pub reports: EventPass,
    pub taken: u64,
    ghost counts: { taken ≡ length (view orders).taken },
    ghost in_order: { Begins (view reports).reported (view orders).taken },
}

fn container_result(orders: OrderPass, reports: EventPass, taken: u64) -> ContainerResult
    requires { (taken ≡ length (view orders).taken) × Begins (view reports).reported (view orders).taken }
    ensures { (result.orders ≡ orders) × (result.reports ≡ reports) × (result.taken ≡ taken) }
{
    ContainerResult {
        orders,
        reports,
        taken,
    }
}

/// Gives a report into the event queue, and tries again while it is full. False where the container
/// is to stop: the report is dropped then.
fn send_report<R: Wait>(
    rt: &R,
    container: Container<'_>,
    pass: &mut EventPass,
    report: Report,
) -> bool
    requires queue { IsPassOf container.events.now pass.old
        × (view pass.old ≡ reporter container.place (view pass.old).reported) }
    requires place { report.order.place ≡ container.place }
    ensures queue { IsPassOf container.entry.events.now pass.new }
    ensures told { IsTrue result
        → view pass.new ≡ reporter container.entry.place ((view pass.old).reported ++ report.order.attempt ∷ []) }
    ensures dropped { IsFalse result → view pass.new ≡ view pass.old }
{
    let mut report = report;
    for _ in rt.forever() {
        match container.events.try_push_as::<PushReport>(pass, report) {
            Ok(()) => return true,
            Err(back) => report = back,
        }
        if container.mailbox.stop.load(Ordering::SeqCst) {
            return false;
        }
        thread::yield_now();
    }
    unreachable!()
}

/// Takes orders, works them and reports, until it is told to stop.
pub fn serve<G: Gate, R: Wait>(
    rt: &R,
    alloc: Global,
    gate: &G,
    container: Container<'_>,
    mut orders: OrderPass,
    mut reports: EventPass,
) -> ContainerResult
    requires passes { IsPassOf container.mailbox.now.order_queue orders × IsPassOf container.events.now reports }
    requires fresh { (view orders ≡ taker []) × (view reports ≡ reporter container.place []) }
    ensures passes { IsPassOf container.entry.mailbox.now.order_queue result.orders
        × IsPassOf container.entry.events.now result.reports }
    ensures views { (view result.orders ≡ taker (view result.orders).taken)
        × (view result.reports ≡ reporter container.entry.place (view result.reports).reported) }
{
    let mut taken = 0u64;
    for _ in rt.forever() {
        if taken == u64::MAX || container.mailbox.stop.load(Ordering::SeqCst) {
            break;
        }
        let Some(order) = container
            .mailbox
            .order_queue
            .try_pop_as::<PopOrder>(&mut orders)
        else {
            thread::yield_now();
            continue;
        };
        taken += 1;
        gate.enter(order.attempt());
        let report = work(alloc, order).at_place(container.place);
        if !send_report(rt, container, &mut reports, report) {
            break;
        }
    }
    container_result(orders, reports, taken)
}
