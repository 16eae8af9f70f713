// How the containers of a crew are started.
ghost use Rattle.std.specs.Prelude.{◌≡◌, ℕ, ◌+◌, ◌<◌, ◌≤◌, [], length, slice_index_or, vec_len, vec_capacity, true, false, IfOk};
ghost use Rattle.crossbeam_queue.specs.Passes.{view, IsPassOf, ruled_capacity};
ghost use Rattle.tez_crew.specs.Orders.{order_view, taker};
ghost use Rattle.tez_crew.specs.Events.{getter, reporter};
ghost use Rattle.tez_crew.specs.Containers.{IsResultOf, IsSameContainer};
ghost use Rattle.tez_crew.specs.PreparedPlaces.{IsPrepared, IsFreshAt, IsLinedUp};
ghost use Rattle.tez_crew.specs.declared.place_handle.ContainerThread.TheVariants.{Running, Refused};

use crate::container::{Container, Mailbox, serve};
use crate::event_queue::{EventPass, EventQueue, SplitReporter};
use crate::order_queue::{OrderPass, OrderQueue, PutterAndTaker};
use crate::place_handle::{ContainerThread, PlaceHandle};
use std::alloc::{AllocError, Global};
use std::sync::Wait;
use std::sync::atomic::{AtomicBool, Ordering};
use std::thread::{Scope, Threads};
use tez_ports::Gate;

pub const WAITING_ORDERS: usize = 64;

/// A place whose order queue is made, before its container is started.
#[derive(Drop)]
pub struct PreparedPlace {
    pub place: u32,
    pub pass: OrderPass,
}

/// A queue for each place.
pub fn make_mailboxes(
    alloc: Global,
    containers: u32,
) -> Result<(Vec<Mailbox>, Vec<PreparedPlace>), AllocError>
    ensures { IfOk result (λ r. (length r.0.items ≡ containers) × (length r.1.items ≡ containers)
        × IsPrepared r.0.items r.1.items) }
{
    let mut mailboxes = Vec::new(alloc);
    let mut prepared_places = Vec::new(alloc);
    for place in 0..containers {
        let (order_queue, pass) = OrderQueue::ruled(alloc, WAITING_ORDERS)?;
        let stop = AtomicBool::new(false);
        mailboxes.push(Mailbox { order_queue, stop })?;
        prepared_places.push(PreparedPlace { place, pass })?;
    }
    Ok((mailboxes, prepared_places))
}

/// Starts the container of a place. Where no thread can be made, its work is nothing.
fn start_container<'s, E, G: Gate + Sync, R: Threads + Wait + Sync>(
    scope: &Scope<'s, E>,
    rt: &'s R,
    alloc: Global,
    gate: &'s G,
    container: Container<'s>,
    orders: OrderPass,
    reports: EventPass,
) -> ContainerThread<'s>
    requires passes { IsPassOf container.mailbox.now.order_queue orders × IsPassOf container.events.now reports }
    requires fresh { (view orders ≡ taker []) × (view reports ≡ reporter container.place []) }
    ensures runs { (h : _) → result ≡ Running h → IsSameContainer h.promise container.entry }
    ensures refused { (w : _) → result ≡ Refused w → IsResultOf container.entry w }
{
    let Container {
        mailbox,
        events,
        place,
    } = container;
    let started = scope.spawn_with(
        container,
        move ||
            requires { IsPassOf mailbox.now.order_queue orders × IsPassOf events.now reports × (view orders ≡ taker [])
                × (view reports ≡ reporter place []) }
            ensures { IsPassOf mailbox.entry.now.order_queue result.orders × IsPassOf events.entry.now result.reports
                × (view result.orders ≡ taker (view result.orders).taken)
                × (view result.reports ≡ reporter place (view result.reports).reported) }
        {
            let container = Container {
                mailbox,
                events,
                place,
            };
            serve(rt, alloc, gate, container, orders, reports)
        },
    );
    match started {
        Ok(thread) => ContainerThread::Running(thread),
        Err(refused) => {
            container.mailbox.stop.store(true, Ordering::SeqCst);
            ContainerThread::Refused((refused.value)())
        }
    }
}

/// Starts the container of a place, and gives the dispatcher's side of it.
fn start_place<'s, E, G: Gate + Sync, R: Threads + Wait + Sync>(
    scope: &Scope<'s, E>,
    rt: &'s R,
    alloc: Global,
    gate: &'s G,
    mailbox: &'s Mailbox,
    prepared_place: PreparedPlace,
    events: &'s EventQueue,
    seen: &mut EventPass,
) -> PlaceHandle<'s>
    requires prepared_place { IsFreshAt mailbox.now prepared_place }
    requires seen { IsPassOf events.now seen.old × (view seen.old ≡ getter [] prepared_place.place []) }
    ensures place_handle { (result.container.place ≡ prepared_place.place)
        × (result.container.events.now.table.shared.table_id ≡ events.now.table.shared.table_id)
        × (result.put.items ≡ []) }
    ensures seen { IsPassOf events.now seen.new × (view seen.new ≡ getter [] (prepared_place.place + 1) []) }
{
    let PreparedPlace { place, mut pass } = prepared_place;
    let orders = mailbox.order_queue.another::<PutterAndTaker>(&mut pass);
    let reports = events.another::<SplitReporter>(seen);
    let container = Container {
        mailbox,
        events,
        place,
    };
    let start = start_container(scope, rt, alloc, gate, container, orders, reports);
    PlaceHandle {
        container,
        pass,
        put: Vec::new(alloc),
        start,
    }
}

/// Starts all containers. The handles have their room.
pub fn start_places<'s, E, G: Gate + Sync, R: Threads + Wait + Sync>(
    scope: &Scope<'s, E>,
    rt: &'s R,
    alloc: Global,
    gate: &'s G,
    mailboxes: &'s Vec<Mailbox>,
    prepared_places: Vec<PreparedPlace>,
    events: &'s EventQueue,
    mut seen: EventPass,
    mut handles: Vec<PlaceHandle<'s>>,
) -> (Vec<PlaceHandle<'s>>, EventPass)
    requires open { IsPrepared mailboxes.now.items prepared_places.items
        × (length mailboxes.now.items ≡ length prepared_places.items) }
    requires seen { IsPassOf events.now seen × (view seen ≡ getter [] 0 []) }
    requires room { (handles.items ≡ []) × (length prepared_places.items ≤ vec_capacity handles) }
    ensures handles { (length result.0.items ≡ length prepared_places.items) × IsLinedUp events.now result.0.items }
    ensures seen { IsPassOf events.now result.1 × (view result.1 ≡ getter [] (length prepared_places.items) []) }
{
    for prepared_place in prepared_places {
        let mailbox = &mailboxes[prepared_place.place as usize];
        let place_handle = start_place(
            scope,
            rt,
            alloc,
            gate,
            mailbox,
            prepared_place,
            events,
            &mut seen,
        );
        handles.push_reserved(place_handle);
    }
    (handles, seen)
}
