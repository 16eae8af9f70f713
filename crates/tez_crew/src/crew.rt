// A crew: containers that are started, used and joined.
ghost use Rattle.std.specs.Prelude.{take, ◌≡◌, ℕ, ◌+◌, ◌<◌, ◌≤◌, ◌++◌, [], length, vec_capacity, IfOk, OnOk, OnErr};
ghost use Rattle.crossbeam_queue.specs.Passes.{view, IsPassOf};
ghost use Rattle.tez_crew.specs.Lists.{Begins};
ghost use Rattle.tez_crew.specs.Events.{getter};
ghost use Rattle.tez_crew.specs.Desks.{puts_of, places, put_at, got_at, own_of};
ghost use Rattle.tez_crew.specs.Books.{rows_put, book_places, book_put, book_taken, book_own};
ghost use Rattle.tez_crew.specs.PreparedPlaces.{IsPrepared, IsPlaced};
ghost use Rattle.tez_crew.specs.Contract.{KeepsBook, Reports};

use crate::book::{CrewBook, PlaceRecord};
use crate::container::Mailbox;
use crate::desk::Desk;
use crate::dispatch::{Dispatch, run_turns};
use crate::event_queue::{EventPass, EventQueue, PopReport};
use crate::place_handle::PlaceHandle;
use crate::start::{PreparedPlace, make_mailboxes, start_places};
use std::alloc::{AllocError, Global};
use std::sync::Wait;
use std::sync::atomic::Ordering;
use std::thread;
use std::thread::{Scope, Threads};
use tez_ports::Gate;

const WAITING_REPORTS: usize = 1024;

/// Joins the containers in order of place. The rows have their room.
fn join_all<R: Threads>(
    rt: &R,
    events: &EventQueue,
    handles: Vec<PlaceHandle<'_>>,
    seen: &mut EventPass,
    mut rows: Vec<PlaceRecord>,
) -> Vec<PlaceRecord>
    requires handles { IsPlaced events.now handles.items }
    requires seen { IsPassOf events.now seen.old
        × (view seen.old ≡ getter (view seen.old).got (view seen.old).made []) }
    requires room { (rows.items ≡ []) × (length handles.items ≤ vec_capacity rows) }
    ensures rows { rows_put result.items ≡ puts_of handles.entry.items }
    ensures seen { IsPassOf events.now seen.new
        × (view seen.new ≡ getter (view seen.old).got (view seen.old).made (view seen.new).known)
        × Reports (view seen.new).known result.items }
{
    for place_handle in handles {
        let row = place_handle.join_container(rt, seen);
        rows.push_reserved(row);
    }
    rows
}

fn stop_all(handles: &Vec<PlaceHandle<'_>>) {
    for place_handle in handles {
        place_handle
            .container
            .mailbox
            .stop
            .store(true, Ordering::SeqCst);
    }
}

/// Ends the containers, and writes the book. The rows have their room.
fn close<G, R: Threads>(rt: &R, rows: Vec<PlaceRecord>, desk: Desk<'_, G, R>) -> CrewBook
    requires room { (rows.items ≡ []) × (places desk ≤ vec_capacity rows) }
    requires few { places desk ≤ 64 }
    ensures places { book_places result ≡ places desk.entry }
    ensures put { (p : ℕ) → book_put result p ≡ put_at desk.entry p }
    ensures own { book_own result ≡ own_of desk.entry }
    ensures got { (p : ℕ) → Begins (got_at desk.entry p) (take (book_taken result p) (book_put result p)) }
{
    let Desk {
        events,
        mut seen,
        handles,
        own,
        rt: _,
        alloc: _,
        gate: _,
    } = desk;
    stop_all(&handles);
    let rows = join_all(rt, events, handles, &mut seen, rows);
    events.learn_as::<PopReport>(&mut seen);
    CrewBook { rows, own }
}

/// Starts the containers, turns the dispatcher, closes and joins.
fn crew<'s, E, G: Gate + Sync, H: Dispatch, R: Threads + Wait + Sync>(
    scope: &Scope<'s, E>,
    rt: &'s R,
    alloc: Global,
    gate: &'s G,
    mailboxes: &'s Vec<Mailbox>,
    prepared_places: Vec<PreparedPlace>,
    events: &'s EventQueue,
    seen: EventPass,
    h: &mut H,
) -> Result<CrewBook, AllocError>
    requires open { IsPrepared mailboxes.now.items prepared_places.items
        × (length mailboxes.now.items ≡ length prepared_places.items) }
    requires few { length prepared_places.items ≤ 64 }
    requires seen { IsPassOf events.now seen × (view seen ≡ getter [] 0 []) }
    ensures finished { OnOk result (H.finished h.new) }
    ensures kept { OnOk result (H.kept h.old h.new) }
    ensures places { IfOk result (λ b. book_places b ≡ length prepared_places.items) }
    ensures own { IfOk result (λ b. H.owned h.new ≡ H.owned h.old ++ book_own b) }
    ensures put { IfOk result (λ b. (p : ℕ) → H.queued h.new p ≡ H.queued h.old p ++ book_put b p) }
    ensures got { IfOk result (λ b. (p : ℕ)
        → KeepsBook (H.got h.old p) (H.got h.new p) (book_taken b p) (book_put b p)) }
    ensures memory { OnErr result (h.new ≡ h.old) }
{
    let places = prepared_places.len();
    let handles = Vec::with_capacity(alloc, places)?;
    let rows = Vec::with_capacity(alloc, places)?;
    let (handles, seen) = start_places(
        scope,
        rt,
        alloc,
        gate,
        mailboxes,
        prepared_places,
        events,
        seen,
        handles,
    );
    let mut desk = Desk {
        rt,
        alloc,
        gate,
        events,
        seen,
        handles,
        own: Vec::new(alloc),
    };
    run_turns(rt, h, &mut desk);
    Ok(close(rt, rows, desk))
}

/// Starts a thread for each container, gives turns to the dispatcher until it is done, and joins all
/// threads. At most 64 orders wait at a container, and at most 1,024 reports. A container that finds
/// no room for a report tries again, and drops it once the dispatcher is done. A place for which no
/// thread can be started has all its orders worked by the dispatcher. Want of memory comes before
/// the first turn.
pub fn with_crew<G: Gate + Sync, H: Dispatch, R: Threads + Wait + Sync>(
    rt: &R,
    alloc: Global,
    containers: u32,
    gate: &G,
    h: &mut H,
) -> Result<CrewBook, AllocError>
    requires { (1 ≤ containers) × (containers ≤ 64) }
    ensures finished { OnOk result (H.finished h.new) }
    ensures kept { OnOk result (H.kept h.old h.new) }
    ensures places { IfOk result (λ b. book_places b ≡ containers) }
    ensures own { IfOk result (λ b. H.owned h.new ≡ H.owned h.old ++ book_own b) }
    ensures put { IfOk result (λ b. (p : ℕ) → H.queued h.new p ≡ H.queued h.old p ++ book_put b p) }
    ensures got { IfOk result (λ b. (p : ℕ)
        → KeepsBook (H.got h.old p) (H.got h.new p) (book_taken b p) (book_put b p)) }
    ensures memory { OnErr result (h.new ≡ h.old) }
{
    let (mailboxes, prepared_places) = make_mailboxes(alloc, containers)?;
    let (events, seen) = EventQueue::ruled(alloc, WAITING_REPORTS)?;
    let (mailboxes, events) = (&mailboxes, &events);
    let (result, _h) = thread::scope(
        thread::scope_env(),
        rt,
        move |scope| -> (Result<CrewBook, AllocError>, &mut H)
            requires open { IsPrepared mailboxes.now.items prepared_places.items
                × (length mailboxes.now.items ≡ length prepared_places.items) }
            requires few { length prepared_places.items ≤ 64 }
            requires seen { IsPassOf events.now seen × (view seen ≡ getter [] 0 []) }
            ensures same { result.1.ghost_name ≡ h.entry.ghost_name }
            ensures finished { OnOk result.0 (H.finished result.1.now) }
            ensures kept { OnOk result.0 (H.kept h.entry.now result.1.now) }
            ensures places { IfOk result.0 (λ b. book_places b ≡ length prepared_places.items) }
            ensures own { IfOk result.0 (λ b. H.owned result.1.now ≡ H.owned h.entry.now ++ book_own b) }
            ensures put { IfOk result.0 (λ b. (p : ℕ)
                → H.queued result.1.now p ≡ H.queued h.entry.now p ++ book_put b p) }
            ensures got { IfOk result.0 (λ b. (p : ℕ)
                → KeepsBook (H.got h.entry.now p) (H.got result.1.now p) (book_taken b p) (book_put b p)) }
            ensures memory { OnErr result.0 (result.1.now ≡ h.entry.now) }
        {
            let book = crew(
                scope,
                rt,
                alloc,
                gate,
                mailboxes,
                prepared_places,
                events,
                seen,
                h,
            );
            (book, h)
        },
    );
    result
}
