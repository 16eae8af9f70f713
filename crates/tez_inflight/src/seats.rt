ghost use Rattle.std.specs.Prelude.{◌≡◌, ◌↔◌, ◌+◌, ◌<◌, ◌^◌, [], if◌then◌else◌, IsTrue, MatchOption, Some, None, is_ok, IfOk, map, replicate, slice_set};
ghost use Rattle.tez_lists.specs.Numbers.{numbers_from};
ghost use Rattle.tez_inflight.specs.Seats.{Vacant, Gathers, number, numbered, numbers_differ, seat_at, attempt_of, gatherer, order_of, is_out, order_out, first_order, new_seats, after_seat, after_gather, after_send, after_leave, after_leaves, after_take, gathering};

use crate::orders::withdraw;
use crate::seat::Held;
use std::alloc::{AllocError, Global};
use std::collections::VecDeque;
use std::marker::Model;
use tez_ids::{AttemptId, EdgeId};
use tez_orders::Order;
use tez_record::Records;
use tez_shelves::Piece;

/// By place, what the attempt there has gathered while it waits, and its order once that is out; and
/// the queue of the orders that are out and were not taken, in the order in which they went out.
#[derive(Drop)]
pub struct Seats {
    seats: Vec<Held>,
    orders: VecDeque<Order>,
}

impl Model for Seats {
    ghost use Rattle.std.specs.Prelude.{map};
    ghost use Rattle.std.specs.VecDeque.{deque_len, deque_capacity};
    ghost use Rattle.tez_inflight.specs.Seats.{SeatsState};
    ghost use Rattle.tez_inflight.specs.Given.{attempt, AreGiven};

    ghost Value = { SeatsState };

    ghost view = { λ d. record { seats = d.seats.items; queue = map attempt d.orders.items } };

    ghost invariant = { λ d. AreGiven d.seats.items d.orders.items (deque_len d.orders) (deque_capacity d.orders) };
}

impl Seats {
    /// Vacant seats of so many places, and no orders. Linear in the places.
    pub fn new(alloc: Global, places: u32) -> Result<Seats, AllocError>
        ensures { IfOk result (λ seats. seats ≡ new_seats places) }
    {
        Ok(Seats {
            seats: vacant_seats(alloc, places)?,
            orders: VecDeque::new(alloc),
        })
    }

    /// Lets an attempt wait at a place from which no order is out, with nothing gathered over these
    /// edges, or changes nothing. It takes room for the attempt's order. Linear in the edges.
    pub fn seat(
        &mut self,
        alloc: Global,
        place: u32,
        a: AttemptId,
        edges: &[EdgeId],
    ) -> Result<(), AllocError>
        requires free { order_of (seat_at self.old.seats place) ≡ None }
        requires differ { IsTrue (numbers_differ (map number edges.now)) }
        ensures { self.new ≡ (if is_ok result then after_seat self.old place a (map number edges.now) else self.old) }
    {
        let seat = Held::gathering(alloc, a, edges)?;
        self.orders.reserve(self.seats.len())?;
        set_seat(&mut self.seats, place as usize, seat);
        Ok(())
    }

    /// Adds the records of a piece to what the attempt at a place has gathered over an edge, or
    /// changes nothing. Linear in the piece, on average.
    pub fn gather(
        &mut self,
        alloc: Global,
        place: u32,
        edge: EdgeId,
        piece: &Piece<'_>,
    ) -> Result<(), AllocError>
        ensures { self.new ≡ (if is_ok result then after_gather self.old place edge.0 piece.now else self.old) }
    {
        gather_at(alloc, &mut self.seats, place as usize, edge, piece)
    }

    /// Puts the order of the attempt that waits at a place out: one is kept, and an equal one waits
    /// to be taken. Takes no memory.
    pub fn put_out(&mut self, place: u32, kept: Order, given: Order)
        requires same { given ≡ kept }
        requires waits { gatherer (seat_at self.old.seats place) ≡ Some kept.attempt }
        requires alone { order_out self.old.seats kept.attempt ≡ None }
        ensures { self.new ≡ after_send self.old place kept }
    {
        self.orders.push_back_reserved(given);
        set_seat(&mut self.seats, place as usize, Held::out(kept));
    }

    /// Clears the seat of a place, and withdraws its order from the queue. Takes no memory. Linear
    /// in the queue.
    pub fn leave(&mut self, place: u32)
        ensures { self.new ≡ after_leave self.old place }
    {
        self.leave_at(place as usize);
    }

    /// The same for so many places from the first one on.
    pub fn leave_all(&mut self, first: u32, count: u32)
        ensures { self.new ≡ after_leaves self.old (numbers_from first count) }
    {
        let start = first as usize;
        let end = start + count as usize;
        for place in start..end {
            self.leave_at(place);
        }
    }

    fn leave_at(&mut self, place: usize)
        ensures { self.new ≡ after_leave self.old place }
    {
        if place < self.seats.len() {
            withdraw(&mut self.orders, &self.seats[place]);
            set_seat(&mut self.seats, place, Held::vacant());
        }
    }

    /// The first order of the queue, which leaves it. Takes no memory.
    pub fn take(&mut self) -> Option<Order>
        ensures order { result ≡ first_order self.old }
        ensures none { result ≡ None ↔ self.old.queue ≡ [] }
        ensures state { self.new ≡ after_take self.old }
    {
        self.orders.pop_front()
    }

    /// The attempt that waits at a place, and what it has gathered by edge.
    pub fn gathered(&self, place: u32) -> Option<(AttemptId, &[(EdgeId, Records)])>
        ensures { MatchOption result (gatherer (seat_at self.now.seats place) ≡ None) (λ g. seat_at self.now.seats place ≡ Gathers g.0 (map numbered g.1.now)) }
    {
        self.seats.get(place as usize)?.gathered()
    }

    /// The order of the attempt at a place, where it is out.
    pub fn order_at(&self, place: u32) -> Option<&Order>
        ensures { MatchOption result (order_of (seat_at self.now.seats place) ≡ None) (λ o. order_of (seat_at self.now.seats place) ≡ Some o.now) }
    {
        self.seats.get(place as usize)?.order()
    }

    /// The attempt at a place, which waits or whose order is out.
    pub fn attempt_at(&self, place: u32) -> Option<AttemptId>
        ensures { result ≡ attempt_of (seat_at self.now.seats place) }
    {
        self.seats.get(place as usize)?.attempt()
    }

    /// Whether the order of the attempt at a place is out.
    pub fn is_out(&self, place: u32) -> bool
        ensures { result ≡ is_out (seat_at self.now.seats place) }
    {
        self.order_at(place).is_some()
    }
}

fn vacant_seats(alloc: Global, places: u32) -> Result<Vec<Held>, AllocError>
    ensures { IfOk result (λ seats. seats.items ≡ replicate places Vacant) }
{
    let mut seats = Vec::with_capacity(alloc, places as usize)?;
    for place in 0..places {
        seats.push(Held::vacant())?;
    }
    Ok(seats)
}

// Changes nothing where there is no such place.
fn set_seat(seats: &mut Vec<Held>, place: usize, seat: Held)
    ensures { seats.new.items ≡ slice_set seats.old.items place seat }
{
    if place < seats.len() {
        seats[place] = seat;
    }
}

fn gather_at(
    alloc: Global,
    seats: &mut Vec<Held>,
    place: usize,
    edge: EdgeId,
    piece: &Piece<'_>,
) -> Result<(), AllocError>
    ensures { seats.new.items ≡ (if is_ok result then slice_set seats.old.items place (gathering edge.0 piece.now (seat_at seats.old.items place)) else seats.old.items) }
{
    if place < seats.len() {
        return seats[place].gather(alloc, edge, piece);
    }
    Ok(())
}
