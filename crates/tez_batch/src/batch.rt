// A list of orders, and what a crew made of it.
ghost use Rattle.std.specs.Prelude.{◌≡◌, ◌↔◌, ℕ, ◌<◌, [], true, false, vec_len, vec_capacity, refl};
ghost use Rattle.std.proofs.Common.{◌∙◌};
ghost use Rattle.tez_crew.specs.Lists.{Gains};
ghost use Rattle.tez_crew.specs.Events.{of};
ghost use Rattle.tez_crew.specs.Desks.{places, put_at, got_at, own_of};
ghost use Rattle.tez_batch.specs.Marks.{marked};

use std::alloc::Global;
use std::collections::VecDeque;
use std::sync::Wait;
use std::thread;
use tez_crew::{Desk, Dispatch, PutAnswer, Turn};
use tez_ids::AttemptId;
use tez_orders::{Order, Report};
use tez_ports::Gate;

/// Orders that wait to be put, and what became of those before them. It ends once all are put and,
/// where it waits for reports, as many are taken as orders were queued; or for want of memory.
#[derive(Drop)]
pub struct Batch {
    /// The orders that are not yet put.
    pub orders: VecDeque<Order>,
    /// The queued orders, each by its place and attempt.
    pub queued: Vec<(u32, AttemptId)>,
    /// The attempts whose orders were worked by the dispatcher's thread.
    pub own: Vec<AttemptId>,
    /// The reports that were taken.
    pub reports: Vec<Report>,
    /// Whether it waits for the reports.
    pub waits: bool,
    pub done: bool,
}

impl Batch {
    pub fn new(alloc: Global, orders: VecDeque<Order>, waits: bool) -> Batch
        ensures orders { result.orders.items ≡ orders.items }
        ensures nothing { (result.queued.items ≡ []) × (result.own.items ≡ []) × (result.reports.items ≡ []) }
        ensures waits { result.waits ≡ waits }
        ensures done { result.done ≡ false }
    {
        Batch {
            orders,
            queued: Vec::new(alloc),
            own: Vec::new(alloc),
            reports: Vec::new(alloc),
            waits,
            done: false,
        }
    }

    fn put<G: Gate, R: Wait>(&mut self, desk: &mut Desk<'_, G, R>, order: Order) -> Turn
        requires room { (vec_len self.old.queued < vec_capacity self.old.queued)
            × (vec_len self.old.own < vec_capacity self.old.own) }
        requires done { self.old.done ≡ true }
        ensures queued { (p : ℕ) → Gains (marked p self.old.queued.items) (marked p self.new.queued.items) (put_at desk.old p) (put_at desk.new p) }
        ensures got { (p : ℕ) → got_at desk.new p ≡ got_at desk.old p }
        ensures reports { self.new.reports.items ≡ self.old.reports.items }
        ensures owned { Gains self.old.own.items self.new.own.items (own_of desk.old) (own_of desk.new) }
        ensures done { result ≡ Turn.Done ↔ self.new.done ≡ true }
        ensures waits { self.new.waits ≡ self.old.waits }
        ensures places { places desk.new ≡ places desk.old }
    {
        let place = order.place();
        let attempt = order.attempt();
        match desk.put_order(order) {
            Ok(PutAnswer::Queued) => {
                self.queued.push_reserved((place, attempt));
                self.done = false;
                Turn::More
            }
            Ok(PutAnswer::Own(_)) => {
                self.own.push_reserved(attempt);
                self.done = false;
                Turn::More
            }
            Err(_) => Turn::Done,
        }
    }

    fn take<G: Gate, R: Wait>(&mut self, desk: &mut Desk<'_, G, R>) -> Turn
        requires room { vec_len self.old.reports < vec_capacity self.old.reports }
        requires done { self.old.done ≡ true }
        ensures queued { (p : ℕ) → put_at desk.new p ≡ put_at desk.old p }
        ensures got { (p : ℕ) → Gains (of p self.old.reports.items) (of p self.new.reports.items) (got_at desk.old p) (got_at desk.new p) }
        ensures owned { own_of desk.new ≡ own_of desk.old }
        ensures same { (self.new.queued.items ≡ self.old.queued.items) × (self.new.own.items ≡ self.old.own.items) }
        ensures done { result ≡ Turn.Done ↔ self.new.done ≡ true }
        ensures waits { self.new.waits ≡ self.old.waits }
        ensures places { places desk.new ≡ places desk.old }
    {
        if !self.waits || self.reports.len() >= self.queued.len() {
            return Turn::Done;
        }
        self.done = false;
        match desk.take_report() {
            Some(report) => self.reports.push_reserved(report),
            None => thread::yield_now(),
        }
        Turn::More
    }
}

impl Dispatch for Batch {
    ghost queued = { λ s p. marked p s.queued.items };

    ghost got = { λ s p. of p s.reports.items };

    ghost owned = { λ s. s.own.items };

    ghost finished = { λ s. s.done ≡ true };

    ghost kept = { λ a b. b.waits ≡ a.waits };

    ghost keeps_itself = { λ s. refl };

    ghost keeps_on = { λ a b c h k. k ∙ h };

    fn turn<G: Gate, R: Wait>(&mut self, desk: &mut Desk<'_, G, R>) -> Turn {
        self.done = true;
        if self.queued.reserve(1).is_err() {
            return Turn::Done;
        }
        if self.own.reserve(1).is_err() {
            return Turn::Done;
        }
        if self.reports.reserve(1).is_err() {
            return Turn::Done;
        }
        match self.orders.pop_front() {
            Some(order) => self.put(desk, order),
            None => self.take(desk),
        }
    }
}
