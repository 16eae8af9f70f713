// The two calls of a desk.
ghost use Rattle.std.specs.Prelude.{◌≡◌, ◌≢◌, ℕ, ◌<◌, ◌≤◌, ◌++◌, ◌∷◌, [], ◌⊎◌, length, slice_index_or, vec_len, IsTrue, IsFalse, OnOk, IfOk, IfErr, OnErr, Ok, Some, None};
ghost use Rattle.crossbeam_queue.specs.Passes.{view};
ghost use Rattle.tez_crew.specs.Desks.{places, put_at, got_at, own_of, Adds, MayBeOwn, IsRunningAt};

use crate::desk::Desk;
use crate::event_queue::PopReport;
use crate::place_handle::{ContainerThread, Refusal};
use std::sync::Wait;
use tez_orders::{Order, Report, work};
use tez_ports::Gate;

/// The answer to an order that was put: it waits for its container, or it was worked by the caller,
/// with this report.
#[derive(Drop)]
pub enum PutAnswer {
    Queued,
    Own(Report),
}

impl<'a, G: Gate, R: Wait> Desk<'a, G, R> {
    /// Gives an order to the container of its place. Where 64 orders wait there, or the place has no
    /// container that runs, the order is worked here and its report answered. The order comes back
    /// where there is no memory to note it; then nothing was done with it.
    pub fn put_order(&mut self, order: Order) -> Result<PutAnswer, Order>
        ensures queued { result ≡ Ok PutAnswer.Queued
            → Adds order.place order.attempt (put_at self.old) (put_at self.new) × (own_of self.new ≡ own_of self.old) }
        ensures own { (r : Report) → result ≡ Ok (PutAnswer.Own r) → (r.order ≡ order)
            × (own_of self.new ≡ own_of self.old ++ order.attempt ∷ [])
            × ((p : ℕ) → put_at self.new p ≡ put_at self.old p) × MayBeOwn self.old order.place }
        ensures refused { IfErr result (λ o. (o ≡ order) × (own_of self.new ≡ own_of self.old)
            × ((p : ℕ) → put_at self.new p ≡ put_at self.old p)) }
        ensures got { (p : ℕ) → got_at self.new p ≡ got_at self.old p }
        ensures places { places self.new ≡ places self.old }
    {
        match self.offer_at(order) {
            Ok(()) => Ok(PutAnswer::Queued),
            Err((Refusal::NoMemory, back)) => Err(back),
            Err((Refusal::Busy, back)) => self.work_here(back),
        }
    }

    fn offer_at(&mut self, order: Order) -> Result<(), (Refusal, Order)>
        ensures queued { OnOk result (Adds order.place order.attempt (put_at self.old) (put_at self.new)) }
        ensures refused { IfErr result (λ e. (e.1 ≡ order) × ((p : ℕ) → put_at self.new p ≡ put_at self.old p)) }
        ensures busy { IfErr result (λ e. e.0 ≡ Refusal.Busy → MayBeOwn self.old order.place) }
        ensures rest { (own_of self.new ≡ own_of self.old) × ((p : ℕ) → got_at self.new p ≡ got_at self.old p)
            × (places self.new ≡ places self.old) }
    {
        let place = order.place() as usize;
        if place >= self.handles.len() {
            return Err((Refusal::Busy, order));
        }
        let rt = self.rt;
        let place_handle = &mut self.handles[place];
        if !place_handle.is_running() {
            return Err((Refusal::Busy, order));
        }
        place_handle.offer(rt, order)
    }

    fn work_here(&mut self, order: Order) -> Result<PutAnswer, Order>
        ensures own { IfOk result (λ a. (r : Report) × (a ≡ PutAnswer.Own r) × (r.order ≡ order)
            × (own_of self.new ≡ own_of self.old ++ order.attempt ∷ [])) }
        ensures refused { IfErr result (λ o. (o ≡ order) × (own_of self.new ≡ own_of self.old)) }
        ensures rest { ((p : ℕ) → put_at self.new p ≡ put_at self.old p)
            × ((p : ℕ) → got_at self.new p ≡ got_at self.old p) × (places self.new ≡ places self.old) }
    {
        if self.own.reserve(1).is_err() {
            return Err(order);
        }
        let attempt = order.attempt();
        self.gate.enter(attempt);
        self.own.push_reserved(attempt);
        Ok(PutAnswer::Own(work(self.alloc, order)))
    }

    /// The next report, if one waits. The reports of a container come in the order of its orders.
    pub fn take_report(&mut self) -> Option<Report>
        ensures some { (r : Report) → result ≡ Some r
            → Adds r.order.place r.order.attempt (got_at self.old) (got_at self.new) }
        ensures none { result ≡ None → ((p : ℕ) → got_at self.new p ≡ got_at self.old p) }
        ensures rest { ((p : ℕ) → put_at self.new p ≡ put_at self.old p) × (own_of self.new ≡ own_of self.old)
            × (places self.new ≡ places self.old) }
    {
        let rt = self.rt;
        self.events.pop_as::<PopReport, R>(rt, &mut self.seen)
    }
}
