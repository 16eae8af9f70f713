//! The seats of places: what attempts have gathered, and the orders that are out.
#![tactic(auto)]

ghost use Rattle.std.specs.Prelude.{◌≡◌, ℕ, Bool, List, map, Some, None, IsTrue};
ghost use Rattle.std.specs.List.{filter, enumerate_from};
ghost use Rattle.tez_ids.specs.declared.AttemptId.{AttemptId};
ghost use Rattle.tez_orders.specs.Orders.{OrderParts};
ghost use Rattle.tez_plan.specs.declared.parts.EdgeSpec.{EdgeSpec};
ghost use Rattle.tez_inflight.specs.Seats.{Seat, Out, seat_at, order_out, IsAtSeat, numbers_differ};

mod orders;
mod parts;
mod seat;
mod seats;

pub use seats::Seats;

/// The order of an attempt that is out lies at a seat, and no order of an attempt is out where no
/// seat has one.
pub fn orders_are_at_seats()
    ensures there { (seats : List Seat) (a : AttemptId) (o : OrderParts) → order_out seats a ≡ Some o → IsAtSeat seats a o }
    ensures none { (seats : List Seat) (a : AttemptId) → ((p : ℕ) (o : OrderParts) → seat_at seats p ≡ Out o → o.attempt ≡ a → ⊥) → order_out seats a ≡ None }
{}

/// The edges of a plan that pass a test, as those into a vertex, have different numbers.
pub fn edges_differ()
    ensures { (test : ℕ × EdgeSpec → Bool) (edges : List EdgeSpec) → IsTrue (numbers_differ (map (λ e. e.0) (filter test (enumerate_from 0 edges)))) }
{}
