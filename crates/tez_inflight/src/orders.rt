// The orders that are out and were not taken.
ghost use Rattle.std.specs.Prelude.{◌≡◌, ◌≤◌, not};
ghost use Rattle.std.specs.VecDeque.{deque_len, deque_capacity};
ghost use Rattle.std.specs.List.{filter};
ghost use Rattle.tez_ids.specs.Same.{same_attempt};
ghost use Rattle.tez_inflight.specs.Given.{withdrawn};

use crate::seat::Held;
use std::collections::VecDeque;
use tez_ids::AttemptId;
use tez_orders::Order;

/// The queue without the orders of an attempt.
fn drop_order(orders: &mut VecDeque<Order>, a: AttemptId)
    ensures items { orders.new.items ≡ filter (λ o. not (same_attempt o.attempt a)) orders.old.items }
    ensures len { deque_len orders.new ≤ deque_len orders.old }
    ensures capacity { deque_capacity orders.new ≡ deque_capacity orders.old }
{
    orders.retain(|o| o.attempt() != a);
}

/// The queue without the order of a seat.
pub(crate) fn withdraw(orders: &mut VecDeque<Order>, seat: &Held)
    ensures items { orders.new.items ≡ withdrawn seat.now orders.old.items }
    ensures len { deque_len orders.new ≤ deque_len orders.old }
    ensures capacity { deque_capacity orders.new ≡ deque_capacity orders.old }
{
    if let Some(order) = seat.order() {
        drop_order(orders, order.attempt());
    }
}
