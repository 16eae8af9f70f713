// The queue of one container's orders, and what each of its two passes knows.
use crossbeam_queue::protocol::{Join, Lesson, Outcome, Protocol, Split};
use crossbeam_queue::{Pass, RuledArrayQueue};
use std::collections::LinkedList;
use tez_ids::AttemptId;
use tez_orders::Order;

/// What a pass may do, and the attempts that it has put and taken. No value of it is made.
pub struct OrderView {
    pub puts: bool,
    pub takes: bool,
    pub put: LinkedList<AttemptId>,
    pub taken: LinkedList<AttemptId>,
}

pub struct OrderRule;

impl Protocol<Order, OrderView> for OrderRule {
    ghost use Rattle.std.specs.Prelude.{true, []};
    ghost use Rattle.tez_crew.specs.Orders.{order_view, OrdersFit};

    ghost holds = { OrdersFit };

    ghost first = { order_view true true [] [] };
}

/// The dispatcher puts, the container takes.
pub struct PutterAndTaker;

impl Split<OrderView> for PutterAndTaker {
    ghost use Rattle.tez_crew.specs.Orders.{putter, taker};

    ghost left = { λ v. putter v.put };

    ghost right = { λ v. taker v.taken };
}

impl Join<OrderView> for PutterAndTaker {
    ghost use Rattle.std.specs.Prelude.{true, false, []};
    ghost use Rattle.tez_crew.specs.Orders.{order_view};

    ghost both = { λ v w. order_view true true v.put w.taken };

    ghost spent = { order_view false false [] [] };
}

pub struct PushOrder;

impl Outcome<Order, OrderView> for PushOrder {
    ghost use Rattle.std.specs.Prelude.{◌≡◌, ◌++◌, ◌∷◌, []};
    ghost use Rattle.tez_crew.specs.Orders.{putter};

    ghost then = { λ v x w. w ≡ putter (v.put ++ x.attempt ∷ []) };
}

impl Lesson<Order, OrderView> for PushOrder {
    ghost use Rattle.tez_crew.specs.Orders.{IsPartLeft};

    ghost fact = { λ v items. IsPartLeft v.put items };
}

pub struct PopOrder;

impl Outcome<Order, OrderView> for PopOrder {
    ghost use Rattle.std.specs.Prelude.{◌≡◌, ◌++◌, ◌∷◌, []};
    ghost use Rattle.tez_crew.specs.Orders.{taker};

    ghost then = { λ v x w. w ≡ taker (v.taken ++ x.attempt ∷ []) };
}

pub struct PutIsTakenAndLeft;

impl Lesson<Order, OrderView> for PutIsTakenAndLeft {
    ghost use Rattle.std.specs.Prelude.{◌≡◌, ◌++◌};
    ghost use Rattle.tez_crew.specs.Orders.{attempts};

    ghost fact = { λ v items. v.put ≡ v.taken ++ attempts items };
}

pub type OrderQueue = RuledArrayQueue<Order, OrderView, OrderRule>;

pub type OrderPass = Pass<Order, OrderView>;
