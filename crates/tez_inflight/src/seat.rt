// The seat of a place.
ghost use Rattle.std.specs.Prelude.{◌≡◌, if◌then◌else◌, map, IsTrue, MatchOption, Some, None, is_ok, IfOk};
ghost use Rattle.tez_inflight.specs.Seats.{Vacant, Gathers, Out, number, numbered, nothing_over, numbers_differ, gathering, gatherer, order_of, attempt_of};
ghost use Rattle.tez_inflight.specs.Held.{seat_of, IsNumbered};

use crate::parts::{gather, no_parts};
use std::alloc::{AllocError, Global};
use std::marker::Model;
use tez_ids::{AttemptId, EdgeId};
use tez_orders::Order;
use tez_record::Records;
use tez_shelves::Piece;

/// What is on a seat: nothing, what an attempt that waits has gathered, or the order that went out.
#[derive(Drop)]
pub(crate) enum Work {
    Nothing,
    Parts {
        attempt: AttemptId,
        parts: Vec<(EdgeId, Records)>,
    },
    Sent(Order),
}

/// The seat of a place.
#[derive(Drop)]
pub(crate) struct Held {
    work: Work,
}

impl Model for Held {
    ghost use Rattle.tez_inflight.specs.Seats.{Seat};

    ghost Value = { Seat };

    ghost use Rattle.tez_inflight.specs.Held.{seat_of, IsNumbered};

    ghost view = { λ h. seat_of h.work };

    ghost invariant = { λ h. IsNumbered (seat_of h.work) };
}

impl Held {
    pub fn vacant() -> Held
        ensures { result ≡ Vacant }
    {
        Held {
            work: Work::Nothing,
        }
    }

    /// Of an attempt that has gathered nothing over these edges.
    pub fn gathering(alloc: Global, a: AttemptId, edges: &[EdgeId]) -> Result<Held, AllocError>
        requires { IsTrue (numbers_differ (map number edges.now)) }
        ensures { IfOk result (λ seat. seat ≡ Gathers a (map nothing_over (map number edges.now))) }
    {
        let parts = no_parts(alloc, edges)?;
        Ok(Held {
            work: Work::Parts { attempt: a, parts },
        })
    }

    pub fn out(order: Order) -> Held
        ensures { result ≡ Out order }
    {
        Held {
            work: Work::Sent(order),
        }
    }

    /// Adds the records of a piece to the part of an edge, or none.
    pub fn gather(
        &mut self,
        alloc: Global,
        edge: EdgeId,
        piece: &Piece<'_>,
    ) -> Result<(), AllocError>
        ensures { self.new ≡ (if is_ok result then gathering edge.0 piece.now self.old else self.old) }
    {
        gather_to(alloc, &mut self.work, edge, piece)
    }

    /// The attempt that waits, and what it has gathered.
    pub fn gathered(&self) -> Option<(AttemptId, &[(EdgeId, Records)])>
        ensures { MatchOption result (gatherer self.now ≡ None) (λ g. self.now ≡ Gathers g.0 (map numbered g.1.now)) }
    {
        match &self.work {
            Work::Parts { attempt, parts } => Some((*attempt, parts.as_slice())),
            Work::Nothing | Work::Sent(_) => None,
        }
    }

    /// The order that went out.
    pub fn order(&self) -> Option<&Order>
        ensures { MatchOption result (order_of self.now ≡ None) (λ o. self.now ≡ Out o.now) }
    {
        match &self.work {
            Work::Sent(order) => Some(order),
            Work::Nothing | Work::Parts { .. } => None,
        }
    }

    pub fn attempt(&self) -> Option<AttemptId>
        ensures { result ≡ attempt_of self.now }
    {
        match &self.work {
            Work::Nothing => None,
            Work::Parts { attempt, .. } => Some(*attempt),
            Work::Sent(order) => Some(order.attempt()),
        }
    }
}

fn gather_to(
    alloc: Global,
    work: &mut Work,
    edge: EdgeId,
    piece: &Piece<'_>,
) -> Result<(), AllocError>
    requires { IsNumbered (seat_of work.old) }
    ensures { seat_of work.new ≡ (if is_ok result then gathering edge.0 piece.now (seat_of work.old) else seat_of work.old) }
{
    match work {
        Work::Parts { parts, .. } => gather(alloc, parts.as_mut_slice(), edge, piece),
        Work::Nothing | Work::Sent(_) => Ok(()),
    }
}
