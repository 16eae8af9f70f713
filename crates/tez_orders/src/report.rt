// What came of an order.
ghost use Rattle.std.specs.Prelude.{◌≡◌, IfOk};
ghost use Rattle.tez_orders.specs.Outcomes.{IsOutcome};

use crate::order::Order;
use std::alloc::{AllocError, Global};
use std::marker::Model;
use tez_record::{Record, Records};
use tez_shelves::Pieces;

/// What came of an order.
#[derive(Drop)]
pub enum Outcome {
    /// The program's value, and the pieces that it was cut into.
    Done { value: Records, pieces: Pieces },
    /// A record with a field that is no number where one is read.
    Bad(Record),
    /// There was no memory for the value or its pieces.
    NoMemory,
}

/// An order, and what came of it. A value, its pieces and a bad record are those that the order's
/// program gives on its inputs.
#[derive(Drop)]
pub struct Report {
    order: Order,
    outcome: Outcome,
}

impl Model for Report {
    ghost use Rattle.tez_orders.specs.Outcomes.{ReportParts, IsOutcome};

    ghost Value = { ReportParts };

    ghost view = { λ r. record { order = r.order; outcome = r.outcome } };

    ghost invariant = { λ r. IsOutcome r.order r.outcome };
}

impl Report {
    /// The report of what is due for the order.
    pub(crate) fn new(order: Order, outcome: Outcome) -> Report
        requires { IsOutcome order outcome }
        ensures { result ≡ record { order = order; outcome = outcome } }
    {
        Report { order, outcome }
    }

    pub fn order(&self) -> &Order
        ensures { result.now ≡ self.now.order }
    {
        &self.order
    }

    pub fn outcome(&self) -> &Outcome
        ensures same { result.now ≡ self.now.outcome }
        ensures is_due { IsOutcome self.now.order result.now }
    {
        &self.outcome
    }

    pub fn into_parts(self) -> (Order, Outcome)
        ensures order { result.0 ≡ self.order }
        ensures outcome { result.1 ≡ self.outcome }
        ensures is_due { IsOutcome result.0 result.1 }
    {
        (self.order, self.outcome)
    }

    /// The same report with another place in its order. Takes no memory.
    #[tactic(auto, unfolding(crate::specs::Outcomes::IsOutcome))]
    pub fn at_place(self, place: u32) -> Report
        ensures { result ≡ record { order = record self.order { place = place }; outcome = self.outcome } }
    {
        Report {
            order: self.order.at_place(place),
            outcome: self.outcome,
        }
    }

    /// An equal report. Takes memory for all of it.
    pub fn copy(&self, alloc: Global) -> Result<Report, AllocError>
        ensures { IfOk result (λ copy. copy ≡ self.now) }
    {
        Ok(Report {
            order: self.order.copy(alloc)?,
            outcome: self.outcome.copy(alloc)?,
        })
    }
}

impl Outcome {
    /// An equal outcome. Takes memory for all of it.
    pub fn copy(&self, alloc: Global) -> Result<Outcome, AllocError>
        ensures { IfOk result (λ copy. copy ≡ self.now) }
    {
        Ok(match self {
            Outcome::Done { value, pieces } => Outcome::Done {
                value: value.copy(alloc)?,
                pieces: pieces.copy(alloc)?,
            },
            Outcome::Bad(record) => Outcome::Bad(Record::copy_of(alloc, record.as_slice())?),
            Outcome::NoMemory => Outcome::NoMemory,
        })
    }
}
