// The work on an order.
ghost use Rattle.std.specs.Prelude.{◌≡◌, ◌⊎◌, ◌++◌, ℕ, List, Some, IsTrue, IfOk, OnOk, length, ◌<◌, ◌^◌, sum_by};
ghost use Rattle.tez_shelves.specs.Piece.{size};
ghost use Rattle.std.specs.List.{list_all};
ghost use Rattle.tez_lists.specs.Tables.{each_from};
ghost use Rattle.tez_partition.specs.Partition.{split};
ghost use Rattle.tez_orders.specs.Fit.{has_parts};
ghost use Rattle.tez_orders.specs.Outcomes.{IsOutcome, IsCutOf, bad_of, cut_of, pieces_of};
ghost use Rattle.tez_orders.specs.declared.report.Outcome.TheVariants.{Bad, NoMemory};

use crate::cut::Cut;
use crate::order::Order;
use crate::report::{Outcome, Report};
use std::alloc::{AllocError, Global};
use tez_ids::EdgeId;
use tez_operators::{ProcessFault, process};
use tez_partition::split;
use tez_record::Records;
use tez_shelves::Pieces;

/// Works an order, and reports what came of it. It always returns. Where a record is bad the report
/// names it, and nothing is cut; where memory is refused, or the pieces would have 2^63 bytes or
/// more together, the outcome is want of memory.
#[tactic(auto, unfolding(crate::specs::Outcomes::IsOutcome))]
pub fn work(alloc: Global, order: Order) -> Report
    ensures order { result.order ≡ order }
    ensures outcome { IsOutcome order result.outcome }
    ensures bad { (r : List ℕ) → bad_of order ≡ Some r → (result.outcome ≡ Bad r) ⊎ (result.outcome ≡ NoMemory) }
{
    let outcome = outcome_of(alloc, &order);
    Report::new(order, outcome)
}

#[tactic(auto, unfolding(crate::specs::Outcomes::IsOutcome))]
fn outcome_of(alloc: Global, order: &Order) -> Outcome
    ensures { IsOutcome order.now result }
{
    match process(alloc, order.program(), order.keys(), order.inputs()) {
        Err(ProcessFault::BadRecord(record)) => Outcome::Bad(record),
        Err(ProcessFault::NoMemory) => Outcome::NoMemory,
        Ok(value) => done(alloc, value, order.outs()),
    }
}

fn done(alloc: Global, value: Records, outs: &[(EdgeId, Cut)]) -> Outcome
    requires { IsTrue (list_all (λ out. has_parts out.1) outs.now) }
    ensures { IsCutOf value outs.now result }
{
    match cut_all(alloc, &value, outs) {
        Ok(pieces) => Outcome::Done { value, pieces },
        Err(_full) => Outcome::NoMemory,
    }
}

/// The pieces for all edges.
fn cut_all(alloc: Global, value: &Records, outs: &[(EdgeId, Cut)]) -> Result<Pieces, AllocError>
    requires { IsTrue (list_all (λ out. has_parts out.1) outs.now) }
    ensures pieces { IfOk result (λ pieces. pieces ≡ pieces_of outs.now value.now) }
    ensures small { IfOk result (λ pieces. sum_by size pieces < 2 ^ 63) }
{
    let mut pieces = Pieces::new(alloc);
    for (edge, cut) in outs {
        push_cut(alloc, &mut pieces, *edge, cut, value)?;
    }
    let _bytes = pieces.total();
    Ok(pieces)
}

/// Adds the pieces for one edge.
fn push_cut(
    alloc: Global,
    pieces: &mut Pieces,
    edge: EdgeId,
    cut: &Cut,
    value: &Records,
) -> Result<(), AllocError>
    requires { IsTrue (has_parts cut.now) }
    ensures { OnOk result (pieces.new ≡ pieces.old ++ cut_of value.now edge cut.now) }
{
    match cut {
        Cut::Whole => pieces.push(edge, 0, value),
        Cut::ByKey { cols, parts } => push_split(
            alloc,
            pieces,
            edge,
            cols.as_slice(),
            *parts,
            value,
        ),
    }
}

/// Adds the parts of a value as the outputs of an edge.
fn push_split(
    alloc: Global,
    pieces: &mut Pieces,
    edge: EdgeId,
    cols: &[u16],
    parts: u32,
    value: &Records,
) -> Result<(), AllocError>
    requires { 0 < parts }
    ensures { OnOk result (pieces.new ≡ pieces.old ++ each_from 0 (λ p rs. (edge, p, rs)) (split cols.now parts value.now)) }
{
    let made = split(alloc, value, cols, parts)?;
    push_parts(pieces, edge, made.as_slice())
}

/// Adds parts as the outputs of an edge, numbered from 0.
fn push_parts(pieces: &mut Pieces, edge: EdgeId, parts: &[Records]) -> Result<(), AllocError>
    requires { length parts.now < 2 ^ 32 }
    ensures { OnOk result (pieces.new ≡ pieces.old ++ each_from 0 (λ p rs. (edge, p, rs)) parts.now) }
{
    let mut output = 0;
    for part in parts {
        pieces.push(edge, output, part)?;
        output += 1;
    }
    Ok(())
}
