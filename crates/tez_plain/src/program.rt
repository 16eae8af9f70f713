ghost use Rattle.std.specs.Prelude.{◌≡◌, None, IfOk, IfErr, OnOk};
ghost use Rattle.tez_record.specs.Bag.{sort};
ghost use Rattle.tez_values.specs.Steps.{run, bad_in_steps};
ghost use Rattle.tez_values.specs.Program.{first_bad, least_of, output};
ghost use Rattle.tez_plain.specs.Answer.{IsBadAnswer};

use crate::fault::PlainFault;
use crate::heads::evaluate_head;
use crate::reads::HeadReads;
use crate::steps::run_steps;
use std::alloc::{AllocError, Global};
use tez_plan::{Head, Step};
use tez_record::Records;

/// The bag that a head and then its steps make of what the head reads. A head by key, a join and
/// a look among the side's keys sort by key; each step is a pass over all rows. It takes memory
/// for the rows of one step beside the next, and for each key.
pub fn evaluate(
    alloc: Global,
    head: &Head,
    steps: &[Step],
    inputs: &HeadReads,
) -> Result<Records, PlainFault>
    ensures value { IfOk result (λ value. value ≡ output head.now steps.now inputs.now) }
    ensures no_bad { IfOk result (λ value. first_bad head.now steps.now inputs.now ≡ None) }
    ensures bad { IfErr result (λ fault. IsBadAnswer fault (first_bad head.now steps.now inputs.now)) }
{
    match evaluate_head(alloc, head, inputs) {
        Ok(rows) => value_of(alloc, steps, rows),
        Err(fault) => Err(fault),
    }
}

/// The sorted records that the steps make of the rows of a head.
fn value_of(alloc: Global, steps: &[Step], rows: Records) -> Result<Records, PlainFault>
    ensures value { IfOk result (λ value. value ≡ sort (run steps.now rows)) }
    ensures no_bad { OnOk result (least_of (bad_in_steps steps.now rows) ≡ None) }
    ensures bad { IfErr result (λ fault. IsBadAnswer fault (least_of (bad_in_steps steps.now rows))) }
{
    match run_steps(alloc, steps, rows) {
        Ok(made) => match made.sorted(alloc) {
            Ok(value) => Ok(value),
            Err(AllocError) => Err(PlainFault::NoMemory),
        },
        Err(fault) => Err(fault),
    }
}
