// Steps over records.
ghost use Rattle.std.specs.Prelude.{◌≡◌, ◌<◌, None, IfOk, IfErr, OnOk, length};
ghost use Rattle.std.specs.List.{filter};
ghost use Rattle.tez_values.specs.Steps.{is_bad_for, run, bad_in_steps};
ghost use Rattle.tez_values.specs.Program.{least_of};
ghost use Rattle.tez_operators.specs.Process.{IsBadAnswer};
ghost use Rattle.tez_operators.specs.Fuse.{IsPass};

use crate::fault::ProcessFault;
use crate::filters::reads_number;
use crate::fuse::{fused, pass_len};
use std::alloc::{AllocError, Global};
use tez_plan::Step;
use tez_record::{Records, least, number};

/// What the steps make of the rows, or the least bad record of the first step that has one. It
/// goes over the rows once for each step that reads a number, with the steps up to the next such.
pub fn run_steps(alloc: Global, steps: &[Step], rows: Records) -> Result<Records, ProcessFault>
    ensures rows { IfOk result (λ made. made ≡ run steps.now rows) }
    ensures no_bad { OnOk result (least_of (bad_in_steps steps.now rows) ≡ None) }
    ensures bad { IfErr result (λ fault. IsBadAnswer fault (least_of (bad_in_steps steps.now rows))) }
{
    let mut made = rows;
    let mut done = 0;
    while done < steps.len() {
        let left = &steps[done..];
        let count = pass_len(left);
        match run_pass(alloc, &left[..count], &made) {
            Ok(next) => made = next,
            Err(fault) => return Err(fault),
        }
        done += count;
    }
    Ok(made)
}

/// Steps of which each past the first is plain, in one pass. Only the first can have a bad record.
fn run_pass(alloc: Global, steps: &[Step], rows: &Records) -> Result<Records, ProcessFault>
    requires some { 0 < length steps.now }
    requires pass { IsPass steps.now }
    ensures rows { IfOk result (λ made. made ≡ run steps.now rows.now) }
    ensures no_bad { OnOk result (least_of (bad_in_steps steps.now rows.now) ≡ None) }
    ensures bad { IfErr result (λ fault. IsBadAnswer fault (least_of (bad_in_steps steps.now rows.now))) }
{
    let bad = bad_records(alloc, &steps[0], rows)?;
    if let Some(line) = least(alloc, &bad)? {
        return Err(ProcessFault::BadRecord(line));
    }
    Ok(fused(alloc, steps, rows)?)
}

fn bad_records(alloc: Global, step: &Step, rows: &Records) -> Result<Records, AllocError>
    ensures { IfOk result (λ bad. bad ≡ filter (is_bad_for step.now) rows.now) }
{
    rows.kept(alloc, |line| is_bad(step, line))
}

/// Whether the step reads a field that is no number.
fn is_bad(step: &Step, line: &[u8]) -> bool
    ensures { result ≡ is_bad_for step.now line.now }
{
    match step {
        Step::Filter { field, test } => reads_number(test) && number(line, *field).is_none(),
        Step::Tokenise | Step::Project { .. } => false,
    }
}
