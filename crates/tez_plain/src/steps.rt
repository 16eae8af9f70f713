// Steps over records.
ghost use Rattle.std.specs.Prelude.{◌≡◌, ◌∷◌, [], None, IfOk, IfErr, OnOk};
ghost use Rattle.std.specs.List.{filter, flat_map};
ghost use Rattle.tez_record.specs.Field.{key};
ghost use Rattle.tez_record.specs.Bag.{sort, first_or};
ghost use Rattle.tez_plan.specs.declared.parts.Step.TheVariants.{Tokenise, Project};
ghost use Rattle.tez_values.specs.Steps.{holds, reads_number, is_bad_for, step_rows, run, bad_in_steps};
ghost use Rattle.tez_values.specs.Program.{least_of};
ghost use Rattle.tez_plain.specs.Answer.{IsBadAnswer};
ghost use Rattle.tez_plain.specs.Keyed.{one_each};
ghost use Rattle.tez_plain.specs.Numbers.{step_reads_number};

use crate::fault::PlainFault;
use crate::words::push_words;
use std::alloc::{AllocError, Global};
use tez_plan::{Step, Test};
use tez_record::{Records, contains, field, least, number};

/// What the steps make of the rows, or the least bad record of the first step that has one.
pub fn run_steps(alloc: Global, steps: &[Step], rows: Records) -> Result<Records, PlainFault>
    ensures rows { IfOk result (λ made. made ≡ run steps.now rows) }
    ensures no_bad { OnOk result (least_of (bad_in_steps steps.now rows) ≡ None) }
    ensures bad { IfErr result (λ fault. IsBadAnswer fault (least_of (bad_in_steps steps.now rows))) }
{
    let mut made = rows;
    for step in steps {
        match evaluate_step(alloc, step, &made) {
            Ok(next) => made = next,
            Err(fault) => return Err(fault),
        }
    }
    Ok(made)
}

/// What a step makes of the rows, or the least bad record.
pub fn evaluate_step(alloc: Global, step: &Step, rows: &Records) -> Result<Records, PlainFault>
    ensures rows { IfOk result (λ made. made ≡ flat_map (step_rows step.now) rows.now) }
    ensures no_bad { OnOk result (sort (filter (is_bad_for step.now) rows.now) ≡ []) }
    ensures bad { IfErr result (λ fault. IsBadAnswer fault (first_or (sort (filter (is_bad_for step.now) rows.now)) None)) }
{
    let bad = bad_records(alloc, step, rows)?;
    if let Some(line) = least(alloc, &bad)? {
        return Err(PlainFault::BadRecord(line));
    }
    Ok(step_over(alloc, step, rows)?)
}

fn bad_records(alloc: Global, step: &Step, rows: &Records) -> Result<Records, AllocError>
    ensures { IfOk result (λ bad. bad ≡ filter (is_bad_for step.now) rows.now) }
{
    if step_reads_number(step) {
        return rows.kept(alloc, |line| is_bad(step, line));
    }
    Ok(Records::new(alloc))
}

fn step_reads_number(step: &Step) -> bool
    ensures { result ≡ step_reads_number step.now }
{
    match step {
        Step::Filter { test, .. } => reads_number(test),
        Step::Tokenise | Step::Project { .. } => false,
    }
}

/// Whether the step reads a field that is no number.
fn is_bad(step: &Step, line: &[u8]) -> bool
    ensures { result ≡ is_bad_for step.now line.now }
{
    match step {
        Step::Filter { field, test } => reads_number(test) && number(line, *field).is_none(),
        Step::Tokenise | Step::Project { .. } => false,
    }
}

fn reads_number(test: &Test) -> bool
    ensures { result ≡ reads_number test.now }
{
    match test {
        Test::Lt(_) | Test::Gt(_) => true,
        Test::Eq(_) | Test::Ne(_) | Test::Contains(_) => false,
    }
}

/// What a step makes of the rows, in their order.
fn step_over(alloc: Global, step: &Step, rows: &Records) -> Result<Records, AllocError>
    ensures { IfOk result (λ made. made ≡ flat_map (step_rows step.now) rows.now) }
{
    match step {
        Step::Tokenise => tokenise(alloc, rows),
        Step::Filter { field, test } => keep(alloc, rows, *field, test),
        Step::Project { cols } => project(alloc, rows, cols.as_slice()),
    }
}

/// The rows of which the test of a field holds.
fn keep(alloc: Global, rows: &Records, i: u16, test: &Test) -> Result<Records, AllocError>
    ensures { IfOk result (λ kept. kept ≡ filter (λ r. holds test.now r i) rows.now) }
{
    rows.kept(alloc, |line| holds(test, line, i))
}

/// Whether the test holds of a field. One of numbers does not where there is no number.
fn holds(test: &Test, line: &[u8], i: u16) -> bool
    ensures { result ≡ holds test.now line.now i }
{
    match test {
        Test::Eq(value) => field(line, i) == value.as_slice(),
        Test::Ne(value) => field(line, i) != value.as_slice(),
        Test::Contains(value) => contains(field(line, i), value.as_slice()),
        Test::Lt(value) => match number(line, i) {
            Some(n) => n < *value,
            None => false,
        },
        Test::Gt(value) => match number(line, i) {
            Some(n) => *value < n,
            None => false,
        },
    }
}

fn tokenise(alloc: Global, rows: &Records) -> Result<Records, AllocError>
    ensures { IfOk result (λ made. made ≡ flat_map (step_rows Tokenise) rows.now) }
{
    let mut made = Records::new(alloc);
    for line in rows.iter() {
        push_words(&mut made, line)?;
    }
    Ok(made)
}

/// The key of each row.
pub fn project(alloc: Global, rows: &Records, cols: &[u16]) -> Result<Records, AllocError>
    ensures { IfOk result (λ made. made ≡ one_each (key cols.now) rows.now) }
{
    let mut made = Records::new(alloc);
    for line in rows.iter() {
        made.push_key(line, cols)?;
    }
    Ok(made)
}
