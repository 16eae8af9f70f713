// Steps in one pass over the records.
ghost use Rattle.std.specs.Prelude.{◌≡◌, ◌<◌, ◌≤◌, ◌++◌, length, take, IfOk, OnOk};
ghost use Rattle.tez_record.specs.Line.{IsRecord};
ghost use Rattle.tez_values.specs.Steps.{step_rows, run};
ghost use Rattle.tez_operators.specs.Fuse.{is_plain, made_of, IsPass};

use crate::filters::{holds, reads_number};
use crate::words::push_words;
use std::alloc::{AllocError, Global};
use tez_plan::Step;
use tez_record::{Record, Records, key};

/// How many of the steps go into one pass: the first one, and those after it up to the next that
/// reads a number.
pub fn pass_len(steps: &[Step]) -> usize
    requires { 0 < length steps.now }
    ensures some { 0 < result }
    ensures few { result ≤ length steps.now }
    ensures pass { IsPass (take result steps.now) }
{
    let mut end = 1;
    while end < steps.len() && is_plain(&steps[end]) {
        end += 1;
    }
    end
}

fn is_plain(step: &Step) -> bool
    ensures { result ≡ is_plain step.now }
{
    match step {
        Step::Filter { test, .. } => !reads_number(test),
        Step::Tokenise | Step::Project { .. } => true,
    }
}

/// What the steps make of the rows, in their order. It goes over the rows once, and copies what
/// the last step makes alone, beside one record for each projection and the words of one record
/// for each step that makes them, before the last.
pub fn fused(alloc: Global, steps: &[Step], rows: &Records) -> Result<Records, AllocError>
    ensures { IfOk result (λ made. made ≡ run steps.now rows.now) }
{
    let mut made = Records::new(alloc);
    for line in rows.iter() {
        push_made(alloc, &mut made, steps, line)?;
    }
    Ok(made)
}

/// Adds what the steps make of a record.
fn push_made(
    alloc: Global,
    made: &mut Records,
    steps: &[Step],
    line: &[u8],
) -> Result<(), AllocError>
    requires { IsRecord line.now }
    ensures { OnOk result (made.new ≡ made.old ++ made_of steps.now line.now) }
{
    if steps.is_empty() {
        return made.push(line);
    }
    let step = &steps[0];
    let rest = &steps[1..];
    if rest.is_empty() {
        return push_step(made, step, line);
    }
    match step {
        Step::Filter { field, test } => {
            if holds(test, line, *field) {
                push_made(alloc, made, rest, line)
            } else {
                Ok(())
            }
        }
        Step::Project { cols } => {
            let projected = Record::new(key(alloc, line, cols.as_slice())?);
            push_made(alloc, made, rest, projected.as_slice())
        }
        Step::Tokenise => {
            let mut words = Records::new(alloc);
            push_words(&mut words, line)?;
            for word in words.iter() {
                push_made(alloc, made, rest, word)?;
            }
            Ok(())
        }
    }
}

/// Adds what a step makes of a record.
fn push_step(made: &mut Records, step: &Step, line: &[u8]) -> Result<(), AllocError>
    requires { IsRecord line.now }
    ensures { OnOk result (made.new ≡ made.old ++ step_rows step.now line.now) }
{
    match step {
        Step::Filter { field, test } => {
            if holds(test, line, *field) {
                made.push(line)
            } else {
                Ok(())
            }
        }
        Step::Project { cols } => made.push_key(line, cols.as_slice()),
        Step::Tokenise => push_words(made, line),
    }
}
