// The rows of a head.
ghost use Rattle.std.specs.Prelude.{◌≡◌, [], None, IfOk, IfErr, OnOk, is_none};
ghost use Rattle.std.specs.List.{filter};
ghost use Rattle.tez_record.specs.Bag.{sort, first_or};
ghost use Rattle.tez_record.specs.Field.{number};
ghost use Rattle.tez_values.specs.Heads.{head_rows, is_bad_for_head, sum_rows};
ghost use Rattle.tez_plain.specs.Answer.{IsBadAnswer};
ghost use Rattle.tez_plain.specs.Numbers.{head_reads_number};

use crate::fault::PlainFault;
use crate::pairs::{chosen, join};
use crate::reads::HeadReads;
use crate::runs::{Says, rows_by_key};
use std::alloc::{AllocError, Global};
use tez_plan::Head;
use tez_record::{Records, least, number};

/// The rows that a head makes of what it reads, in some order, or the least bad record.
pub(crate) fn evaluate_head(
    alloc: Global,
    head: &Head,
    inputs: &HeadReads,
) -> Result<Records, PlainFault>
    ensures rows { IfOk result (λ rows. sort rows ≡ sort (head_rows head.now inputs.now)) }
    ensures no_bad { OnOk result (sort (filter (is_bad_for_head head.now) inputs.now.primary) ≡ []) }
    ensures bad { IfErr result (λ fault. IsBadAnswer fault (first_or (sort (filter (is_bad_for_head head.now) inputs.now.primary)) None)) }
{
    let bad = bad_records(alloc, head, inputs.primary())?;
    if let Some(line) = least(alloc, &bad)? {
        return Err(PlainFault::BadRecord(line));
    }
    Ok(rows_of(alloc, head, inputs)?)
}

fn bad_records(alloc: Global, head: &Head, primary: &Records) -> Result<Records, AllocError>
    ensures { IfOk result (λ bad. bad ≡ filter (is_bad_for_head head.now) primary.now) }
{
    if reads_number(head) {
        return primary.kept(alloc, |line| is_bad(head, line));
    }
    Ok(Records::new(alloc))
}

fn reads_number(head: &Head) -> bool
    ensures { result ≡ head_reads_number head.now }
{
    match head {
        Head::Sum { .. } => true,
        _ => false,
    }
}

/// Whether the head reads a field that is no number.
fn is_bad(head: &Head, line: &[u8]) -> bool
    ensures { result ≡ is_bad_for_head head.now line.now }
{
    match head {
        Head::Sum { value } => number(line, *value).is_none(),
        _ => false,
    }
}

/// The rows of a head, of whose primary records none is bad.
fn rows_of(alloc: Global, head: &Head, inputs: &HeadReads) -> Result<Records, AllocError>
    requires { sort (filter (is_bad_for_head head.now) inputs.now.primary) ≡ [] }
    ensures { IfOk result (λ rows. sort rows ≡ sort (head_rows head.now inputs.now)) }
{
    let primary = inputs.primary();
    let side = inputs.side();
    let cols = inputs.columns();
    match head {
        Head::Each => primary.copy(alloc),
        Head::Sum { value } => sums(alloc, primary, cols, *value),
        Head::Count => rows_by_key(alloc, primary, cols, Says::Count),
        Head::Distinct => rows_by_key(alloc, primary, cols, Says::Key),
        Head::Join { .. } => {
            join(
                alloc,
                primary,
                cols,
                inputs.partner(),
                inputs.partner_columns(),
            )
        }
        Head::Lookup { key, side_key } => {
            join(alloc, primary, key.as_slice(), side, side_key.as_slice())
        }
        Head::KeepIn { key, side_key } => {
            chosen(
                alloc,
                primary,
                key.as_slice(),
                side,
                side_key.as_slice(),
                true,
            )
        }
        Head::DropIn { key, side_key } => {
            chosen(
                alloc,
                primary,
                key.as_slice(),
                side,
                side_key.as_slice(),
                false,
            )
        }
    }
}

/// For each key the sum of a field.
fn sums(alloc: Global, records: &Records, cols: &[u16], value: u16) -> Result<Records, AllocError>
    requires { sort (filter (λ r. is_none (number r value)) records.now) ≡ [] }
    ensures { IfOk result (λ rows. sort rows ≡ sort (sum_rows cols.now value records.now)) }
{
    rows_by_key(alloc, records, cols, Says::Sum(value))
}
