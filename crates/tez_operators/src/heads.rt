// The rows of a head.
ghost use Rattle.std.specs.Prelude.{◌≡◌, [], None, IfOk, IfErr, OnOk, is_none};
ghost use Rattle.std.specs.List.{filter};
ghost use Rattle.std.specs.Option.{unwrap_or};
ghost use Rattle.tez_record.specs.Bag.{sort, first_or};
ghost use Rattle.tez_values.specs.Heads.{head_rows, is_bad_for_head, sum_rows, count_rows, distinct_rows};
ghost use Rattle.tez_record.specs.Field.{number};
ghost use Rattle.tez_operators.specs.Process.{reads, records_of, is_left, IsBadAnswer};

use crate::fault::ProcessFault;
use crate::groups::join;
use crate::inputs::Inputs;
use crate::members::chosen;
use crate::sides::{columns_at, left_records, right_records};
use crate::totals::{Amount, key_rows, total_rows, totals_by_key};
use std::alloc::{AllocError, Global};
use tez_ids::VertexId;
use tez_plan::{Columns, Head};
use tez_record::{Records, least, number};

/// The rows that a head makes of its inputs, in some order, or the least bad record.
pub fn head_rows(
    alloc: Global,
    head: &Head,
    keys: &[(VertexId, Columns)],
    inputs: &Inputs,
) -> Result<Records, ProcessFault>
    ensures rows { IfOk result (λ rows. sort rows ≡ sort (head_rows head.now (reads head.now keys.now inputs.now.primary inputs.now.side))) }
    ensures no_bad { OnOk result (sort (filter (is_bad_for_head head.now) (records_of (is_left head.now keys.now) inputs.now.primary)) ≡ []) }
    ensures bad { IfErr result (λ fault. IsBadAnswer fault (first_or (sort (filter (is_bad_for_head head.now) (records_of (is_left head.now keys.now) inputs.now.primary))) None)) }
{
    let left = left_records(alloc, head, keys, inputs.primary.as_slice())?;
    let bad = bad_records(alloc, head, &left)?;
    if let Some(line) = least(alloc, &bad)? {
        return Err(ProcessFault::BadRecord(line));
    }
    Ok(rows_of(alloc, head, keys, inputs, left)?)
}

fn bad_records(alloc: Global, head: &Head, left: &Records) -> Result<Records, AllocError>
    ensures { IfOk result (λ bad. bad ≡ filter (is_bad_for_head head.now) left.now) }
{
    left.kept(alloc, |line| is_bad(head, line))
}

/// Whether the head reads a field that is no number.
fn is_bad(head: &Head, line: &[u8]) -> bool
    ensures { result ≡ is_bad_for_head head.now line.now }
{
    match head {
        Head::Sum { value } => number(line, *value).is_none(),
        _ => false,
    }
}

/// The rows of a head, of whose left records none is bad.
fn rows_of(
    alloc: Global,
    head: &Head,
    keys: &[(VertexId, Columns)],
    inputs: &Inputs,
    left: Records,
) -> Result<Records, AllocError>
    requires left { left ≡ records_of (is_left head.now keys.now) inputs.now.primary }
    requires no_bad { sort (filter (is_bad_for_head head.now) left) ≡ [] }
    ensures { IfOk result (λ rows. sort rows ≡ sort (head_rows head.now (reads head.now keys.now inputs.now.primary inputs.now.side))) }
{
    let none = Records::new(alloc);
    let side = side_or(inputs, &none);
    let cols = columns_at(keys, 0);
    match head {
        Head::Each => Ok(left),
        Head::Sum { value } => sums(alloc, &left, cols, *value),
        Head::Count => counts(alloc, &left, cols),
        Head::Distinct => keys_once(alloc, &left, cols),
        Head::Join { .. } => {
            let right = right_records(alloc, head, keys, inputs.primary.as_slice())?;
            join(alloc, &left, cols, &right, columns_at(keys, 1))
        }
        Head::Lookup { key, side_key } => {
            join(alloc, &left, key.as_slice(), side, side_key.as_slice())
        }
        Head::KeepIn { key, side_key } => {
            chosen(
                alloc,
                &left,
                key.as_slice(),
                side,
                side_key.as_slice(),
                true,
            )
        }
        Head::DropIn { key, side_key } => {
            chosen(
                alloc,
                &left,
                key.as_slice(),
                side,
                side_key.as_slice(),
                false,
            )
        }
    }
}

fn side_or<'a>(inputs: &'a Inputs, none: &'a Records) -> &'a Records
    ensures { result.now ≡ unwrap_or inputs.now.side none.now }
{
    match &inputs.side {
        Some(side) => side,
        None => none,
    }
}

/// For each key the total of a field.
fn sums(alloc: Global, records: &Records, cols: &[u16], value: u16) -> Result<Records, AllocError>
    requires { sort (filter (λ r. is_none (number r value)) records.now) ≡ [] }
    ensures { IfOk result (λ rows. sort rows ≡ sort (sum_rows cols.now value records.now)) }
{
    let totals = totals_by_key(alloc, records, cols, Amount::Field(value))?;
    let rows = total_rows(alloc, &totals)?;
    Ok(rows)
}

/// For each key the number of records.
fn counts(alloc: Global, records: &Records, cols: &[u16]) -> Result<Records, AllocError>
    ensures { IfOk result (λ rows. sort rows ≡ sort (count_rows cols.now records.now)) }
{
    let totals = totals_by_key(alloc, records, cols, Amount::One)?;
    let rows = total_rows(alloc, &totals)?;
    Ok(rows)
}

/// Each key once.
fn keys_once(alloc: Global, records: &Records, cols: &[u16]) -> Result<Records, AllocError>
    ensures { IfOk result (λ rows. sort rows ≡ sort (distinct_rows cols.now records.now)) }
{
    let totals = totals_by_key(alloc, records, cols, Amount::One)?;
    let rows = key_rows(alloc, &totals)?;
    Ok(rows)
}
