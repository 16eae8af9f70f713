// A row for each key.
ghost use Rattle.std.specs.Prelude.{◌≡◌, ◌++◌, ◌∷◌, [], pos, IfOk, OnOk};
ghost use Rattle.std.specs.Option.{unwrap_or};
ghost use Rattle.tez_record.specs.Line.{IsRecord};
ghost use Rattle.tez_record.specs.Field.{number};
ghost use Rattle.tez_record.specs.Bag.{sort};
ghost use Rattle.tez_values.specs.Heads.{rows_by_key, sum_of};
ghost use Rattle.tez_plain.specs.Keyed.{AreInOrder, records_in};
ghost use Rattle.tez_plain.specs.Runs.{IsRunPushed, row_of, rows_of};

use crate::key::Key;
use crate::keyed::{by_key, copied_keys, first_run};
use std::alloc::{AllocError, Global};
use tez_record::{Records, number};

/// What is said of the records of a key: the key alone, or beside it their count or the sum of
/// a field.
#[derive(Clone, Copy)]
pub enum Says {
    Key,
    Count,
    Sum(u16),
}

/// A row for each distinct key. It sorts the records by their keys, unless they come in that order.
pub fn rows_by_key(
    alloc: Global,
    records: &Records,
    cols: &[u16],
    says: Says,
) -> Result<Records, AllocError>
    ensures { IfOk result (λ rows. sort rows ≡ sort (rows_by_key (row_of says) cols.now records.now)) }
{
    let copies = copied_keys(alloc, records, cols)?;
    let entries = by_key(alloc, records, cols, &copies)?;
    let rows = rows_of_runs(alloc, entries.as_slice(), says)?;
    Ok(rows)
}

/// A row for each run of entries with one key.
fn rows_of_runs(
    alloc: Global,
    entries: &[(Key<'_>, &[u8])],
    says: Says,
) -> Result<Records, AllocError>
    requires { AreInOrder entries.now }
    ensures { IfOk result (λ rows. rows ≡ rows_of says entries.now) }
{
    let mut rows = Records::new(alloc);
    let mut start = 0;
    while let Some(first) = entries.get(start) {
        let key = first.0.as_slice();
        let len = push_run(alloc, &mut rows, key, &entries[start..], says)?;
        start += len;
    }
    Ok(rows)
}

/// Adds what is said of the first entries, as far as they have this key, and tells how many
/// there are.
fn push_run(
    alloc: Global,
    rows: &mut Records,
    key: &[u8],
    entries: &[(Key<'_>, &[u8])],
    says: Says,
) -> Result<usize, AllocError>
    requires { IsRecord key.now }
    ensures { IfOk result (λ len. IsRunPushed says rows.old rows.new key.now entries.now len) }
{
    let len = first_run(entries, key);
    push_row(alloc, rows, key, &entries[..len], says)?;
    Ok(len)
}

/// Adds what is said of a run.
fn push_row(
    alloc: Global,
    rows: &mut Records,
    key: &[u8],
    run: &[(Key<'_>, &[u8])],
    says: Says,
) -> Result<(), AllocError>
    requires { IsRecord key.now }
    ensures { OnOk result (rows.new ≡ rows.old ++ row_of says (records_in run.now) key.now ∷ []) }
{
    match says {
        Says::Key => rows.push(key),
        Says::Count => {
            let count = run.len();
            let text = format!(in alloc; "{count}")?;
            rows.push_joined(key, text.as_bytes())
        }
        Says::Sum(value) => {
            let total = total_of(run, value);
            let text = format!(in alloc; "{total}")?;
            rows.push_joined(key, text.as_bytes())
        }
    }
}

/// The sum of a field.
fn total_of(run: &[(Key<'_>, &[u8])], value: u16) -> i128
    ensures { result ≡ sum_of value (records_in run.now) }
{
    let mut total = 0i128;
    for entry in run {
        total += i128::from(amount_of(entry.1, value));
    }
    total
}

/// The number in a field, and 0 where there is none.
fn amount_of(line: &[u8], value: u16) -> i64
    ensures { result ≡ unwrap_or (number line.now value) (pos 0) }
{
    match number(line, value) {
        Some(n) => n,
        None => 0,
    }
}
