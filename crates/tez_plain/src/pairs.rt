// Records beside those of another list with the same key.
ghost use Rattle.std.specs.Prelude.{◌≡◌, ◌++◌, map, filter, IfOk, OnOk};
ghost use Rattle.std.specs.List.{AllByRecursion};
ghost use Rattle.tez_record.specs.Line.{IsRecord};
ghost use Rattle.tez_record.specs.Field.{key};
ghost use Rattle.tez_record.specs.Bag.{sort};
ghost use Rattle.tez_values.specs.Heads.{beside, join_rows};
ghost use Rattle.tez_plain.specs.Keyed.{records_in, is_chosen};

use crate::key::Key;
use crate::keyed::{by_key, copied_keys, of_key};
use std::alloc::{AllocError, Global};
use tez_record::{Records, key, push_key};

/// Each left record beside each right one with the same key. It sorts the right side by its keys
/// and searches it for each left record.
pub fn join(
    alloc: Global,
    left: &Records,
    cols: &[u16],
    right: &Records,
    right_cols: &[u16],
) -> Result<Records, AllocError>
    ensures { IfOk result (λ rows. sort rows ≡ sort (join_rows cols.now right_cols.now left.now right.now)) }
{
    let copies = copied_keys(alloc, right, right_cols)?;
    let entries = by_key(alloc, right, right_cols, &copies)?;
    let mut rows = Records::new(alloc);
    let mut own = Vec::new(alloc);
    for line in left.iter() {
        put_key(&mut own, line, cols)?;
        push_pairs(&mut rows, line, of_key(entries.as_slice(), own.as_slice()))?;
    }
    Ok(rows)
}

/// Puts the key of a record in the place of what a buffer holds.
fn put_key(buffer: &mut Vec<u8>, r: &[u8], cols: &[u16]) -> Result<(), AllocError>
    ensures { OnOk result (buffer.new.items ≡ key cols.now r.now) }
{
    buffer.clear();
    push_key(buffer, r, cols)
}

/// Adds a record beside each of a run.
fn push_pairs(rows: &mut Records, left: &[u8], run: &[(Key<'_>, &[u8])]) -> Result<(), AllocError>
    requires left { IsRecord left.now }
    requires right { AllByRecursion IsRecord (records_in run.now) }
    ensures { OnOk result (rows.new ≡ rows.old ++ map (beside left.now) (records_in run.now)) }
{
    for entry in run {
        rows.push_joined(left, entry.1)?;
    }
    Ok(())
}

/// The records whose key is among those of the side, or with `keep` false the others, in their
/// order. It sorts the side by its keys and searches it for each record.
pub fn chosen(
    alloc: Global,
    records: &Records,
    cols: &[u16],
    side: &Records,
    side_cols: &[u16],
    keep: bool,
) -> Result<Records, AllocError>
    ensures { IfOk result (λ rows. rows ≡ filter (is_chosen keep cols.now side_cols.now side.now) records.now) }
{
    let copies = copied_keys(alloc, side, side_cols)?;
    let entries = by_key(alloc, side, side_cols, &copies)?;
    let mut rows = Records::new(alloc);
    for line in records.iter() {
        let own = key(alloc, line, cols)?;
        let found = !of_key(entries.as_slice(), own.as_slice()).is_empty();
        if found == keep {
            rows.push(line)?;
        }
    }
    Ok(rows)
}
