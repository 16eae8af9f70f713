// The records whose key is among the keys of other records, or is not.
ghost use Rattle.std.specs.Prelude.{◌≡◌, filter, IfOk};
ghost use Rattle.tez_operators.specs.Members.{is_chosen};

use crate::group_key::GroupKey;
use crate::totals::{Amount, totals_by_key};
use std::alloc::{AllocError, Global};
use tez_record::Records;

/// The records whose key is among those of the side, or with `keep` false the others, in their
/// order. Linear in both, on average.
pub fn chosen(
    alloc: Global,
    records: &Records,
    cols: &[u16],
    side: &Records,
    side_cols: &[u16],
    keep: bool,
) -> Result<Records, AllocError>
    ensures { IfOk result (λ rows. rows ≡ filter (is_chosen keep cols.now side_cols.now side.now) records.now) }
{
    let keys = totals_by_key(alloc, side, side_cols, Amount::One)?;
    let mut rows = Records::new(alloc);
    let mut key = GroupKey::new(alloc);
    for line in records.iter() {
        key.set(line, cols)?;
        if keys.contains_key(&key) == keep {
            rows.push(line)?;
        }
    }
    Ok(rows)
}
