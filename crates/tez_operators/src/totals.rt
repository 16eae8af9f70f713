// Totals of records by key.
ghost use Rattle.std.specs.Prelude.{◌≡◌, ◌^◌, ◌++◌, ◌∷◌, [], fold, map, IfOk, OnOk};
ghost use Rattle.std.specs.Fmt.{signed_decimal};
ghost use Rattle.tez_record.specs.Line.{IsRecord};
ghost use Rattle.tez_values.specs.Heads.{beside};
ghost use Rattle.tez_operators.specs.Totals.{total_of, amount_of, add_entry, add_record, total_row, IsWithin};

use crate::group_key::GroupKey;
use indexmap::IndexMap;
use std::alloc::{AllocError, Global};
use tez_record::{Records, number};

/// What a record adds to the total of its key: one, or the number in a field, which is 0 where
/// there is none.
#[derive(Clone, Copy)]
pub enum Amount {
    One,
    Field(u16),
}

impl Amount {
    fn of(self, line: &[u8]) -> i64
        ensures { result ≡ amount_of self line.now }
    {
        match self {
            Amount::One => 1,
            Amount::Field(value) => match number(line, value) {
                Some(n) => n,
                None => 0,
            },
        }
    }
}

/// Adds an amount to the total of a key. Takes memory where the key is new.
fn add(
    alloc: Global,
    totals: &mut IndexMap<GroupKey, i128>,
    key: &GroupKey,
    amount: i64,
) -> Result<(), AllocError>
    requires { IsWithin (2 ^ 126) (total_of totals.old.entries key.now) }
    ensures { OnOk result (totals.new.entries ≡ add_entry totals.old.entries key.now amount) }
{
    if let Some(total) = totals.get_mut(key) {
        *total += i128::from(amount);
        return Ok(());
    }
    totals.insert(key.copy(alloc)?, i128::from(amount))?;
    Ok(())
}

/// The total of the amounts by key. An entry for each key, in the order in which keys come first.
pub fn totals_by_key(
    alloc: Global,
    records: &Records,
    cols: &[u16],
    amount: Amount,
) -> Result<IndexMap<GroupKey, i128>, AllocError>
    ensures { IfOk result (λ totals. totals.entries ≡ fold (add_record cols.now amount) [] records.now) }
{
    let mut totals = IndexMap::new(alloc);
    let mut key = GroupKey::new(alloc);
    for line in records.iter() {
        key.set(line, cols)?;
        add(alloc, &mut totals, &key, amount.of(line))?;
    }
    Ok(totals)
}

/// A record for each key: the key, a tab and its total.
pub fn total_rows(alloc: Global, totals: &IndexMap<GroupKey, i128>) -> Result<Records, AllocError>
    ensures { IfOk result (λ rows. rows ≡ map total_row totals.now.entries) }
{
    let mut rows = Records::new(alloc);
    for (key, total) in totals.iter() {
        push_total(alloc, &mut rows, key.as_slice(), *total)?;
    }
    Ok(rows)
}

fn push_total(alloc: Global, rows: &mut Records, key: &[u8], total: i128) -> Result<(), AllocError>
    requires { IsRecord key.now }
    ensures { OnOk result (rows.new ≡ rows.old ++ beside key.now (signed_decimal total) ∷ []) }
{
    let text = format!(in alloc; "{total}")?;
    rows.push_joined(key, text.as_bytes())
}

/// A record for each key: the key.
pub fn key_rows(alloc: Global, totals: &IndexMap<GroupKey, i128>) -> Result<Records, AllocError>
    ensures { IfOk result (λ rows. rows ≡ map (λ e. e.0) totals.now.entries) }
{
    let mut rows = Records::new(alloc);
    for key in totals.keys() {
        rows.push(key.as_slice())?;
    }
    Ok(rows)
}
