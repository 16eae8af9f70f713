// Records by key, and the pairs of a join.
ghost use Rattle.std.specs.Prelude.{◌≡◌, ◌++◌, ◌∷◌, [], ℕ, List, cond, map, IfOk, OnOk};
ghost use Rattle.std.specs.List.{filter};
ghost use Rattle.std.specs.Str.{bytes_eq};
ghost use Rattle.tez_record.specs.Line.{IsRecord};
ghost use Rattle.tez_values.specs.Heads.{beside, has_key, join_rows};
ghost use Rattle.tez_operators.specs.Groups.{group_of};

use crate::group_key::GroupKey;
use indexmap::IndexMap;
use std::alloc::{AllocError, Global};
use tez_record::Records;

/// Each left record beside each right one with the same key. It looks at a right record once, and
/// then only in pairs: linear in both sides and in the pairs, on average.
pub fn join(
    alloc: Global,
    left: &Records,
    cols: &[u16],
    right: &Records,
    right_cols: &[u16],
) -> Result<Records, AllocError>
    ensures { IfOk result (λ rows. rows ≡ join_rows cols.now right_cols.now left.now right.now) }
{
    let groups = groups_by_key(alloc, right, right_cols)?;
    let mut rows = Records::new(alloc);
    let mut key = GroupKey::new(alloc);
    for line in left.iter() {
        key.set(line, cols)?;
        push_partners(&mut rows, line, &groups, &key)?;
    }
    Ok(rows)
}

/// Adds a record beside each of those of a key.
fn push_partners(
    rows: &mut Records,
    left: &[u8],
    groups: &IndexMap<GroupKey, Records>,
    key: &GroupKey,
) -> Result<(), AllocError>
    requires { IsRecord left.now }
    ensures { OnOk result (rows.new ≡ rows.old ++ map (beside left.now) (group_of groups.now.entries key.now)) }
{
    match groups.get(key) {
        Some(group) => push_pairs(rows, left, group),
        None => Ok(()),
    }
}

/// Adds a record beside each of a group.
fn push_pairs(rows: &mut Records, left: &[u8], group: &Records) -> Result<(), AllocError>
    requires { IsRecord left.now }
    ensures { OnOk result (rows.new ≡ rows.old ++ map (beside left.now) group.now) }
{
    for right in group.iter() {
        rows.push_joined(left, right)?;
    }
    Ok(())
}

/// The records of each key, in their order.
fn groups_by_key(
    alloc: Global,
    records: &Records,
    cols: &[u16],
) -> Result<IndexMap<GroupKey, Records>, AllocError>
    ensures { IfOk result (λ groups. (k : List ℕ) → group_of groups.entries k ≡ filter (has_key cols.now k) records.now) }
{
    let mut groups = IndexMap::new(alloc);
    let mut key = GroupKey::new(alloc);
    for line in records.iter() {
        key.set(line, cols)?;
        add(alloc, &mut groups, &key, line)?;
    }
    Ok(groups)
}

/// Adds a record to the group of a key.
fn add(
    alloc: Global,
    groups: &mut IndexMap<GroupKey, Records>,
    key: &GroupKey,
    line: &[u8],
) -> Result<(), AllocError>
    requires { IsRecord line.now }
    ensures { OnOk result ((q : List ℕ) → group_of groups.new.entries q ≡ cond (bytes_eq key.now q) (group_of groups.old.entries key.now ++ line.now ∷ []) (group_of groups.old.entries q)) }
{
    if let Some(group) = groups.get_mut(key) {
        group.push(line)?;
        return Ok(());
    }
    let mut group = Records::new(alloc);
    group.push(line)?;
    groups.insert(key.copy(alloc)?, group)?;
    Ok(())
}
