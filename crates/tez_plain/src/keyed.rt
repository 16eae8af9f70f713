// Records beside their keys, in the order of the keys, so that those of a key stand together.
ghost use Rattle.std.specs.Prelude.{◌≡◌, ◌↔◌, ◌≤◌, ◌<◌, ◌∷◌, [], ℕ, not, map, length, IfOk, IfSome, IsTrue};
ghost use Rattle.std.specs.List.{AllByRecursion, position, position_or_len};
ghost use Rattle.std.specs.Ordering.{is_lt};
ghost use Rattle.std.specs.Str.{bytes_eq};
ghost use Rattle.tez_record.specs.Line.{IsRecord};
ghost use Rattle.tez_record.specs.Bag.{compare};
ghost use Rattle.tez_record.specs.Field.{key};
ghost use Rattle.tez_plain.specs.Keyed.{AreByKey, AreInOrder, copied_keys, keys_in, one_each, records_in, with_key};

use crate::key::Key;
use crate::steps::project;
use std::alloc::{AllocError, Global};
use tez_record::{Records, field};

/// Copies of the keys of records, where a key is no part of its record. A key of one column is.
pub fn copied_keys(alloc: Global, records: &Records, cols: &[u16]) -> Result<Records, AllocError>
    ensures { IfOk result (λ copies. copies ≡ copied_keys cols.now records.now) }
{
    if cols.len() == 1 {
        return Ok(Records::new(alloc));
    }
    project(alloc, records, cols)
}

/// Each record beside its key, in byte order of the keys, where `copied_keys` made the copies.
/// Linear where the records come in that order, and else it sorts them. It takes 32 bytes for
/// each record.
pub fn by_key<'a>(
    alloc: Global,
    records: &'a Records,
    cols: &[u16],
    copies: &'a Records,
) -> Result<Vec<(Key<'a>, &'a [u8])>, AllocError>
    requires { copies.now ≡ copied_keys cols.now records.now }
    ensures { IfOk result (λ entries. AreByKey cols.now records.now entries.items) }
{
    let mut entries = keyed(alloc, records, cols, copies)?;
    if are_in_order(entries.as_slice()) {
        return Ok(entries);
    }
    entries.sort_unstable();
    Ok(entries)
}

/// Whether no key is before the one that stands before it.
fn are_in_order(entries: &[(Key<'_>, &[u8])]) -> bool
    ensures { IsTrue result ↔ AreInOrder entries.now }
{
    entries.is_sorted_by(|entry, next| !is_before(&next.0, entry.0.as_slice()))
}

/// Each record beside its key, in the order of the records.
fn keyed<'a>(
    alloc: Global,
    records: &'a Records,
    cols: &[u16],
    copies: &'a Records,
) -> Result<Vec<(Key<'a>, &'a [u8])>, AllocError>
    requires { copies.now ≡ copied_keys cols.now records.now }
    ensures records { IfOk result (λ entries. records_in entries.items ≡ records.now) }
    ensures keys { IfOk result (λ entries. keys_in entries.items ≡ map (key cols.now) (records_in entries.items)) }
    ensures lines { IfOk result (λ entries. AllByRecursion IsRecord (records_in entries.items)) }
{
    if cols.len() == 1 {
        return beside_fields(alloc, records, cols);
    }
    beside_copies(alloc, records, cols, copies)
}

/// Each record beside its key of one column, which is lent from the record.
fn beside_fields<'a>(
    alloc: Global,
    records: &'a Records,
    cols: &[u16],
) -> Result<Vec<(Key<'a>, &'a [u8])>, AllocError>
    requires { length cols.now ≡ 1 }
    ensures records { IfOk result (λ entries. records_in entries.items ≡ records.now) }
    ensures keys { IfOk result (λ entries. keys_in entries.items ≡ map (key cols.now) (records_in entries.items)) }
    ensures lines { IfOk result (λ entries. AllByRecursion IsRecord (records_in entries.items)) }
{
    let mut entries = Vec::new(alloc);
    for line in records.iter() {
        let own = Key::new(only_field(line, cols));
        entries.push((own, line))?;
    }
    Ok(entries)
}

/// The key of one column.
fn only_field<'a>(r: &'a [u8], cols: &[u16]) -> &'a [u8]
    requires { length cols.now ≡ 1 }
    ensures { result.now ≡ key cols.now r.now }
{
    field(r, cols[0])
}

/// Each record beside its key, which is lent from the copies.
fn beside_copies<'a>(
    alloc: Global,
    records: &'a Records,
    cols: &[u16],
    copies: &'a Records,
) -> Result<Vec<(Key<'a>, &'a [u8])>, AllocError>
    requires { copies.now ≡ one_each (key cols.now) records.now }
    ensures records { IfOk result (λ entries. records_in entries.items ≡ records.now) }
    ensures keys { IfOk result (λ entries. keys_in entries.items ≡ map (key cols.now) (records_in entries.items)) }
    ensures lines { IfOk result (λ entries. AllByRecursion IsRecord (records_in entries.items)) }
{
    let mut entries = Vec::new(alloc);
    let mut keys = copies.iter();
    for line in records.iter() {
        if let Some(own) = keys.next() {
            entries.push((Key::new(own), line))?;
        }
    }
    Ok(entries)
}

/// The first entries, as far as they have this key.
pub fn first_run(entries: &[(Key<'_>, &[u8])], key: &[u8]) -> usize
    ensures value { result ≡ position_or_len (λ e. not (bytes_eq e.0 key.now)) entries.now }
    ensures bound { result ≤ length entries.now }
{
    match other_at(entries, key) {
        Some(place) => place,
        None => entries.len(),
    }
}

/// The first entry with another key.
fn other_at(entries: &[(Key<'_>, &[u8])], key: &[u8]) -> Option<usize>
    ensures value { result ≡ position (λ e. not (bytes_eq e.0 key.now)) entries.now }
    ensures bound { IfSome result (λ place. place < length entries.now) }
{
    entries.iter().position(|entry| entry.0.as_slice() != key)
}

/// The entries with this key. A binary search, and then linear in them.
pub fn of_key<'s, 'a>(entries: &'s [(Key<'a>, &'a [u8])], key: &[u8]) -> &'s [(Key<'a>, &'a [u8])]
    requires { AreInOrder entries.now }
    ensures { result.now ≡ with_key key.now entries.now }
{
    let start = entries.partition_point(|entry| is_before(&entry.0, key));
    let rest = &entries[start..];
    &rest[..first_run(rest, key)]
}

fn is_before(own: &Key<'_>, key: &[u8]) -> bool
    ensures { result ≡ is_lt (compare own.now key.now) }
{
    let mine = own.as_slice();
    mine.cmp(&key).is_lt()
}
