//! Hash partitions: records by the hash of their keys.
#![tactic(auto)]

ghost use Rattle.std.specs.Prelude.{◌≡◌, ◌<◌, ◌++◌, [], ◌∷◌, IfOk, OnOk, length, map, slice_set, slice_index_or, replicate};
ghost use Rattle.std.specs.List.{filter, flat_map, range_with_len};
ghost use Rattle.tez_record.specs.Line.{IsRecord};
ghost use Rattle.tez_record.specs.Bag.{sort};
ghost use Rattle.tez_partition.specs.Partition.{hash, partition, in_partition, split};

use std::alloc::{AllocError, Global};
use tez_record::{Records, push_key};

const START: u64 = 14695981039346656037;

const PRIME: u64 = 1099511628211;

/// FNV-1a of 64 bits. Takes no memory; linear in the bytes.
pub fn hash_key(bytes: &[u8]) -> u64
    ensures { result ≡ hash bytes.now }
{
    let mut h = START;
    for b in bytes {
        h = (h ^ u64::from(*b)).wrapping_mul(PRIME);
    }
    h
}

/// The records by the hash of their keys by these columns: list p has those whose hash leaves p
/// when it is divided by `parts`, in byte order. The key of no columns is the empty text. It goes
/// over the records once, whatever `parts`, and then sorts each list.
pub fn split(
    alloc: Global,
    rs: &Records,
    cols: &[u16],
    parts: u32,
) -> Result<Vec<Records>, AllocError>
    requires { 0 < parts }
    ensures parts { IfOk result (λ made. made.items ≡ split cols.now parts rs.now) }
    ensures whole { IfOk result (λ made. sort (flat_map (λ part. part) made.items) ≡ sort rs.now) }
{
    let mut made = dealt(alloc, rs, cols, parts)?;
    sort_each(alloc, &mut made)?;
    Ok(made)
}

/// The records by the hash of their keys, each part in the records' own order.
fn dealt(alloc: Global, rs: &Records, cols: &[u16], parts: u32) -> Result<Vec<Records>, AllocError>
    requires { 0 < parts }
    ensures { IfOk result (λ made. made.items ≡ map (λ p. filter (in_partition cols.now parts p) rs.now) (range_with_len 0 parts)) }
{
    let mut key = Vec::new(alloc);
    let mut made = empty_parts(alloc, parts)?;
    for line in rs.iter() {
        deal(&mut made, &mut key, line, cols)?;
    }
    Ok(made)
}

fn empty_parts(alloc: Global, parts: u32) -> Result<Vec<Records>, AllocError>
    ensures { IfOk result (λ made. made.items ≡ replicate parts []) }
{
    let mut made = Vec::with_capacity(alloc, parts as usize)?;
    for _p in 0..parts {
        made.push(Records::new(alloc))?;
    }
    Ok(made)
}

/// Adds a record to its part. The buffer is for its key.
fn deal(made: &mut [Records], key: &mut Vec<u8>, r: &[u8], cols: &[u16]) -> Result<(), AllocError>
    requires some { 0 < length made.now }
    requires is_record { IsRecord r.now }
    ensures { OnOk result (made.new ≡ slice_set made.old (partition cols.now (length made.old) r.now) (slice_index_or made.old (partition cols.now (length made.old) r.now) [] ++ r.now ∷ [])) }
{
    key.clear();
    push_key(key, r, cols)?;
    let p = hash_key(key) % made.len() as u64;
    made[p as usize].push(r)
}

fn sort_each(alloc: Global, parts: &mut [Records]) -> Result<(), AllocError>
    ensures { OnOk result (parts.new ≡ map sort parts.old) }
{
    for part in parts {
        *part = part.sorted(alloc)?;
    }
    Ok(())
}
