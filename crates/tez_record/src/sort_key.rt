// Records as a sort compares them: first by a number of their first bytes, which tells most pairs
// apart. Of short records that have the same number, the longer one only adds zeros.
ghost use Rattle.std.specs.Prelude.{◌≡◌, ℕ, ◌<◌, List, slice_index};
ghost use Rattle.std.proofs.Common.{rules};
ghost use Rattle.std.specs.Cmp.{partial_order_from_own_ties};
ghost use Rattle.std.specs.Cmp.Rules.{comparing};
ghost use Rattle.std.specs.Str.{bytes_eq};
ghost use Rattle.std.specs.Ordering.{as_partial_cmp};
ghost use Rattle.tez_record.specs.Bag.{compare};
ghost use Rattle.tez_record.specs.Front.{front, Bytes};

use std::cmp::Ordering;
use std::marker::Model;

/// A record, which contracts see as its bytes.
#[derive(Drop)]
pub struct SortKey<'a> {
    first: u128,
    bytes: &'a [u8],
}

impl<'a> Model for SortKey<'a> {
    ghost Value = { List ℕ };

    ghost view = { λ k. k.bytes.now };

    ghost invariant = { λ k. (k.first ≡ front 16 k.bytes.now) × Bytes k.bytes.now };
}

impl<'a> SortKey<'a> {
    pub fn new(bytes: &'a [u8]) -> SortKey<'a>
        ensures { result ≡ bytes.now }
    {
        SortKey {
            first: front_of(bytes),
            bytes,
        }
    }

    pub fn bytes(&self) -> &[u8]
        ensures { result.now ≡ self.now }
    {
        self.bytes
    }
}

/// The first sixteen bytes as a number, with zeros after the last byte.
fn front_of(bytes: &[u8]) -> u128
    ensures { result ≡ front 16 bytes.now }
{
    let mut number = byte_at(bytes, 0);
    number = number * 256 + byte_at(bytes, 1);
    number = number * 256 + byte_at(bytes, 2);
    number = number * 256 + byte_at(bytes, 3);
    number = number * 256 + byte_at(bytes, 4);
    number = number * 256 + byte_at(bytes, 5);
    number = number * 256 + byte_at(bytes, 6);
    number = number * 256 + byte_at(bytes, 7);
    number = number * 256 + byte_at(bytes, 8);
    number = number * 256 + byte_at(bytes, 9);
    number = number * 256 + byte_at(bytes, 10);
    number = number * 256 + byte_at(bytes, 11);
    number = number * 256 + byte_at(bytes, 12);
    number = number * 256 + byte_at(bytes, 13);
    number = number * 256 + byte_at(bytes, 14);
    number * 256 + byte_at(bytes, 15)
}

fn byte_at(bytes: &[u8], i: usize) -> u128
    ensures value { result ≡ slice_index bytes.now i }
    ensures small { result < 256 }
{
    match bytes.get(i) {
        Some(b) => u128::from(*b),
        None => 0,
    }
}

impl<'a> PartialEq for SortKey<'a> {
    ghost eq = { bytes_eq };

    ghost laws = { Prim.search (comparing, rules) };

    fn eq(&self, other: &SortKey<'a>) -> bool {
        self.bytes == other.bytes
    }
}

impl<'a> Eq for SortKey<'a> {
    ghost laws = { Prim.search (comparing, rules) };
}

impl<'a> PartialOrd for SortKey<'a> {
    ghost partial_cmp = { as_partial_cmp compare };

    ghost laws = { partial_order_from_own_ties (Prim.search (comparing, rules))
        (Prim.search (comparing, rules)) };

    fn partial_cmp(&self, other: &SortKey<'a>) -> Option<Ordering> {
        Some(self.cmp(other))
    }
}

impl<'a> Ord for SortKey<'a> {
    ghost cmp = { compare };

    ghost total = { Prim.search (comparing, rules) };

    ghost matches_partial_cmp = { Prim.search (comparing, rules) };

    ghost matches_eq = { Prim.search (comparing, rules) };

    fn cmp(&self, other: &SortKey<'a>) -> Ordering {
        if self.first < other.first {
            return Ordering::Less;
        }
        if self.first > other.first {
            return Ordering::Greater;
        }
        if self.bytes.len() <= 16 && other.bytes.len() <= 16 {
            return self.bytes.len().cmp(&other.bytes.len());
        }
        self.bytes.cmp(&other.bytes)
    }
}
