// Keys of records.
ghost use Rattle.std.specs.Prelude.{◌≡◌, ℕ, List};
ghost use Rattle.std.proofs.Common.{rules};
ghost use Rattle.std.specs.Cmp.{partial_order_from_own_ties};
ghost use Rattle.std.specs.Cmp.Rules.{comparing};
ghost use Rattle.std.specs.Str.{bytes_eq};
ghost use Rattle.std.specs.Ordering.{as_partial_cmp};
ghost use Rattle.tez_record.specs.Line.{IsRecord};
ghost use Rattle.tez_record.specs.Bag.{compare};

use std::cmp::Ordering;
use std::marker::Model;

/// A key that is lent, which contracts see as its bytes. Keys are ordered by bytes.
#[derive(Drop)]
pub struct Key<'a> {
    bytes: &'a [u8],
}

impl<'a> Model for Key<'a> {
    ghost Value = { List ℕ };

    ghost view = { λ k. k.bytes.now };

    ghost invariant = { λ k. IsRecord k.bytes.now };
}

impl<'a> Key<'a> {
    pub fn new(bytes: &'a [u8]) -> Key<'a>
        requires { IsRecord bytes.now }
        ensures { result ≡ bytes.now }
    {
        Key { bytes }
    }

    pub fn as_slice(&self) -> &'a [u8]
        ensures value { result.now ≡ self.now }
        ensures is_record { IsRecord result.now }
    {
        self.bytes
    }
}

impl<'a> PartialEq for Key<'a> {
    ghost eq = { bytes_eq };

    ghost laws = { Prim.search (comparing, rules) };

    fn eq(&self, other: &Key<'a>) -> bool {
        self.bytes == other.bytes
    }
}

impl<'a> Eq for Key<'a> {
    ghost laws = { Prim.search (comparing, rules) };
}

impl<'a> PartialOrd for Key<'a> {
    ghost partial_cmp = { as_partial_cmp compare };

    ghost laws = { partial_order_from_own_ties (Prim.search (comparing, rules))
        (Prim.search (comparing, rules)) };

    fn partial_cmp(&self, other: &Key<'a>) -> Option<Ordering> {
        Some(self.cmp(other))
    }
}

impl<'a> Ord for Key<'a> {
    ghost cmp = { compare };

    ghost total = { Prim.search (comparing, rules) };

    ghost matches_partial_cmp = { Prim.search (comparing, rules) };

    ghost matches_eq = { Prim.search (comparing, rules) };

    fn cmp(&self, other: &Key<'a>) -> Ordering {
        self.bytes.cmp(&other.bytes)
    }
}
