// A record that owns its bytes.
ghost use Rattle.std.specs.Prelude.{◌≡◌, ◌↔◌, ℕ, IsTrue, IfOk, List};
ghost use Rattle.std.proofs.Common.{rules};
ghost use Rattle.std.specs.Cmp.{partial_order_from_own_ties};
ghost use Rattle.std.specs.Cmp.Rules.{comparing};
ghost use Rattle.std.specs.Str.{bytes_eq};
ghost use Rattle.std.specs.Ordering.{as_partial_cmp};
ghost use Rattle.tez_record.specs.Line.{IsRecord};
ghost use Rattle.tez_record.specs.Bag.{compare};
ghost use Rattle.tez_record.specs.Field.{field, number};

use crate::fields;
use memchr::memchr;
use std::alloc::{AllocError, Global};
use std::cmp::Ordering;
use std::marker::Model;

/// Whether these bytes can be a record: none of them is a line feed.
pub fn is_record(bytes: &[u8]) -> bool
    ensures { IsTrue result ↔ IsRecord bytes.now }
{
    memchr(b'\n', bytes).is_none()
}

/// A record that owns its bytes, which contracts see as their list. Records are ordered by bytes,
/// and a record comes before each longer one that it begins.
#[derive(Debug, Drop)]
pub struct Record {
    bytes: Vec<u8>,
}

impl Model for Record {
    ghost use Rattle.std.specs.Prelude.{List, ℕ};
    ghost use Rattle.tez_record.specs.Line.{IsRecord};

    ghost Value = { List ℕ };

    ghost view = { λ r. r.bytes.items };

    ghost invariant = { λ r. IsRecord r.bytes.items };
}

impl Record {
    /// The record of these bytes. `is_record` tells whether they can be one.
    pub fn new(bytes: Vec<u8>) -> Record
        requires { IsRecord bytes.items }
        ensures { result ≡ bytes.items }
    {
        Record { bytes }
    }

    /// A copy of bytes that can be a record. Linear in them.
    pub fn copy_of(alloc: Global, bytes: &[u8]) -> Result<Record, AllocError>
        requires { IsRecord bytes.now }
        ensures { IfOk result (λ r. r ≡ bytes.now) }
    {
        Ok(Record {
            bytes: Vec::from_slice(alloc, bytes)?,
        })
    }

    pub fn as_slice(&self) -> &[u8]
        ensures value { result.now ≡ self.now }
        ensures is_record { IsRecord result.now }
    {
        self.bytes.as_slice()
    }

    pub fn into_vec(self) -> Vec<u8>
        ensures value { result.items ≡ self }
        ensures is_record { IsRecord result.items }
    {
        self.bytes
    }

    /// As the function `field`.
    pub fn field(&self, i: u16) -> &[u8]
        ensures { result.now ≡ field self.now i }
    {
        fields::field(self.bytes.as_slice(), i)
    }

    /// As the function `number`.
    pub fn number(&self, i: u16) -> Option<i64>
        ensures { result ≡ number self.now i }
    {
        fields::number(self.bytes.as_slice(), i)
    }
}

impl PartialEq for Record {
    ghost eq = { bytes_eq };

    ghost laws = { Prim.search (comparing, rules) };

    fn eq(&self, other: &Record) -> bool {
        self.bytes == other.bytes
    }
}

impl Eq for Record {
    ghost laws = { Prim.search (comparing, rules) };
}

impl PartialOrd for Record {
    ghost partial_cmp = { as_partial_cmp compare };

    ghost laws = { partial_order_from_own_ties (Prim.search (comparing, rules))
        (Prim.search (comparing, rules)) };

    fn partial_cmp(&self, other: &Record) -> Option<Ordering> {
        Some(self.cmp(other))
    }
}

impl Ord for Record {
    ghost cmp = { compare };

    ghost total = { Prim.search (comparing, rules) };

    ghost matches_partial_cmp = { Prim.search (comparing, rules) };

    ghost matches_eq = { Prim.search (comparing, rules) };

    fn cmp(&self, other: &Record) -> Ordering {
        self.bytes.cmp(&other.bytes)
    }
}
