// The key of a record as maps hold it.
ghost use Rattle.std.specs.Prelude.{◌≡◌, ℕ, List, [], IfOk, OnOk};
ghost use Rattle.std.proofs.Common.{rules};
ghost use Rattle.std.specs.Cmp.Rules.{comparing, hashing};
ghost use Rattle.std.specs.Hash as fed;
ghost use Rattle.std.specs.Str.{bytes_eq};
ghost use Rattle.tez_record.specs.Line.{IsRecord};
ghost use Rattle.tez_record.specs.Field.{key};

use std::alloc::{AllocError, Global};
use std::hash::{Hash, Hasher};
use std::marker::Model;
use tez_record::push_key;

/// The key of a record, which contracts see as its bytes.
#[derive(Drop)]
pub struct GroupKey {
    bytes: Vec<u8>,
}

impl Model for GroupKey {
    ghost use Rattle.std.specs.Prelude.{List, ℕ};
    ghost use Rattle.tez_record.specs.Line.{IsRecord};

    ghost Value = { List ℕ };

    ghost view = { λ k. k.bytes.items };

    ghost invariant = { λ k. IsRecord k.bytes.items };
}

impl GroupKey {
    /// The empty key. Takes no memory.
    pub fn new(alloc: Global) -> GroupKey
        ensures { result ≡ [] }
    {
        GroupKey {
            bytes: Vec::new(alloc),
        }
    }

    /// Becomes the key of a record by these columns. Takes memory where the key is longer than
    /// each before it.
    pub fn set(&mut self, line: &[u8], cols: &[u16]) -> Result<(), AllocError>
        requires { IsRecord line.now }
        ensures { OnOk result (self.new ≡ key cols.now line.now) }
    {
        self.bytes.clear();
        push_key(&mut self.bytes, line, cols)
    }

    pub fn copy(&self, alloc: Global) -> Result<GroupKey, AllocError>
        ensures { IfOk result (λ copy. copy ≡ self.now) }
    {
        Ok(GroupKey {
            bytes: Vec::from_slice(alloc, self.bytes.as_slice())?,
        })
    }

    pub fn as_slice(&self) -> &[u8]
        ensures value { result.now ≡ self.now }
        ensures is_record { IsRecord result.now }
    {
        self.bytes.as_slice()
    }
}

impl PartialEq for GroupKey {
    ghost eq = { bytes_eq };

    ghost laws = { Prim.search (comparing, rules) };

    fn eq(&self, other: &GroupKey) -> bool {
        self.bytes == other.bytes
    }
}

impl Eq for GroupKey {
    ghost laws = { Prim.search (comparing, rules) };
}

impl Hash for GroupKey {
    ghost hash_input = { λ k. fed.slice fed.u8 k };

    ghost respects_eq = { Prim.search (hashing, rules) };

    fn hash<H: Hasher>(&self, state: &mut H) {
        self.bytes.hash(state);
    }
}
