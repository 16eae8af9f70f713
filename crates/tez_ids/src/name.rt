ghost use Rattle.std.specs.Prelude.{◌≡◌, IfOk, List, ℕ, string_bytes};
ghost use Rattle.std.proofs.Common.{rules};
ghost use Rattle.std.specs.Cmp.Rules.{comparing};
ghost use Rattle.std.specs.Str.{bytes_eq};

use std::alloc::{AllocError, Global};
use std::marker::Model;

/// A name, of which contracts see the bytes.
#[derive(Debug, Drop)]
pub struct Name {
    text: String,
}

impl Model for Name {
    ghost use Rattle.std.specs.Prelude.{List, ℕ, string_bytes};

    ghost Value = { List ℕ };

    ghost view = { λ n. string_bytes n.text };
}

impl Name {
    pub fn new(text: String) -> Self
        ensures { result ≡ string_bytes text }
    {
        Name { text }
    }

    /// A copy of the text. Takes memory for it.
    pub fn copy_of(alloc: Global, text: &str) -> Result<Self, AllocError>
        ensures { IfOk result (λ name. name ≡ text.now) }
    {
        Ok(Name {
            text: String::from_str(alloc, text)?,
        })
    }

    pub fn as_str(&self) -> &str
        ensures { result.now ≡ self.now }
    {
        self.text.as_str()
    }

    pub fn into_string(self) -> String
        ensures { string_bytes result ≡ self }
    {
        self.text
    }
}

impl PartialEq for Name {
    ghost eq = { bytes_eq };

    ghost laws = { Prim.search (comparing, rules) };

    fn eq(&self, other: &Name) -> bool {
        self.text.as_bytes() == other.text.as_bytes()
    }
}

impl Eq for Name {
    ghost laws = { Prim.search (comparing, rules) };
}

/// Bytes, of which contracts see the list.
#[derive(Debug, Drop)]
pub struct Bytes {
    items: Vec<u8>,
}

impl Model for Bytes {
    ghost use Rattle.std.specs.Prelude.{List, ℕ};

    ghost Value = { List ℕ };

    ghost view = { λ b. b.items.items };
}

impl Bytes {
    pub fn new(items: Vec<u8>) -> Self
        ensures { result ≡ items.items }
    {
        Bytes { items }
    }

    pub fn as_slice(&self) -> &[u8]
        ensures { result.now ≡ self.now }
    {
        self.items.as_slice()
    }

    pub fn into_vec(self) -> Vec<u8>
        ensures { result.items ≡ self }
    {
        self.items
    }
}

impl PartialEq for Bytes {
    ghost eq = { bytes_eq };

    ghost laws = { Prim.search (comparing, rules) };

    fn eq(&self, other: &Bytes) -> bool {
        self.items == other.items
    }
}

impl Eq for Bytes {
    ghost laws = { Prim.search (comparing, rules) };
}
