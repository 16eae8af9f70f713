ghost use Rattle.std.specs.Prelude.{◌≡◌, ◌+◌, ◌<◌, ◌≤◌, [], ◌∷◌, ◌++◌, OnOk, OnErr};

use crate::Entry;
use std::alloc::{AllocError, Global};
use std::marker::Model;

/// The trace of a run: its entries in order. Contracts also see `spare`, the number of entries for
/// which there is room.
#[derive(Drop)]
pub struct Trace {
    entries: Vec<Entry>,
}

impl Model for Trace {
    ghost use Rattle.std.specs.Prelude.{◌-◌, vec_len, vec_capacity};
    ghost use Rattle.tez_events.specs.TraceState.{TraceState};

    ghost Value = { TraceState };

    ghost view = { λ t. record { entries = t.entries.items; spare = vec_capacity t.entries - vec_len t.entries } };
}

impl Trace {
    /// The empty trace. Takes no memory.
    pub fn new(alloc: Global) -> Trace
        ensures { result.entries ≡ [] }
    {
        Trace {
            entries: Vec::new(alloc),
        }
    }

    /// Makes room for that many entries more.
    pub fn reserve(&mut self, n: u64) -> Result<(), AllocError>
        ensures entries { self.new.entries ≡ self.old.entries }
        ensures spare { self.old.spare ≤ self.new.spare }
        ensures room { OnOk result (n ≤ self.new.spare) }
        ensures full { OnErr result (self.new ≡ self.old) }
    {
        self.entries.reserve(n as usize)
    }

    /// Adds an entry. Takes no memory.
    pub fn push(&mut self, e: Entry)
        requires { 0 < self.old.spare }
        ensures entries { self.new.entries ≡ self.old.entries ++ e ∷ [] }
        ensures spare { self.old.spare ≤ self.new.spare + 1 }
    {
        if self.entries.push(e).is_err() {
            prove!(false);
        }
    }

    pub fn entries(&self) -> &[Entry]
        ensures { result.now ≡ self.now.entries }
    {
        self.entries.as_slice()
    }
}
