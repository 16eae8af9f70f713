ghost use Rattle.std.specs.Prelude.{◌≡◌, ◌≤◌, Bool, true, false, not, length, replicate, slice_get, slice_set, unwrap_or, IfOk};
ghost use Rattle.std.specs.List.{count_by};
ghost use Rattle.tez_runs.specs.Flags.{missing_from};

use crate::edit::{Run, add, free_from, holds};
use std::alloc::{AllocError, Global};
use std::marker::Model;

/// Numbers from 0 to before a bound, each set or not.
#[derive(Drop)]
pub struct Runs {
    bound: u32,
    set: u32,
    runs: Vec<Run>,
}

impl Model for Runs {
    ghost use Rattle.std.specs.Prelude.{List, Bool};
    ghost use Rattle.std.specs.Vec.{vec_capacity};
    ghost use Rattle.tez_runs.specs.Flags.{flags, AreKept};

    ghost Value = { List Bool };

    ghost view = { λ r. flags r.bound r.runs.items };

    ghost invariant = { λ r. AreKept r.bound r.set (vec_capacity r.runs) r.runs.items };
}

impl Runs {
    /// Of this many numbers, none is set. Takes the room that setting them needs, in whatever order
    /// that comes, but does no work for each.
    pub fn new(alloc: Global, n: u32) -> Result<Self, AllocError>
        ensures { IfOk result (λ runs. runs ≡ replicate n false) }
    {
        // No more runs than this have gaps between them.
        let most = (n as usize).div_ceil(2);
        Ok(Runs {
            bound: n,
            set: 0,
            runs: Vec::with_capacity(alloc, most)?,
        })
    }

    pub fn len(&self) -> u32
        ensures { result ≡ length self.now }
    {
        self.bound
    }

    /// How many are set.
    pub fn count(&self) -> u32
        ensures { result ≡ count_by (λ b. b) self.now }
    {
        self.set
    }

    /// How many are not set.
    pub fn missing(&self) -> u32
        ensures { result ≡ count_by not self.now }
    {
        self.bound - self.set
    }

    /// False for a number that is not there. Logarithmic in the runs.
    pub fn is_set(&self, i: u32) -> bool
        ensures { result ≡ unwrap_or (slice_get self.now i) false }
    {
        i < self.bound && holds(self.runs.as_slice(), i)
    }

    /// The least from `i` on that is not set. Logarithmic in the runs.
    pub fn missing_from(&self, i: u32) -> Option<u32>
        ensures { result ≡ missing_from self.now i }
    {
        let first = free_from(self.runs.as_slice(), i);
        if first < self.bound {
            Some(first)
        } else {
            None
        }
    }

    /// Sets a number. Finding its place is logarithmic in the runs; a run that begins or goes moves
    /// those after it.
    pub fn set(&mut self, i: u32)
        ensures { self.new ≡ slice_set self.old i true }
    {
        if i >= self.bound {
            return;
        }
        if holds(self.runs.as_slice(), i) {
            return;
        }
        add(&mut self.runs, i);
        self.set += 1;
    }

    /// Begins anew with no more numbers than before, none of them set.
    pub fn restart(&mut self, n: u32)
        requires { n ≤ length self.old }
        ensures { self.new ≡ replicate n false }
    {
        self.runs.clear();
        self.bound = n;
        self.set = 0;
    }
}
