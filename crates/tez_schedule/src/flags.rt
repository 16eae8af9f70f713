ghost use Rattle.std.specs.Prelude.{◌≡◌, ◌≤◌, ◌<◌, ◌^◌, cond, length, slice_set, replicate, IfOk};
ghost use Rattle.tez_schedule.specs.Table.{how_many, flag};

use std::alloc::{AllocError, Global};
use std::marker::Model;

/// A flag for each number below a bound, and how many are set.
#[derive(Drop)]
pub(crate) struct Flags {
    flags: Vec<bool>,
    count: u32,
}

impl Model for Flags {
    ghost use Rattle.std.specs.Prelude.{◌≡◌, ◌<◌, ◌^◌, Bool, List, length};
    ghost use Rattle.tez_schedule.specs.Table.{how_many};

    ghost Value = { List Bool };

    ghost view = { λ f. f.flags.items };

    ghost invariant = { λ f. (f.count ≡ how_many f.flags.items) × (length f.flags.items < 2 ^ 32) };
}

impl Flags {
    /// As many equal flags.
    pub fn new(alloc: Global, bound: u32, value: bool) -> Result<Self, AllocError>
        ensures { IfOk result (λ f. f ≡ replicate bound value) }
    {
        Ok(Flags {
            flags: vec![in alloc; value; bound as usize]?,
            count: if value { bound } else { 0 },
        })
    }

    /// Not set where there is no such flag.
    pub fn get(&self, number: u32) -> bool
        ensures { result ≡ flag self.now number }
    {
        match self.flags.get(number as usize) {
            Some(flag) => *flag,
            None => false,
        }
    }

    /// How many are set.
    pub fn count(&self) -> u32
        ensures { result ≡ how_many self.now }
    {
        self.count
    }

    /// Sets a flag or clears it. Changes nothing where there is no such flag.
    pub fn set(&mut self, number: u32, value: bool)
        ensures { self.new ≡ slice_set self.old number value }
    {
        let at = number as usize;
        if at < self.flags.len() {
            self.count = self.count - one_if(self.flags[at]) + one_if(value);
            self.flags[at] = value;
        }
    }
}

fn one_if(set: bool) -> u32
    ensures { result ≡ cond set 1 0 }
{
    if set { 1 } else { 0 }
}
