ghost use Rattle.std.specs.Prelude.{◌≡◌, ℕ, ◌+◌, ◌/◌, ◌<◌, ◌≤◌, ◌≢◌, ◌^◌, true, false, length, position, slice_set, replicate, drop, IfOk};
ghost use Rattle.tez_tournament.specs.Tree.{earlier, leaf, IsMatch};

use std::alloc::{AllocError, Global};
use std::marker::Model;

/// A set of numbers below a bound, of which contracts see a list of truth values.
#[derive(Drop)]
pub struct Tournament {
    nodes: Vec<Option<u32>>,
    count: usize,
}

impl Model for Tournament {
    ghost use Rattle.std.specs.Prelude.{Bool, List, map, drop, is_some};
    ghost use Rattle.tez_tournament.specs.Tree.{IsTournament};

    ghost Value = { List Bool };

    ghost view = { λ t. map is_some (drop t.count t.nodes.items) };

    ghost invariant = { λ t. IsTournament t.count t.nodes.items };
}

impl Tournament {
    /// The empty set of numbers below `count`. Takes time and memory in `count`.
    pub fn new(alloc: Global, count: u32) -> Result<Tournament, AllocError>
        ensures { IfOk result (λ t. t ≡ replicate count false) }
    {
        let count = count as usize;
        Ok(Tournament {
            nodes: vec![in alloc; None; count + count]?,
            count,
        })
    }

    /// The least number of the set.
    pub fn least(&self) -> Option<u32>
        ensures { result ≡ position (λ b. b) self.now }
    {
        if self.count == 0 { None } else { self.nodes[1] }
    }

    /// Puts a number into the set, or takes it out. Takes no memory, and logarithmic time in the
    /// bound.
    pub fn set(&mut self, number: u32, present: bool)
        requires { number < length self.old }
        ensures { self.new ≡ slice_set self.old number present }
    {
        let at = self.count + number as usize;
        self.nodes[at] = leaf(number, present);
        replay(self.nodes.as_mut_slice(), self.count, at);
    }
}

// The leaf of a number.
fn leaf(number: u32, present: bool) -> Option<u32>
    ensures { result ≡ leaf number present }
{
    if present { Some(number) } else { None }
}

// The lesser of two, where there are two.
fn earlier(a: Option<u32>, b: Option<u32>) -> Option<u32>
    ensures { result ≡ earlier a b }
{
    match (a, b) {
        (Some(x), Some(y)) => Some(x.min(y)),
        (Some(x), None) => Some(x),
        (None, other) => other,
    }
}

// Plays the matches above a leaf again.
fn replay(nodes: &mut [Option<u32>], count: usize, at: usize)
    requires sized { length nodes.old ≡ count + count }
    requires small { count < 2 ^ 32 }
    requires leaf { (count ≤ at) × (at < count + count) }
    requires others { (k : ℕ) → 0 < k → k < count → k ≢ at / 2 → IsMatch nodes.old k }
    ensures matches { (k : ℕ) → 0 < k → k < count → IsMatch nodes.new k }
    ensures leaves { drop count nodes.new ≡ drop count nodes.old }
{
    let mut node = at;
    while node > 1 {
        let parent = node / 2;
        let left = nodes[2 * parent];
        let right = nodes[2 * parent + 1];
        nodes[parent] = earlier(left, right);
        node = parent;
    }
}
