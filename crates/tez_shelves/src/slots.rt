// What lies on the shelves, each in a slot of its own.
ghost use Rattle.std.specs.Prelude.{◌≡◌, ℕ, ◌==◌, not, false, true, if◌then◌else◌, IsSome, Some};
ghost use Rattle.std.specs.Option.{option_map};
ghost use Rattle.slab.specs.Slab.{get};
ghost use Rattle.tez_shelves.specs.Shelf.{kept_if, same_node};
ghost use Rattle.tez_shelves.specs.Slots.{marked};

use crate::pieces::Pieces;
use slab::Slab;
use tez_ids::{AttemptId, NodeId};

/// The pieces of an attempt, and the node on which they lie. `wanted` is a mark for a walk that keeps
/// what has it; before and after it says nothing.
#[derive(Drop)]
pub struct Shelved {
    pub attempt: AttemptId,
    pub node: NodeId,
    pub pieces: Pieces,
    pub wanted: bool,
}

pub fn replace(slots: &mut Slab<Shelved>, k: usize, shelved: Shelved)
    requires { IsSome (get slots.old k) }
    ensures { (j : ℕ) → get slots.new j ≡ (if j == k then Some shelved else get slots.old j) }
{
    slots[k] = shelved;
}

/// Keeps what lies on other nodes.
pub fn keep_elsewhere(slots: &mut Slab<Shelved>, n: NodeId)
    ensures { (k : ℕ) → get slots.new k ≡ kept_if (λ s. not (same_node s.node n)) (get slots.old k) }
{
    slots.retain(|_k, s| s.node != n);
}

pub fn want_nothing(slots: &mut Slab<Shelved>)
    ensures { (k : ℕ) → get slots.new k ≡ option_map (marked false) (get slots.old k) }
{
    slots.retain(|_k, s| {
        s.wanted = false;
        true
    });
}

pub fn want(slots: &mut Slab<Shelved>, k: usize)
    requires { IsSome (get slots.old k) }
    ensures { (j : ℕ) → get slots.new j ≡ (if j == k then option_map (marked true) (get slots.old k) else get slots.old j) }
{
    slots[k].wanted = true;
}

pub fn keep_wanted(slots: &mut Slab<Shelved>)
    ensures { (k : ℕ) → get slots.new k ≡ kept_if (λ s. s.wanted) (get slots.old k) }
{
    slots.retain(|_k, s| s.wanted);
}
