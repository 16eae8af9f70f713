// The slot of each attempt that has pieces on a shelf.
ghost use Rattle.std.specs.Prelude.{◌≡◌, ◌||◌, ℕ, if◌then◌else◌, OnOk, OnErr, Some, None, is_some};
ghost use Rattle.std.specs.List.{list_any};
ghost use Rattle.std.specs.Map.{lookup};
ghost use Rattle.std.specs.Option.{option_map};
ghost use Rattle.slab.specs.Slab.{get};
ghost use Rattle.tez_ids.specs.Same.{same_attempt};
ghost use Rattle.tez_ids.specs.declared.AttemptId.{AttemptId};
ghost use Rattle.tez_shelves.specs.Shelf.{kept_if};
ghost use Rattle.tez_shelves.specs.Slots.{marked, AreHeld};

use crate::slots::{Shelved, want, want_nothing};
use slab::Slab;
use std::alloc::AllocError;
use std::collections::BTreeMap;
use tez_ids::AttemptId;

pub fn place_of(places: &BTreeMap<AttemptId, usize>, a: AttemptId) -> Option<usize>
    ensures { result ≡ lookup (same_attempt a) places.now.entries }
{
    places.get(&a).copied()
}

pub fn add_place(
    places: &mut BTreeMap<AttemptId, usize>,
    a: AttemptId,
    k: usize,
) -> Result<(), AllocError>
    ensures added { OnOk result ((b : AttemptId) → lookup (same_attempt b) places.new.entries ≡ (if same_attempt a b then Some k else lookup (same_attempt b) places.old.entries)) }
    ensures kept { OnErr result (places.new.entries ≡ places.old.entries) }
{
    places.insert(a, k)?;
    Ok(())
}

pub fn drop_place(places: &mut BTreeMap<AttemptId, usize>, a: AttemptId) -> Option<usize>
    ensures place { result ≡ lookup (same_attempt a) places.old.entries }
    ensures rest { (b : AttemptId) → lookup (same_attempt b) places.new.entries ≡ (if same_attempt a b then None else lookup (same_attempt b) places.old.entries) }
{
    places.remove(&a)
}

/// Keeps the attempts whose slots hold something.
pub fn keep_placed(places: &mut BTreeMap<AttemptId, usize>, slots: &Slab<Shelved>)
    ensures { (b : AttemptId) → lookup (same_attempt b) places.new.entries ≡ kept_if (λ k. is_some (get slots.now k)) (lookup (same_attempt b) places.old.entries) }
{
    places.retain(|_a, k| slots.contains(*k));
}

/// Marks what these attempts made, and nothing else. It looks each of them up once.
pub fn want_only(
    slots: &mut Slab<Shelved>,
    places: &BTreeMap<AttemptId, usize>,
    attempts: &[AttemptId],
)
    requires { AreHeld slots.old places.now.entries }
    ensures { (k : ℕ) → get slots.new k ≡ option_map (λ s. marked (list_any (same_attempt s.attempt) attempts.now) s) (get slots.old k) }
{
    want_nothing(slots);
    for a in attempts {
        want_too(slots, places, *a);
    }
}

fn want_too(slots: &mut Slab<Shelved>, places: &BTreeMap<AttemptId, usize>, a: AttemptId)
    requires { AreHeld slots.old places.now.entries }
    ensures { (k : ℕ) → get slots.new k ≡ option_map (λ s. marked (s.wanted || same_attempt s.attempt a) s) (get slots.old k) }
{
    if let Some(k) = place_of(places, a) {
        want(slots, k);
    }
}
