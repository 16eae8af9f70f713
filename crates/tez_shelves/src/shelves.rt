// The shelves of all nodes.
ghost use Rattle.std.specs.Prelude.{◌≡◌, ℕ, not, [], if◌then◌else◌, OnOk, IfErr, Some, None};
ghost use Rattle.std.specs.Option.{option_map};
ghost use Rattle.std.specs.List.{list_any};
ghost use Rattle.tez_ids.specs.declared.AttemptId.{AttemptId};
ghost use Rattle.tez_ids.specs.Same.{same_attempt};
ghost use Rattle.tez_shelves.specs.Shelf.{kept_if, shelf, piece_of, bytes_of, same_node};

use crate::index::{add_place, drop_place, keep_placed, place_of, want_only};
use crate::pieces::{Piece, Pieces};
use crate::slots::{Shelved, keep_elsewhere, keep_wanted, replace};
use slab::Slab;
use std::alloc::Global;
use std::collections::BTreeMap;
use std::marker::Model;
use tez_ids::{AttemptId, EdgeId, NodeId};

/// The pieces of attempts, each on the shelf of one node. Contracts see for each attempt that has
/// pieces there the node and the pieces, which `shelf` looks up.
#[derive(Drop)]
pub struct Shelves {
    slots: Slab<Shelved>,
    places: BTreeMap<AttemptId, usize>,
}

impl Model for Shelves {
    ghost use Rattle.std.specs.Prelude.{List, ℕ};
    ghost use Rattle.tez_ids.specs.declared.AttemptId.{AttemptId};
    ghost use Rattle.tez_ids.specs.declared.EdgeId.{EdgeId};
    ghost use Rattle.tez_ids.specs.declared.NodeId.{NodeId};
    ghost use Rattle.tez_shelves.specs.Slots.{shelved, AreHeld};

    ghost Value = { List (AttemptId × (NodeId × List (EdgeId × ℕ × List (List ℕ)))) };

    ghost view = { λ s. shelved s.slots s.places.entries };

    ghost invariant = { λ s. AreHeld s.slots s.places.entries };
}

impl Shelves {
    /// Empty shelves. Takes no memory.
    pub fn new(alloc: Global) -> Shelves
        ensures { result ≡ [] }
    {
        Shelves {
            slots: Slab::new(alloc),
            places: BTreeMap::new(alloc),
        }
    }

    /// Puts an attempt's pieces on the shelf of a node, in place of those that it had. It hands the
    /// pieces back for want of memory alone.
    pub fn put(&mut self, a: AttemptId, n: NodeId, ps: Pieces) -> Result<(), Pieces>
        ensures there { OnOk result ((b : AttemptId) → shelf b self.new ≡ (if same_attempt a b then Some (n, ps) else shelf b self.old)) }
        ensures handed_back { IfErr result (λ back. back ≡ ps) }
        ensures kept { IfErr result (λ back. self.new ≡ self.old) }
    {
        match place_of(&self.places, a) {
            Some(k) => replace(
                &mut self.slots,
                k,
                Shelved {
                    attempt: a,
                    node: n,
                    pieces: ps,
                    wanted: false,
                },
            ),
            None => {
                if self.slots.reserve(1).is_err() {
                    return Err(ps);
                }
                let k = self.slots.vacant_key();
                if add_place(&mut self.places, a, k).is_err() {
                    return Err(ps);
                }
                self.slots.insert_reserved(Shelved {
                    attempt: a,
                    node: n,
                    pieces: ps,
                    wanted: false,
                });
            }
        }
        Ok(())
    }

    /// A piece of an attempt, lent without copying: the first of this output on this edge, and none
    /// exactly where there is none. Logarithmic in the number of attempts and, where the piece is there
    /// and its attempt's were pushed in order, in the number of these; else linear in the latter.
    pub fn piece(&self, a: AttemptId, e: EdgeId, output: u32) -> Option<Piece<'_>>
        ensures { result ≡ piece_of self.now a e output }
    {
        let k = place_of(&self.places, a)?;
        self.slots.get(k)?.pieces.piece(e, output)
    }

    /// The bytes of an attempt's pieces on an edge, and none exactly where it has none there.
    /// Linear in the number of the attempt's pieces.
    pub fn bytes(&self, a: AttemptId, e: EdgeId) -> Option<u64>
        ensures { result ≡ bytes_of self.now a e }
    {
        let k = place_of(&self.places, a)?;
        self.slots.get(k)?.pieces.bytes(e)
    }

    /// The node on which an attempt's pieces lie, and none exactly where nothing of it is there.
    pub fn node_of(&self, a: AttemptId) -> Option<NodeId>
        ensures { result ≡ option_map (λ s. s.0) (shelf a self.now) }
    {
        let k = place_of(&self.places, a)?;
        Some(self.slots.get(k)?.node)
    }

    /// Clears the shelf of a node. Takes no memory. Linear in what lies on all shelves.
    pub fn lose_node(&mut self, n: NodeId)
        ensures { (b : AttemptId) → shelf b self.new ≡ kept_if (λ s. not (same_node s.0 n)) (shelf b self.old) }
    {
        keep_elsewhere(&mut self.slots, n);
        keep_placed(&mut self.places, &self.slots);
    }

    /// Takes away the pieces of an attempt. Takes no memory.
    pub fn drop_attempt(&mut self, a: AttemptId)
        ensures { (b : AttemptId) → shelf b self.new ≡ (if same_attempt a b then None else shelf b self.old) }
    {
        if let Some(k) = drop_place(&mut self.places, a) {
            drop(self.slots.try_remove(k));
        }
    }

    /// Takes away all pieces but those of these attempts. Takes no memory. Linear in what lies on all
    /// shelves, and for each of these attempts logarithmic in the number of attempts that have pieces.
    pub fn keep_only(&mut self, attempts: &[AttemptId])
        ensures { (b : AttemptId) → shelf b self.new ≡ (if list_any (same_attempt b) attempts.now then shelf b self.old else None) }
    {
        want_only(&mut self.slots, &self.places, attempts);
        keep_wanted(&mut self.slots);
        keep_placed(&mut self.places, &self.slots);
    }
}
