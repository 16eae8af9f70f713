//! A winner that a new master keeps.
ghost use Rattle.std.specs.Prelude.{◌≡◌};
ghost use Rattle.tez_master_model.specs.Recovery.{slot_kept};

use std::marker::Model;
use tez_ids::{AttemptId, EdgeId, NodeId};

/// A winner of an earlier master: the node on whose shelf its pieces lie, none where none do, and the
/// bytes of its shelved pieces, with one pair for each scatter-gather edge out of its vertex.
#[derive(Drop)]
pub struct Kept {
    attempt: AttemptId,
    node: Option<NodeId>,
    made: Vec<(EdgeId, u64)>,
}

impl Model for Kept {
    ghost use Rattle.tez_master_model.specs.Recovery.{KeptState};

    ghost Value = { KeptState };

    ghost view = { λ k. record { attempt = k.attempt; node = k.node; made = k.made.items } };
}

impl Kept {
    pub fn new(attempt: AttemptId, node: Option<NodeId>, made: Vec<(EdgeId, u64)>) -> Self
        ensures { result ≡ record { attempt = attempt; node = node; made = made.items } }
    {
        Kept {
            attempt,
            node,
            made,
        }
    }

    pub fn attempt(&self) -> AttemptId
        ensures { result ≡ self.now.attempt }
    {
        self.attempt
    }

    /// The bytes that it made, by edge.
    pub fn made(&self) -> &[(EdgeId, u64)]
        ensures { result.now ≡ self.now.made }
    {
        self.made.as_slice()
    }

    /// The node slot where its pieces lie.
    pub fn slot(&self) -> Option<u16>
        ensures { result ≡ slot_kept self.now }
    {
        match self.node {
            Some(node) => Some(node.slot),
            None => None,
        }
    }
}
