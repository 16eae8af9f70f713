//! The parts and the queue.
use std::marker::Model;
use tez_core::Core;
use tez_queue::TaskQueue;

/// The parts of a master that is up, of which contracts see the state alone. Its queue has the tasks
/// of which an attempt is queued.
#[derive(Drop)]
pub struct Lead {
    pub(crate) core: Core,
    pub(crate) queue: TaskQueue,
}

impl Model for Lead {
    ghost use Rattle.tez_master_model.specs.State.{MasterState};
    ghost use Rattle.tez_lead.specs.Kept.{IsKept};

    ghost Value = { MasterState };

    ghost view = { λ l. l.core };

    ghost invariant = { λ l. IsKept l.core l.queue };
}
