//! The queue of tasks that wait for a place, which gives the shallowest task first.
//!
//! Tasks stand in one order, by depth, vertex and index, and the queue is the set of the places in
//! this order whose tasks wait. The order is made once, so that no change takes memory.
#![tactic(auto)]

ghost use Rattle.std.specs.Prelude.{◌≡◌, List, slice_get};
ghost use Rattle.std.specs.Option.{option_map};
ghost use Rattle.tez_history.specs.Steps.{by_depth};
ghost use Rattle.tez_ids.specs.declared.AttemptId.{AttemptId};
ghost use Rattle.tez_plan.specs.Dag.{Dag};
ghost use Rattle.tez_queue.specs.Queue.{Queue, first, IsQueueOf};

mod order;
mod queue;
mod rows;

pub use queue::TaskQueue;

/// The first of a queue is the task of the first of its attempts in order of depth.
pub fn first_is_shallowest()
    ensures { (g : Dag) (q : Queue) (xs : List AttemptId) → IsQueueOf g q xs → option_map (λ a. a.task) (slice_get (by_depth g xs) 0) ≡ first q }
{}
