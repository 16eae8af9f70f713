//! A node or an output is lost.
ghost use Rattle.std.specs.Prelude.{◌≡◌, ◌<◌, ◌*◌, ℕ, List, not, if◌then◌else◌, length, slice_get, Some, None, is_some, true};
ghost use Rattle.tez_ids.specs.declared.AttemptId.{AttemptId};
ghost use Rattle.tez_ids.specs.declared.TaskId.{TaskId};
ghost use Rattle.tez_ids.specs.declared.NodeId.{NodeId};
ghost use Rattle.tez_ids.specs.Same.{same_attempt};
ghost use Rattle.tez_lists.specs.Numbers.{numbers_from};
ghost use Rattle.tez_conf.specs.declared.values.ConfValues.{ConfValues};
ghost use Rattle.tez_events.specs.declared.CoreEvent.{CoreEvent};
ghost use Rattle.tez_meaning.specs.Jobs.{Job};
ghost use Rattle.tez_history.specs.History.{Past};
ghost use Rattle.tez_shelves.specs.Shelf.{shelf, kept_if, same_node};
ghost use Rattle.tez_master_model.specs.Read.{winner_in};
ghost use Rattle.tez_master_model.specs.Enabled.{enabled_in};
ghost use Rattle.tez_inflight.specs.Seats.{SeatsState, after_leaves};
ghost use Rattle.tez_work_view.specs.Holdings.{Pieces, node};
ghost use Rattle.tez_world_invariant.specs.Keeping.{Parts, Holds, most_entries};
ghost use Rattle.tez_world_invariant.specs.Step.{later, stepped};

/// Where a node is lost, the seats of its places are left, and what lay on its shelf is gone.
pub fn node_is_lost()
    ensures slot { (job : Job) (c : ConfValues) (ps : Parts) (past : Past) (slot : ℕ) → Holds job c ps past
        → enabled_in ps.master (CoreEvent.LoseNode slot) ≡ true → slot < c.nodes }
    ensures kept { (job : Job) (c : ConfValues) (ps : Parts) (past : Past) (slot life : ℕ) (s : SeatsState) (shelves : List (AttemptId × (NodeId × Pieces))) → Holds job c ps past → enabled_in ps.master (CoreEvent.LoseNode slot) ≡ true → length (later job c past (CoreEvent.LoseNode slot)) < most_entries → slice_get ps.master.pool.lives slot ≡ Some life → s.seats ≡ ps.seats → ((b : AttemptId) → shelf b shelves ≡ kept_if (λ x. not (same_node x.0 (node slot life))) (shelf b ps.shelves)) → Holds job c (stepped ps (CoreEvent.LoseNode slot) (after_leaves s (numbers_from (slot * c.per_node) c.per_node)).seats shelves) (later job c past (CoreEvent.LoseNode slot)) }
{}

/// Where an output is lost, the winner of the task has nothing on a shelf any more.
pub fn output_is_lost()
    ensures won { (job : Job) (c : ConfValues) (ps : Parts) (past : Past) (t : TaskId) → Holds job c ps past
        → enabled_in ps.master (CoreEvent.LoseOutput t) ≡ true → is_some (winner_in ps.master t) ≡ true }
    ensures kept { (job : Job) (c : ConfValues) (ps : Parts) (past : Past) (t : TaskId) (w : AttemptId) (shelves : List (AttemptId × (NodeId × Pieces))) → Holds job c ps past → enabled_in ps.master (CoreEvent.LoseOutput t) ≡ true → length (later job c past (CoreEvent.LoseOutput t)) < most_entries → winner_in ps.master t ≡ Some w → ((b : AttemptId) → shelf b shelves ≡ (if same_attempt w b then None else shelf b ps.shelves)) → Holds job c (stepped ps (CoreEvent.LoseOutput t) ps.seats shelves) (later job c past (CoreEvent.LoseOutput t)) }
{}
