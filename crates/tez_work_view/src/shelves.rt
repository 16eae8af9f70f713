//! What each event makes of the shelves.
ghost use Rattle.std.specs.Prelude.{◌≡◌, ◌==◌, ◌&&◌, ℕ, not, if◌then◌else◌, ◌∷◌, [], true, false, List, Some, None, is_some};
ghost use Rattle.std.specs.Option.{option_map_or};
ghost use Rattle.tez_ids.specs.declared.AttemptId.{AttemptId};
ghost use Rattle.tez_ids.specs.declared.TaskId.{TaskId};
ghost use Rattle.tez_ids.specs.declared.VertexId.{VertexId};
ghost use Rattle.tez_ids.specs.Same.{same_attempt};
ghost use Rattle.tez_conf.specs.declared.values.ConfValues.{ConfValues};
ghost use Rattle.tez_events.specs.declared.StopCause.{StopCause};
ghost use Rattle.tez_events.specs.declared.Entry.TheVariants.{Stopped};
ghost use Rattle.tez_events.specs.declared.CoreEvent.{CoreEvent};
ghost use Rattle.tez_history.specs.Shape.{slot_of, has_edge_out};
ghost use Rattle.tez_history.specs.History.{Past, Runs, extend, stage, location, life, winner};
ghost use Rattle.tez_history.specs.Derived.{is_on_shelf, is_on_slot};
ghost use Rattle.tez_history.specs.Steps.{enabled, entries_of, done_entries};
ghost use Rattle.tez_history.specs.Follows.{IsMade};
ghost use Rattle.tez_orders.specs.Outcomes.{pieces_of};
ghost use Rattle.tez_shelves.specs.Shelf.{kept_if, same_node};
ghost use Rattle.tez_meaning.specs.Jobs.{Job};
ghost use Rattle.tez_contents.specs.Contents.{made};
ghost use Rattle.tez_assembly.specs.Order.{outs_for};
ghost use Rattle.tez_work_view.specs.Holdings.{node, shelf_view};
ghost use Rattle.tez_work_view.specs.Events.{KeepsShelves, AnswerLeavesShelves};

/// A report puts the pieces of what the attempt made on a shelf of the present node at its place.
pub fn pieces_are_shelved()
    ensures { (job : Job) (c : ConfValues) (past : Past) (a b : AttemptId) (p : ℕ) (bytes : List (ℕ × ℕ)) → IsMade job.plan c past → stage a past ≡ Runs p → shelf_view job c (extend past (done_entries a bytes)) b ≡ (if same_attempt a b then Some (node (slot_of c p) (life (slot_of c p) past), pieces_of (outs_for job.plan a.task.vertex.0) (made job a past)) else shelf_view job c past b) }
{}

/// With a node all that lies on it is lost, and nothing else.
pub fn node_loses_shelves()
    ensures { (job : Job) (c : ConfValues) (past : Past) (slot : ℕ) (b : AttemptId) → IsMade job.plan c past → enabled job.plan c past (CoreEvent.LoseNode slot) ≡ true → shelf_view job c (extend past (entries_of job.plan c past (CoreEvent.LoseNode slot))) b ≡ kept_if (λ s. not (same_node s.0 (node slot (life slot past)))) (shelf_view job c past b) }
{}

/// Where an output is lost, the winner of the task has nothing on a shelf any more.
pub fn output_leaves_shelf()
    ensures { (job : Job) (c : ConfValues) (past : Past) (t : TaskId) (w b : AttemptId) → winner t past ≡ Some w → shelf_view job c (extend past (entries_of job.plan c past (CoreEvent.LoseOutput t))) b ≡ (if same_attempt w b then None else shelf_view job c past b) }
{}

/// Every other event leaves the shelves as they are, and so does what the store answers of a sink.
pub fn shelves_are_left()
    ensures asked { (job : Job) (c : ConfValues) (past : Past) (v : VertexId) → AnswerLeavesShelves job c past v }
    ensures event { (job : Job) (c : ConfValues) (past : Past) (e : CoreEvent) (b : AttemptId) → KeepsShelves e → IsMade job.plan c past → enabled job.plan c past e ≡ true → shelf_view job c (extend past (entries_of job.plan c past e)) b ≡ shelf_view job c past b }
{}

/// Before the first entry nothing is on a shelf, and a stop leaves the shelves as they are.
pub fn shelves_outlive_masters()
    ensures begins { (job : Job) (c : ConfValues) (b : AttemptId) → shelf_view job c [] b ≡ None }
    ensures stop { (job : Job) (c : ConfValues) (past : Past) (cause : StopCause) (b : AttemptId) → shelf_view job c (Stopped cause ∷ past) b ≡ shelf_view job c past b }
{}

/// A shelf tells whether the pieces of an attempt are there to be fetched, and on which slot they lie.
pub fn shelves_tell()
    ensures there { (job : Job) (c : ConfValues) (past : Past) (w : AttemptId) → is_on_shelf job.plan c past w ≡ (has_edge_out job.plan w.task.vertex.0 && is_some (shelf_view job c past w)) }
    ensures slot { (job : Job) (c : ConfValues) (past : Past) (slot : ℕ) (w : AttemptId) → is_on_slot slot (location c w past) ≡ option_map_or (λ s. s.0.slot == slot) (shelf_view job c past w) false }
{}
