//! What each event makes of the seats of all places.
ghost use Rattle.std.specs.Prelude.{◌≡◌, ℕ, true, false, ◌∷◌, List, [], map, replicate, slice_set, Some};
ghost use Rattle.std.specs.List.{fold};
ghost use Rattle.tez_ids.specs.declared.AttemptId.{AttemptId};
ghost use Rattle.tez_ids.specs.declared.EdgeId.{EdgeId};
ghost use Rattle.tez_ids.specs.declared.VertexId.{VertexId};
ghost use Rattle.tez_conf.specs.declared.values.ConfValues.{ConfValues};
ghost use Rattle.tez_events.specs.declared.StopCause.{StopCause};
ghost use Rattle.tez_events.specs.declared.Entry.TheVariants.{Stopped};
ghost use Rattle.tez_events.specs.declared.CoreEvent.{CoreEvent};
ghost use Rattle.tez_history.specs.Shape.{edges_to, places};
ghost use Rattle.tez_history.specs.History.{Past, Waits, Runs, extend, stage};
ghost use Rattle.tez_history.specs.Derived.{is_on_shelf, places_on};
ghost use Rattle.tez_history.specs.Steps.{enabled, entries_of, winner_behind, done_entries};
ghost use Rattle.tez_history.specs.Follows.{IsMade};
ghost use Rattle.tez_pool_view.specs.View.{IsWholeAtCommit};
ghost use Rattle.tez_orders.specs.Orders.{OrderParts};
ghost use Rattle.tez_meaning.specs.Jobs.{Job};
ghost use Rattle.tez_contents.specs.Contents.{made, piece_over};
ghost use Rattle.tez_inflight.specs.Seats.{Vacant, Gathers, Out, seat_at, gathering};
ghost use Rattle.tez_work_view.specs.Holdings.{order_view, seats_view};
ghost use Rattle.tez_work_view.specs.Events.{KeepsSeats, AnswerLeavesSeats, vacate};

/// A queued attempt that takes a place has gathered nothing.
pub fn attempt_is_seated()
    ensures { (job : Job) (c : ConfValues) (past : Past) (a : AttemptId) (p : ℕ) → IsMade job.plan c past → enabled job.plan c past (CoreEvent.Place a p) ≡ true → seats_view job c (extend past (entries_of job.plan c past (CoreEvent.Place a p))) ≡ slice_set (seats_view job c past) p (Gathers a (map (λ n. (n, [])) (map (λ e. e.0) (edges_to job.plan a.task.vertex.0)))) }
{}

/// A fetch that finds the piece adds it to what was gathered over the edge, and one that does not
/// leaves the seats as they are.
pub fn piece_is_gathered()
    ensures found { (job : Job) (c : ConfValues) (past : Past) (a : AttemptId) (e : EdgeId) (i p : ℕ) (w : AttemptId) → IsMade job.plan c past → stage a past ≡ Waits p → winner_behind job.plan past a e.0 i ≡ Some w → is_on_shelf job.plan c past w ≡ true → seats_view job c (extend past (entries_of job.plan c past (CoreEvent.Fetch a e i))) ≡ slice_set (seats_view job c past) p (gathering e.0 (piece_over job.plan past e.0 a.task.index i (made job w past)) (seat_at (seats_view job c past) p)) }
    ensures missed { (job : Job) (c : ConfValues) (past : Past) (a : AttemptId) (e : EdgeId) (i : ℕ) (w : AttemptId) → IsMade job.plan c past → enabled job.plan c past (CoreEvent.Fetch a e i) ≡ true → winner_behind job.plan past a e.0 i ≡ Some w → is_on_shelf job.plan c past w ≡ false → seats_view job c (extend past (entries_of job.plan c past (CoreEvent.Fetch a e i))) ≡ seats_view job c past }
{}

/// Where an attempt is sent to its container, its order is on the seat.
pub fn order_is_at_seat()
    ensures { (job : Job) (c : ConfValues) (past : Past) (a : AttemptId) (p : ℕ) (o : OrderParts) → IsMade job.plan c past → stage a past ≡ Waits p → order_view job past a p ≡ Some o → seats_view job c (extend past (entries_of job.plan c past (CoreEvent.Send a))) ≡ slice_set (seats_view job c past) p (Out o) }
{}

/// Where an attempt gives way, fails or reports, its seat is vacant.
pub fn attempts_leave_seats()
    ensures preempt { (job : Job) (c : ConfValues) (past : Past) (a : AttemptId) (p : ℕ) → IsMade job.plan c past → enabled job.plan c past (CoreEvent.Preempt a) ≡ true → stage a past ≡ Waits p → seats_view job c (extend past (entries_of job.plan c past (CoreEvent.Preempt a))) ≡ slice_set (seats_view job c past) p Vacant }
    ensures fail { (job : Job) (c : ConfValues) (past : Past) (a : AttemptId) (p : ℕ) → IsMade job.plan c past → enabled job.plan c past (CoreEvent.Fail a) ≡ true → stage a past ≡ Runs p → seats_view job c (extend past (entries_of job.plan c past (CoreEvent.Fail a))) ≡ slice_set (seats_view job c past) p Vacant }
    ensures report { (job : Job) (c : ConfValues) (past : Past) (a : AttemptId) (p : ℕ) (bytes : List (ℕ × ℕ)) → IsMade job.plan c past → stage a past ≡ Runs p → seats_view job c (extend past (done_entries a bytes)) ≡ slice_set (seats_view job c past) p Vacant }
{}

/// Where a node is lost, the seats of its places are vacant. Once the commit has started they were
/// so before.
pub fn node_leaves_seats()
    ensures { (job : Job) (c : ConfValues) (past : Past) (slot : ℕ) → IsMade job.plan c past → IsWholeAtCommit job.plan past → enabled job.plan c past (CoreEvent.LoseNode slot) ≡ true → seats_view job c (extend past (entries_of job.plan c past (CoreEvent.LoseNode slot))) ≡ fold vacate (seats_view job c past) (places_on c slot) }
{}

/// Every other event leaves the seats as they are, and so does what the store answers of a sink.
pub fn seats_are_left()
    ensures asked { (job : Job) (c : ConfValues) (past : Past) (v : VertexId) → AnswerLeavesSeats job c past v }
    ensures event { (job : Job) (c : ConfValues) (past : Past) (e : CoreEvent) → KeepsSeats e → IsMade job.plan c past → enabled job.plan c past e ≡ true → seats_view job c (extend past (entries_of job.plan c past e)) ≡ seats_view job c past }
{}

/// Before the first entry the seats are vacant, and so they are after a stop.
pub fn seats_begin_vacant()
    ensures begins { (job : Job) (c : ConfValues) → seats_view job c [] ≡ replicate (places c) Vacant }
    ensures stop { (job : Job) (c : ConfValues) (past : Past) (cause : StopCause) → seats_view job c (Stopped cause ∷ past) ≡ replicate (places c) Vacant }
{}
