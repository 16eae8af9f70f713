//! A waiting attempt fetches an input.
ghost use Rattle.std.specs.Prelude.{◌≡◌, ◌<◌, ℕ, length, slice_set, Some, None, is_some, true, false};
ghost use Rattle.tez_ids.specs.declared.AttemptId.{AttemptId};
ghost use Rattle.tez_ids.specs.declared.EdgeId.{EdgeId};
ghost use Rattle.tez_conf.specs.declared.values.ConfValues.{ConfValues};
ghost use Rattle.tez_events.specs.declared.CoreEvent.{CoreEvent};
ghost use Rattle.tez_meaning.specs.Jobs.{Job};
ghost use Rattle.tez_history.specs.History.{Past};
ghost use Rattle.tez_pool.specs.Table.{place_held};
ghost use Rattle.tez_shelves.specs.Shelf.{piece_of};
ghost use Rattle.tez_contents.specs.Contents.{Records, made, piece_over};
ghost use Rattle.tez_master_model.specs.Read.{is_on_shelf, source_in, piece_in};
ghost use Rattle.tez_master_model.specs.Enabled.{enabled_in};
ghost use Rattle.tez_inflight.specs.Seats.{SeatsState, seat_at, gathering};
ghost use Rattle.tez_world_invariant.specs.Keeping.{Parts, Holds, most_entries};
ghost use Rattle.tez_world_invariant.specs.Step.{later, stepped, fetched};

/// The shelves have the piece behind the input exactly where the master takes its winner to be on
/// the shelf, and then it is what the history says that the attempt copies.
pub fn shelves_have_the_piece()
    ensures placed { (job : Job) (c : ConfValues) (ps : Parts) (past : Past) (a : AttemptId) (e : EdgeId) (i : ℕ)
        → Holds job c ps past → enabled_in ps.master (CoreEvent.Fetch a e i) ≡ true
        → is_some (place_held ps.master.pool.places a) ≡ true }
    ensures there { (job : Job) (c : ConfValues) (ps : Parts) (past : Past) (a : AttemptId) (e : EdgeId) (i : ℕ) (w : AttemptId) (o : ℕ) → Holds job c ps past → piece_in ps.master a e.0 i ≡ Some (w, o) → is_on_shelf ps.master w ≡ true → piece_of ps.shelves w e o ≡ Some (piece_over job.plan past e.0 a.task.index i (made job w past)) }
    ensures gone { (job : Job) (c : ConfValues) (ps : Parts) (past : Past) (a : AttemptId) (e : EdgeId) (i : ℕ) (w : AttemptId) (o : ℕ) → Holds job c ps past → source_in ps.master a e.0 i ≡ Some w → is_on_shelf ps.master w ≡ false → piece_of ps.shelves w e o ≡ None }
{}

/// A piece that is there is gathered at the attempt's seat; where it is gone the seats stay.
pub fn input_is_fetched()
    ensures found { (job : Job) (c : ConfValues) (ps : Parts) (past : Past) (a : AttemptId) (e : EdgeId) (i : ℕ) (w : AttemptId) (o p : ℕ) (rs : Records) → Holds job c ps past → enabled_in ps.master (CoreEvent.Fetch a e i) ≡ true → length (later job c past (CoreEvent.Fetch a e i)) < most_entries → piece_in ps.master a e.0 i ≡ Some (w, o) → is_on_shelf ps.master w ≡ true → piece_of ps.shelves w e o ≡ Some rs → place_held ps.master.pool.places a ≡ Some p → Holds job c (stepped ps (CoreEvent.Fetch a e i) (slice_set ps.seats p (gathering e.0 rs (seat_at ps.seats p))) ps.shelves) (later job c past (CoreEvent.Fetch a e i)) }
    ensures missed { (job : Job) (c : ConfValues) (ps : Parts) (past : Past) (a : AttemptId) (e : EdgeId) (i : ℕ) (w : AttemptId) → Holds job c ps past → enabled_in ps.master (CoreEvent.Fetch a e i) ≡ true → length (later job c past (CoreEvent.Fetch a e i)) < most_entries → source_in ps.master a e.0 i ≡ Some w → is_on_shelf ps.master w ≡ false → Holds job c (stepped ps (CoreEvent.Fetch a e i) ps.seats ps.shelves) (later job c past (CoreEvent.Fetch a e i)) }
    ensures kept { (job : Job) (c : ConfValues) (ps : Parts) (past : Past) (a : AttemptId) (e : EdgeId) (i : ℕ) (s : SeatsState) → Holds job c ps past → enabled_in ps.master (CoreEvent.Fetch a e i) ≡ true → length (later job c past (CoreEvent.Fetch a e i)) < most_entries → s.seats ≡ ps.seats → Holds job c (stepped ps (CoreEvent.Fetch a e i) (fetched ps.master ps.shelves s a e.0 i).seats ps.shelves) (later job c past (CoreEvent.Fetch a e i)) }
{}
