//! An attempt takes a place, is sent, gives way or fails: its seat.
ghost use Rattle.std.specs.Prelude.{◌≡◌, ◌<◌, ℕ, List, [], map, length, slice_get, slice_set, Some, None, is_some, true};
ghost use Rattle.tez_ids.specs.declared.AttemptId.{AttemptId};
ghost use Rattle.tez_plan.specs.declared.parts.VertexSpec.{VertexSpec};
ghost use Rattle.tez_conf.specs.declared.values.ConfValues.{ConfValues};
ghost use Rattle.tez_events.specs.declared.CoreEvent.{CoreEvent};
ghost use Rattle.tez_meaning.specs.Jobs.{Job};
ghost use Rattle.tez_history.specs.Shape.{edges_to, places};
ghost use Rattle.tez_history.specs.History.{Past};
ghost use Rattle.tez_laws.specs.Laws.{SpendsNot};
ghost use Rattle.tez_pool.specs.Table.{place_held};
ghost use Rattle.tez_vman.specs.declared.seen.Config.{Config};
ghost use Rattle.tez_schedule.specs.Table.{config_at};
ghost use Rattle.tez_master_model.specs.Enabled.{enabled_in};
ghost use Rattle.tez_assembly.specs.Order.{order_for};
ghost use Rattle.tez_inflight.specs.Seats.{SeatsState, Vacant, Gathers, Out, seat_at, order_out};
ghost use Rattle.tez_work_view.specs.Holdings.{gathered};
ghost use Rattle.tez_world_invariant.specs.Keeping.{Parts, Holds, most_entries};
ghost use Rattle.tez_world_invariant.specs.Step.{later, stepped, left};

/// The place is one of the configuration's, nobody is at its seat, and the attempt has gathered
/// nothing.
pub fn attempt_takes_place()
    ensures place { (job : Job) (c : ConfValues) (ps : Parts) (past : Past) (a : AttemptId) (p : ℕ)
        → Holds job c ps past → enabled_in ps.master (CoreEvent.Place a p) ≡ true → p < places c }
    ensures vacant { (job : Job) (c : ConfValues) (ps : Parts) (past : Past) (a : AttemptId) (p : ℕ)
        → Holds job c ps past → enabled_in ps.master (CoreEvent.Place a p) ≡ true → seat_at ps.seats p ≡ Vacant }
    ensures kept { (job : Job) (c : ConfValues) (ps : Parts) (past : Past) (a : AttemptId) (p : ℕ) → Holds job c ps past
        → enabled_in ps.master (CoreEvent.Place a p) ≡ true
        → length (later job c past (CoreEvent.Place a p)) < most_entries
        → Holds job c (stepped ps (CoreEvent.Place a p) (slice_set ps.seats p (Gathers a (map (λ n. (n, [])) (map (λ e. e.0) (edges_to job.plan a.task.vertex.0))))) ps.shelves) (later job c past (CoreEvent.Place a p)) }
{}

/// Who is sent stands at a place, and has gathered there what the order takes; no order of it is out.
pub fn order_is_due()
    ensures placed { (job : Job) (c : ConfValues) (ps : Parts) (past : Past) (a : AttemptId) → Holds job c ps past
        → enabled_in ps.master (CoreEvent.Send a) ≡ true → is_some (place_held ps.master.pool.places a) ≡ true }
    ensures gathered { (job : Job) (c : ConfValues) (ps : Parts) (past : Past) (a : AttemptId) (p : ℕ)
        → Holds job c ps past → enabled_in ps.master (CoreEvent.Send a) ≡ true
        → place_held ps.master.pool.places a ≡ Some p
        → seat_at ps.seats p ≡ Gathers a (map (λ e. (e.0, gathered job a e.0 past)) (edges_to job.plan a.task.vertex.0)) }
    ensures alone { (job : Job) (c : ConfValues) (ps : Parts) (past : Past) (a : AttemptId) → Holds job c ps past
        → enabled_in ps.master (CoreEvent.Send a) ≡ true → order_out ps.seats a ≡ None }
    ensures vertex { (job : Job) (c : ConfValues) (ps : Parts) (past : Past) (a : AttemptId) → Holds job c ps past
        → enabled_in ps.master (CoreEvent.Send a) ≡ true → a.task.vertex.0 < length job.plan.vertices }
    ensures configured { (job : Job) (c : ConfValues) (ps : Parts) (past : Past) (a : AttemptId) → Holds job c ps past
        → enabled_in ps.master (CoreEvent.Send a) ≡ true
        → is_some (config_at ps.master.schedule a.task.vertex.0) ≡ true }
    ensures task { (job : Job) (c : ConfValues) (ps : Parts) (past : Past) (a : AttemptId) (s : Config)
        → Holds job c ps past → enabled_in ps.master (CoreEvent.Send a) ≡ true
        → config_at ps.master.schedule a.task.vertex.0 ≡ Some s → a.task.index < s.tasks }
{}

/// Once it is sent, its order is on the seat.
pub fn attempt_is_sent()
    ensures { (job : Job) (c : ConfValues) (ps : Parts) (past : Past) (a : AttemptId) (p : ℕ) (x : Config) (s : VertexSpec) → Holds job c ps past → enabled_in ps.master (CoreEvent.Send a) ≡ true → length (later job c past (CoreEvent.Send a)) < most_entries → place_held ps.master.pool.places a ≡ Some p → config_at ps.master.schedule a.task.vertex.0 ≡ Some x → slice_get job.plan.vertices a.task.vertex.0 ≡ Some s → Holds job c (stepped ps (CoreEvent.Send a) (slice_set ps.seats p (Out (order_for job x.tasks a p (λ n. gathered job a n past) s))) ps.shelves) (later job c past (CoreEvent.Send a)) }
{}

/// Who gives way leaves its place.
pub fn attempt_gives_way()
    ensures placed { (job : Job) (c : ConfValues) (ps : Parts) (past : Past) (a : AttemptId) → Holds job c ps past
        → enabled_in ps.master (CoreEvent.Preempt a) ≡ true → is_some (place_held ps.master.pool.places a) ≡ true }
    ensures kept { (job : Job) (c : ConfValues) (ps : Parts) (past : Past) (a : AttemptId) (p : ℕ) → Holds job c ps past
        → enabled_in ps.master (CoreEvent.Preempt a) ≡ true
        → length (later job c past (CoreEvent.Preempt a)) < most_entries → place_held ps.master.pool.places a ≡ Some p
        → Holds job c (stepped ps (CoreEvent.Preempt a) (slice_set ps.seats p Vacant) ps.shelves) (later job c past (CoreEvent.Preempt a)) }
    ensures left { (job : Job) (c : ConfValues) (ps : Parts) (past : Past) (a : AttemptId) (s : SeatsState)
        → Holds job c ps past → enabled_in ps.master (CoreEvent.Preempt a) ≡ true
        → length (later job c past (CoreEvent.Preempt a)) < most_entries → s.seats ≡ ps.seats
        → Holds job c (stepped ps (CoreEvent.Preempt a) (left ps.master s a).seats ps.shelves) (later job c past (CoreEvent.Preempt a)) }
{}

/// So does who fails, where this spends no task.
pub fn attempt_fails()
    ensures placed { (job : Job) (c : ConfValues) (ps : Parts) (past : Past) (a : AttemptId) → Holds job c ps past
        → enabled_in ps.master (CoreEvent.Fail a) ≡ true → is_some (place_held ps.master.pool.places a) ≡ true }
    ensures kept { (job : Job) (c : ConfValues) (ps : Parts) (past : Past) (a : AttemptId) (p : ℕ) → Holds job c ps past
        → enabled_in ps.master (CoreEvent.Fail a) ≡ true → SpendsNot c past (CoreEvent.Fail a)
        → length (later job c past (CoreEvent.Fail a)) < most_entries → place_held ps.master.pool.places a ≡ Some p
        → Holds job c (stepped ps (CoreEvent.Fail a) (slice_set ps.seats p Vacant) ps.shelves) (later job c past (CoreEvent.Fail a)) }
    ensures left { (job : Job) (c : ConfValues) (ps : Parts) (past : Past) (a : AttemptId) (s : SeatsState)
        → Holds job c ps past → enabled_in ps.master (CoreEvent.Fail a) ≡ true → SpendsNot c past (CoreEvent.Fail a)
        → length (later job c past (CoreEvent.Fail a)) < most_entries → s.seats ≡ ps.seats
        → Holds job c (stepped ps (CoreEvent.Fail a) (left ps.master s a).seats ps.shelves) (later job c past (CoreEvent.Fail a)) }
{}
