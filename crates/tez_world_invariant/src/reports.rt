//! Reports of attempts, on the parts of a master.
ghost use Rattle.std.specs.Prelude.{◌≡◌, ◌≤◌, ◌<◌, ℕ, List, map, length, slice_get, slice_set, Some, true, false};
ghost use Rattle.tez_ids.specs.declared.AttemptId.{AttemptId};
ghost use Rattle.tez_ids.specs.declared.EdgeId.{EdgeId};
ghost use Rattle.tez_plan.specs.Dag.{Dag};
ghost use Rattle.tez_conf.specs.declared.values.ConfValues.{ConfValues};
ghost use Rattle.tez_meaning.specs.Jobs.{Job};
ghost use Rattle.tez_meaning.specs.Value.{bad};
ghost use Rattle.tez_events.specs.declared.CoreEvent.TheVariants.{Fail};
ghost use Rattle.tez_history.specs.Shape.{places, slot_of};
ghost use Rattle.tez_history.specs.History.{Past, extend, failures, life};
ghost use Rattle.tez_history.specs.Steps.{entries_of, done_entries};
ghost use Rattle.tez_pool.specs.Table.{place_held};
ghost use Rattle.tez_contents.specs.Contents.{made, met_bad};
ghost use Rattle.tez_master_model.specs.Enabled.{enabled_in, why_in};
ghost use Rattle.tez_master_model.specs.Entries.{is_last_in};
ghost use Rattle.tez_master_model.specs.Read.{processes};
ghost use Rattle.tez_master_model.specs.Settled.{after_done};
ghost use Rattle.tez_master_model.specs.Bytes.{IsMadeFor, bytes_of};
ghost use Rattle.tez_master_view.specs.Laws.{why_after};
ghost use Rattle.tez_orders.specs.Orders.{OrderParts};
ghost use Rattle.tez_orders.specs.Outcomes.{IsOutcome, pieces_of};
ghost use Rattle.tez_orders.specs.declared.report.Outcome.TheVariants.{Done, Bad};
ghost use Rattle.tez_assembly.specs.Order.{Records, outs_for};
ghost use Rattle.tez_inflight.specs.Seats.{Vacant, Out, seat_at};
ghost use Rattle.tez_work_view.specs.Holdings.{Pieces};
ghost use Rattle.tez_world_invariant.specs.Keeping.{Parts, Holds, most_entries};
ghost use Rattle.tez_world_invariant.specs.Reports.{IsOut, made_for, Shelves, HasPut};

/// The order of an attempt that is processing lies at the seat of its place. Any other attempt is not
/// processing for the reason that the history gives.
pub fn order_of_attempt_is_out()
    ensures order { (job : Job) (c : ConfValues) (ps : Parts) (past : Past) (a : AttemptId) → Holds job c ps past
        → processes ps.master a ≡ true → IsOut job c ps past a }
    ensures why { (job : Job) (c : ConfValues) (ps : Parts) (past : Past) (a : AttemptId) → Holds job c ps past
        → why_in ps.master a ≡ why_after past a }
    ensures life { (job : Job) (c : ConfValues) (ps : Parts) (past : Past) (p : ℕ) → Holds job c ps past → p < places c
        → slice_get ps.master.pool.lives (slot_of c p) ≡ Some (life (slot_of c p) past) }
{}

/// What is due for the order of an attempt is what the attempt makes, cut for the edges out of its
/// vertex, and no bad record was met; or the attempt met one, and then the job has one.
pub fn outcome_is_of_the_attempt()
    ensures value { (job : Job) (c : ConfValues) (ps : Parts) (past : Past) (a : AttemptId) (p : ℕ) (o : OrderParts)
        → Holds job c ps past → processes ps.master a ≡ true → place_held ps.master.pool.places a ≡ Some p
        → seat_at ps.seats p ≡ Out o → (value : Records) (pieces : Pieces) → IsOutcome o (Done value pieces)
        → value ≡ made job a past }
    ensures pieces { (job : Job) (c : ConfValues) (ps : Parts) (past : Past) (a : AttemptId) (p : ℕ) (o : OrderParts)
        → Holds job c ps past → processes ps.master a ≡ true → place_held ps.master.pool.places a ≡ Some p
        → seat_at ps.seats p ≡ Out o → (value : Records) (pieces : Pieces) → IsOutcome o (Done value pieces)
        → pieces ≡ pieces_of (outs_for job.plan a.task.vertex.0) value }
    ensures good { (job : Job) (c : ConfValues) (ps : Parts) (past : Past) (a : AttemptId) (p : ℕ) (o : OrderParts)
        → Holds job c ps past → processes ps.master a ≡ true → place_held ps.master.pool.places a ≡ Some p
        → seat_at ps.seats p ≡ Out o → (value : Records) (pieces : Pieces) → IsOutcome o (Done value pieces)
        → met_bad job a past ≡ false }
    ensures met { (job : Job) (c : ConfValues) (ps : Parts) (past : Past) (a : AttemptId) (p : ℕ) (o : OrderParts)
        → Holds job c ps past → processes ps.master a ≡ true → place_held ps.master.pool.places a ≡ Some p
        → seat_at ps.seats p ≡ Out o → (r : List ℕ) → IsOutcome o (Bad r) → met_bad job a past ≡ true }
    ensures blames { (job : Job) (c : ConfValues) (ps : Parts) (past : Past) (a : AttemptId) (p : ℕ) (o : OrderParts)
        → Holds job c ps past → processes ps.master a ≡ true → place_held ps.master.pool.places a ≡ Some p
        → seat_at ps.seats p ≡ Out o → (r : List ℕ) → IsOutcome o (Bad r) → bad job a.task.vertex.0 ≡ true }
{}

/// A report tells bytes for each scatter-gather edge, whatever they are. Once its seat is vacant and
/// its pieces are on a shelf all holds as before.
pub fn report_is_taken()
    ensures bytes { (g : Dag) (a : AttemptId) (f : ℕ → ℕ) → IsMadeFor g a (made_for g a f) }
    ensures holds { (job : Job) (c : ConfValues) (ps : Parts) (past : Past) (a : AttemptId) (p : ℕ) (bytes : List (EdgeId × ℕ)) (shelves : Shelves) → Holds job c ps past → processes ps.master a ≡ true → place_held ps.master.pool.places a ≡ Some p → met_bad job a past ≡ false → HasPut job c past a p ps.shelves shelves → length (extend past (done_entries a (map bytes_of bytes))) < most_entries → Holds job c (record ps { master = after_done ps.master a bytes; seats = slice_set ps.seats p Vacant; shelves = shelves }) (extend past (done_entries a (map bytes_of bytes))) }
{}

/// A failure that spends its task is the last that the task may have.
pub fn spent_task_failed_often()
    ensures { (job : Job) (c : ConfValues) (ps : Parts) (past : Past) (a : AttemptId) → Holds job c ps past
        → enabled_in ps.master (Fail a) ≡ true → is_last_in ps.master a.task ≡ true
        → c.max_failed ≤ failures a.task (extend past (entries_of job.plan c past (Fail a))) }
{}
