//! What the pool has to be after a history: its places, the lives of the nodes and the next
//! container number as one function of the history, and the laws of that function.
//!
//! It has no code, but a function for each law, whose contract is the law.
#![tactic(auto)]

ghost use Rattle.std.specs.Prelude.{◌≡◌, ℕ, List, []};
ghost use Rattle.tez_ids.specs.declared.AttemptId.{AttemptId};
ghost use Rattle.tez_ids.specs.declared.VertexId.{VertexId};
ghost use Rattle.tez_plan.specs.Dag.{Dag};
ghost use Rattle.tez_conf.specs.declared.values.ConfValues.{ConfValues};
ghost use Rattle.tez_events.specs.declared.StopCause.{StopCause};
ghost use Rattle.tez_events.specs.declared.CoreEvent.{CoreEvent};
ghost use Rattle.tez_history.specs.History.{Past};
ghost use Rattle.tez_history.specs.Follows.{IsMade};
ghost use Rattle.tez_history.specs.Runs.{Run, Found, Happening};
ghost use Rattle.tez_laws.specs.Laws.{AnswersKeep};
ghost use Rattle.tez_pool.specs.Table.{new_pool};
ghost use Rattle.tez_pool.specs.Victim.{AreIn};
ghost use Rattle.tez_pool_view.specs.View.{pool_view, IsWholeAtCommit};
ghost use Rattle.tez_pool_view.specs.Statements.{HoldsNoneBefore, GivesContainer, PlaceIsHeld, OrderIsOut, PreemptFrees, FailureFrees, ReportFrees, LossFrees, NobodyHolds, EventKeepsWhole, ReportKeepsWhole, StopKeepsWhole, StartKeepsWhole, RunIsWhole, LeavesPool, AnswerLeaves, StopFrees, StartLeavesPool, FreeIsFirst, SomeIsFree, PlaceIsTold, ContainerIsTold, HolderIsTold, LifeIsTold, HoldersAreTold, VictimGivesWay, NoneGivesWayToFree, NoneGivesWayToNone, FreePlaceIsGiven};

/// Before the first entry the pool is new.
pub fn pool_is_new()
    ensures { (c : ConfValues) → pool_view c [] ≡ new_pool c.nodes c.per_node c.reuse }
{}

/// A place that is given to a queued attempt, which holds none, is held by it, and its order did not
/// go out. The container that the pool answers is that of the entry.
pub fn place_is_given()
    ensures before { (g : Dag) (c : ConfValues) (past : Past) (a : AttemptId) (p : ℕ) → HoldsNoneBefore g c past a p }
    ensures container { (g : Dag) (c : ConfValues) (past : Past) (a : AttemptId) (p : ℕ) → GivesContainer g c past a p }
    ensures after { (g : Dag) (c : ConfValues) (past : Past) (a : AttemptId) (p : ℕ) → PlaceIsHeld g c past a p }
{}

/// The order of a waiting attempt goes out, and it stays at its place.
pub fn order_goes_out()
    ensures { (g : Dag) (c : ConfValues) (past : Past) (a : AttemptId) → OrderIsOut g c past a }
{}

/// Where an attempt gives way, fails or reports, its place is free, with a new container unless
/// containers are used again. That a task is queued again concerns no place.
pub fn place_is_freed()
    ensures preempt { (g : Dag) (c : ConfValues) (past : Past) (a : AttemptId) → PreemptFrees g c past a }
    ensures fail { (g : Dag) (c : ConfValues) (past : Past) (a : AttemptId) → FailureFrees g c past a }
    ensures report { (g : Dag) (c : ConfValues) (past : Past) (a : AttemptId) → ReportFrees g c past a }
{}

/// A node is lost with all who held its places: their kills, the tasks that are queued again, and
/// the winners that are withdrawn, all in one. Once the commit has started nobody holds a place.
pub fn node_is_lost()
    ensures { (g : Dag) (c : ConfValues) (past : Past) (slot : ℕ) → LossFrees g c past slot }
{}

/// From the commit on every task has a winner, and so nobody holds a place: so it is before the
/// first entry, each event, report, answer of the store, stop and start keeps it, also one that takes
/// up a commit, and it holds of every run of a valid plan, which has a sink.
pub fn nobody_holds_a_place_in_the_commit()
    ensures nobody { (g : Dag) (c : ConfValues) (past : Past) → NobodyHolds g c past }
    ensures begins { (g : Dag) → IsWholeAtCommit g [] }
    ensures event { (g : Dag) (c : ConfValues) (past : Past) (e : CoreEvent) → EventKeepsWhole g c past e }
    ensures report { (g : Dag) (c : ConfValues) (past : Past) (a : AttemptId) → ReportKeepsWhole g c past a }
    ensures asked { (g : Dag) (c : ConfValues) → AnswersKeep g c (IsWholeAtCommit g) }
    ensures stop { (g : Dag) (c : ConfValues) (r : Run) (cause : StopCause) → StopKeepsWhole g c r cause }
    ensures start { (g : Dag) (c : ConfValues) (r : Run) (found : Found) → StartKeepsWhole g c r found }
    ensures run { (g : Dag) (c : ConfValues) (hs : List Happening) → RunIsWhole g c hs }
{}

/// Every other event leaves the pool as it is, and so does what the store answers of a sink.
pub fn pool_is_left()
    ensures event { (g : Dag) (c : ConfValues) (past : Past) (e : CoreEvent) → LeavesPool g c past e }
    ensures asked { (c : ConfValues) (past : Past) (v : VertexId) → AnswerLeaves c past v }
{}

/// A stop frees every place, and a new master leaves the pool as it is, whatever it finds.
pub fn masters_change()
    ensures stop { (c : ConfValues) (r : Run) (cause : StopCause) → StopFrees c r cause }
    ensures start { (g : Dag) (c : ConfValues) (r : Run) (found : Found) → StartLeavesPool g c r found }
{}

/// What a pool answers is what the history tells: its least free place is the model's first, an
/// attempt is where the model has it, and a place has the model's container and holder.
pub fn readings_agree()
    ensures free { (c : ConfValues) (past : Past) → FreeIsFirst c past }
    ensures some_free { (c : ConfValues) (past : Past) → SomeIsFree c past }
    ensures place { (g : Dag) (c : ConfValues) (past : Past) (a : AttemptId) → PlaceIsTold g c past a }
    ensures container { (c : ConfValues) (past : Past) (p : ℕ) → ContainerIsTold c past p }
    ensures holder { (c : ConfValues) (past : Past) (p : ℕ) → HolderIsTold c past p }
    ensures life { (c : ConfValues) (past : Past) (slot : ℕ) → LifeIsTold c past slot }
    ensures node { (c : ConfValues) (past : Past) (slot : ℕ) → HoldersAreTold c past slot }
{}

/// Who holds a place is an attempt at a vertex of the plan.
pub fn holders_are_in_the_plan()
    ensures { (g : Dag) (c : ConfValues) (past : Past) → IsMade g c past → AreIn g (pool_view c past).places }
{}

/// The model's first event of those that make an attempt give way: where a place is free or no
/// attempt is queued, there is none, and else it is that of the pool's victim, for the least depth
/// of a queued attempt.
pub fn victim_gives_way()
    ensures victim { (g : Dag) (c : ConfValues) (past : Past) (d : ℕ) → VictimGivesWay g c past d }
    ensures free { (g : Dag) (c : ConfValues) (past : Past) → NoneGivesWayToFree g c past }
    ensures unqueued { (g : Dag) (c : ConfValues) (past : Past) → NoneGivesWayToNone g c past }
{}

/// The model's first event of those that give a place is that of the shallowest queued attempt at
/// the pool's least free place, where there are both.
pub fn free_place_is_given()
    ensures { (g : Dag) (c : ConfValues) (past : Past) → FreePlaceIsGiven g c past }
{}
