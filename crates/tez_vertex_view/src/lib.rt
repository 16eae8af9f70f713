//! What the vertices have to be after a history: each with its tasks, their live attempts, winners
//! and counts, as one function of the history, and the laws of that function.
//!
//! It has no code, but a function for each law, whose contract is the law.
#![tactic(auto)]

ghost use Rattle.std.specs.Prelude.{◌≡◌, ℕ, List, []};
ghost use Rattle.tez_ids.specs.declared.TaskId.{TaskId};
ghost use Rattle.tez_ids.specs.declared.AttemptId.{AttemptId};
ghost use Rattle.tez_ids.specs.declared.EdgeId.{EdgeId};
ghost use Rattle.tez_ids.specs.declared.VertexId.{VertexId};
ghost use Rattle.tez_plan.specs.Dag.{Dag};
ghost use Rattle.tez_conf.specs.declared.values.ConfValues.{ConfValues};
ghost use Rattle.tez_vman.specs.declared.seen.Config.{Config};
ghost use Rattle.tez_vertex.specs.Vertex.{Vertex};
ghost use Rattle.tez_events.specs.declared.StopCause.{StopCause};
ghost use Rattle.tez_events.specs.declared.CoreEvent.{CoreEvent};
ghost use Rattle.tez_task.specs.Table.{live_of, next_of};
ghost use Rattle.tez_history.specs.History.{Past, live, epoch};
ghost use Rattle.tez_history.specs.Runs.{Run, Found, Standing};
ghost use Rattle.tez_history.specs.Derived.{next_attempt};
ghost use Rattle.tez_laws.specs.Laws.{AnswersKeep};
ghost use Rattle.tez_vertex_view.specs.View.{task_view, vertices_view, FailedAreTasks};
ghost use Rattle.tez_master_model.specs.Vertices.{new_vertices, AreRestorable};
ghost use Rattle.tez_vertex_view.specs.Statements.{QueueIsTaken, PlaceIsTaken, SendIsTaken, ReportIsTaken, FailureIsTaken, PreemptIsTaken, FoundLeaves, MissedWithdraws, LossKillsAndWithdraws, LateLossLeaves, LeavesVertices, AnswerLeaves, VertexIsConfigured, EventKeepsFailed, ReportKeepsFailed, StopKeepsFailed, StartKeepsFailed, StopIdles, OverIsNew, StartRestores, TakenUpRestores, ConfiguredMay, CarriedMay, KeptMay, AnswersQueue, AnswersPlace, AnswersSend, AnswersReport, AnswersLastFailure, AnswersFailure, AnswersKill, AnswersLoss, VertexIsThere, TaskIsThere, CountIsTold, StateIsTold, LiveAreTold, WinnersAreTold, DoneIsTold, NoneFailed, TaskIsInVertex, LiveIsOfTask, WinnerIsOfTask};

/// A task gets its first attempt.
pub fn task_is_queued()
    ensures { (g : Dag) (c : ConfValues) (past : Past) (t : TaskId) → QueueIsTaken g c past t }
{}

/// A queued attempt takes a place, and the order of a waiting one goes out.
pub fn attempt_goes_on()
    ensures place { (g : Dag) (c : ConfValues) (past : Past) (a : AttemptId) (p : ℕ) → PlaceIsTaken g c past a p }
    ensures send { (g : Dag) (c : ConfValues) (past : Past) (a : AttemptId) → SendIsTaken g c past a }
{}

/// An attempt ends: its report makes it the winner, a failure counts and, unless it spends the task,
/// queues the next attempt, and so does a preemption.
pub fn attempt_ends()
    ensures report { (g : Dag) (c : ConfValues) (past : Past) (a : AttemptId) → ReportIsTaken g c past a }
    ensures fail { (g : Dag) (c : ConfValues) (past : Past) (a : AttemptId) → FailureIsTaken g c past a }
    ensures preempt { (g : Dag) (c : ConfValues) (past : Past) (a : AttemptId) → PreemptIsTaken g c past a }
{}

/// A fetch that finds the pieces leaves the vertices as they are. One that does not withdraws the
/// winner, and its task is queued again.
pub fn winner_is_withdrawn()
    ensures found { (g : Dag) (c : ConfValues) (past : Past) (a : AttemptId) (e : EdgeId) → FoundLeaves g c past a e }
    ensures missed { (g : Dag) (c : ConfValues) (past : Past) (a : AttemptId) → MissedWithdraws g c past a }
{}

/// A node is lost: who held its places is killed, by place, and then the winners whose pieces lay
/// there are withdrawn, by task, both as the history tells them before the loss. In the commit it
/// concerns no task.
pub fn node_is_lost()
    ensures before { (g : Dag) (c : ConfValues) (past : Past) (slot : ℕ) → LossKillsAndWithdraws g c past slot }
    ensures commit { (g : Dag) (c : ConfValues) (past : Past) (slot : ℕ) → LateLossLeaves g c past slot }
{}

/// Every other event but a configuration leaves the vertices as they are, and so does what the store
/// answers of a sink.
pub fn vertices_are_left()
    ensures event { (g : Dag) (c : ConfValues) (past : Past) (e : CoreEvent) → LeavesVertices g c past e }
    ensures asked { (g : Dag) (c : ConfValues) (past : Past) (v : VertexId) → AnswerLeaves g c past v }
{}

/// A vertex is configured: it gets the tasks that its manager says, which have no attempt yet.
pub fn vertex_is_configured()
    ensures { (g : Dag) (c : ConfValues) (past : Past) (v : VertexId) (s : Config) → VertexIsConfigured g c past v s }
{}

/// Only tasks of configured vertices have failed: so it is before the first entry, each event,
/// report, answer of the store and stop keeps it, and so does a new master whose failures are at tasks
/// of what stands.
pub fn failed_are_tasks()
    ensures begins { (g : Dag) → FailedAreTasks g [] }
    ensures event { (g : Dag) (c : ConfValues) (past : Past) (e : CoreEvent) → EventKeepsFailed g c past e }
    ensures report { (g : Dag) (c : ConfValues) (past : Past) (a : AttemptId) → ReportKeepsFailed g c past a }
    ensures asked { (g : Dag) (c : ConfValues) → AnswersKeep g c (FailedAreTasks g) }
    ensures stop { (g : Dag) (c : ConfValues) (r : Run) (cause : StopCause) → StopKeepsFailed g c r cause }
    ensures start { (g : Dag) (c : ConfValues) (r : Run) (found : Found) → StartKeepsFailed g c r found }
{}

/// Before the first entry, and where a new master finds a finished job, no vertex is configured. A
/// stop leaves the vertices configured, with the counts of their tasks, but no task has a live attempt
/// or a winner. A new master that goes on begins with vertices that are not configured, whatever a
/// stop left: it configures what stands, then sets the failures that it finds, and then the winners
/// that it takes over. What makes no sense in them changes nothing. Its epoch is above the one that it
/// finds, and above each before. A commit that it takes up changes nothing of that.
pub fn masters_change()
    ensures begins { (g : Dag) (c : ConfValues) → vertices_view g c [] ≡ new_vertices g c 0 }
    ensures stop { (g : Dag) (c : ConfValues) (r : Run) (cause : StopCause) → StopIdles g c r cause }
    ensures over { (g : Dag) (c : ConfValues) (r : Run) → OverIsNew g c r }
    ensures start { (g : Dag) (c : ConfValues) (r : Run) (s : Standing) → StartRestores g c r s }
    ensures taken_up { (g : Dag) (c : ConfValues) (r : Run) (s : Standing) (n : ℕ) → TakenUpRestores g c r s n }
{}

/// Each task may be restored when a new master comes to it: none had an attempt yet, and each may
/// fail more often.
pub fn tasks_may_be_restored()
    ensures new { (g : Dag) (c : ConfValues) (epoch : ℕ) → AreRestorable c (new_vertices g c epoch) }
    ensures configured { (c : ConfValues) (vs : List Vertex) (x : ℕ × Config) → ConfiguredMay c vs x }
    ensures carried { (c : ConfValues) (vs : List Vertex) (x : TaskId × ℕ) → CarriedMay c vs x }
    ensures kept { (c : ConfValues) (vs : List Vertex) (a : AttemptId) → KeptMay c vs a }
{}

/// What a task answers is what the entries say: an attempt goes on, the next attempt that is queued
/// is the history's next one, and a failure that brings the count to the limit spends the task.
pub fn answers_agree()
    ensures queue { (g : Dag) (c : ConfValues) (past : Past) (t : TaskId) → AnswersQueue g c past t }
    ensures place { (g : Dag) (c : ConfValues) (past : Past) (a : AttemptId) (p : ℕ) → AnswersPlace g c past a p }
    ensures send { (g : Dag) (c : ConfValues) (past : Past) (a : AttemptId) → AnswersSend g c past a }
    ensures report { (g : Dag) (c : ConfValues) (past : Past) (a : AttemptId) → AnswersReport g c past a }
    ensures spent { (g : Dag) (c : ConfValues) (past : Past) (a : AttemptId) → AnswersLastFailure g c past a }
    ensures fail { (g : Dag) (c : ConfValues) (past : Past) (a : AttemptId) → AnswersFailure g c past a }
    ensures kill { (g : Dag) (c : ConfValues) (past : Past) (a : AttemptId) → AnswersKill g c past a }
    ensures lose { (g : Dag) (c : ConfValues) (past : Past) (w : AttemptId) → AnswersLoss g c past w }
{}

/// What a vertex tells is what the history tells: its tasks by number, their live attempts and next
/// ones, how far an attempt has come, that it is done once every task has a winner, and that none is
/// spent while failures are few. The live attempts and the winners come in order of tasks.
pub fn readings_agree()
    ensures vertex { (g : Dag) (c : ConfValues) (past : Past) (v : ℕ) → VertexIsThere g c past v }
    ensures task { (g : Dag) (c : ConfValues) (past : Past) (v i : ℕ) → TaskIsThere g c past v i }
    ensures count { (g : Dag) (c : ConfValues) (past : Past) (v : ℕ) → CountIsTold g c past v }
    ensures state { (g : Dag) (c : ConfValues) (past : Past) (a : AttemptId) → StateIsTold g c past a }
    ensures all_live { (g : Dag) (c : ConfValues) (past : Past) → LiveAreTold g c past }
    ensures all_winners { (g : Dag) (c : ConfValues) (past : Past) → WinnersAreTold g c past }
    ensures live { (c : ConfValues) (past : Past) (t : TaskId) → live_of (task_view c t past) ≡ live t past }
    ensures next { (c : ConfValues) (past : Past) (t : TaskId) → next_of (task_view c t past) ≡ next_attempt past t }
    ensures done { (g : Dag) (c : ConfValues) (past : Past) (v : ℕ) → DoneIsTold g c past v }
    ensures failed { (c : ConfValues) (past : Past) (v : ℕ) → NoneFailed c past v }
{}

/// A task of a configured vertex is there, and so is that of a live attempt or of a winner.
pub fn tasks_are_there()
    ensures task { (g : Dag) (c : ConfValues) (past : Past) (t : TaskId) → TaskIsInVertex g c past t }
    ensures live { (g : Dag) (c : ConfValues) (past : Past) (a : AttemptId) → LiveIsOfTask g c past a }
    ensures winner { (g : Dag) (c : ConfValues) (past : Past) (t : TaskId) → WinnerIsOfTask g c past t }
{}
