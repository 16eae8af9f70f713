//! What the schedule has to be after a history, and what each event makes of it.
//!
//! It has no code, but a function for each law, whose contract is the law.
#![tactic(auto)]

ghost use Rattle.std.specs.Prelude.{◌≡◌, ◌∷◌, [], ℕ};
ghost use Rattle.tez_ids.specs.declared.EdgeId.{EdgeId};
ghost use Rattle.tez_ids.specs.declared.TaskId.{TaskId};
ghost use Rattle.tez_ids.specs.declared.VertexId.{VertexId};
ghost use Rattle.tez_ids.specs.declared.AttemptId.{AttemptId};
ghost use Rattle.tez_plan.specs.Dag.{Dag};
ghost use Rattle.tez_conf.specs.declared.values.ConfValues.{ConfValues};
ghost use Rattle.tez_vman.specs.declared.seen.Config.{Config};
ghost use Rattle.tez_events.specs.declared.StopCause.{StopCause};
ghost use Rattle.tez_events.specs.declared.Entry.{Entry};
ghost use Rattle.tez_events.specs.declared.Entry.TheVariants.{Over, Stopped};
ghost use Rattle.tez_events.specs.declared.CoreEvent.{CoreEvent};
ghost use Rattle.tez_history.specs.History.{Past};
ghost use Rattle.tez_history.specs.Runs.{Standing};
ghost use Rattle.tez_laws.specs.Laws.{AnswersKeep};
ghost use Rattle.tez_schedule.specs.Planned.{planned_schedule};
ghost use Rattle.tez_schedule_view.specs.View.{schedule_view};
ghost use Rattle.tez_schedule_view.specs.Events.{told_bytes, Tells, TellsInTime};
ghost use Rattle.tez_schedule_view.specs.Statements.{StartIsPlanned, ConfigureTells, StandsTells, QueueSchedules, QueuedSchedules, AgainLeaves, DoneWins, KeptWins, WithdrawalTells, LossWithdraws, LateLossLeaves, FoundLeaves, MissedWithdraws, PlaceLeaves, SendLeaves, PreemptLeaves, FailureLeaves, OutputLossLeaves, ReadyLeaves, CommitLeaves, AnswerLeaves, PublishLeaves, FinishLeaves, PurgeLeaves, CarriedLeaves, CommittingLeaves, IsEnough, SeenIsTold, ConfigIsTold, ConfiguresIsTold, QueuedIsTold, ProgressIsTold, DoneIsTold, ConfigureIsChosen, QueueIsChosen, ProcessingHasNone, EventTellsInTime, ReportTellsInTime, OpenTellsInTime, TakenUpTellsInTime};

/// Where a run begins, and where a master opens, the schedule is that of the plan.
pub fn schedule_is_new()
    ensures first { (g : Dag) (c : ConfValues) → schedule_view g c [] ≡ planned_schedule g c }
    ensures start { (g : Dag) (c : ConfValues) (past : Past) (e : Entry) → StartIsPlanned g c past e }
{}

/// A vertex is configured with what its manager says, and so it is where a configuration stands
/// again. All managers are asked again how many tasks there are to schedule.
pub fn vertex_is_configured()
    ensures now { (g : Dag) (c : ConfValues) (past : Past) (v : VertexId) (s : Config) → ConfigureTells g c past v s }
    ensures again { (g : Dag) (c : ConfValues) (past : Past) (v : VertexId) (n b : ℕ) → StandsTells g c past v n b }
{}

/// A task is scheduled once: when it is queued again, nothing changes.
pub fn task_is_scheduled()
    ensures event { (g : Dag) (c : ConfValues) (past : Past) (t : TaskId) → QueueSchedules g c past t }
    ensures queued { (g : Dag) (c : ConfValues) (past : Past) (a : AttemptId) → QueuedSchedules g c past a }
    ensures again { (g : Dag) (c : ConfValues) (past : Past) (a : AttemptId) → AgainLeaves g c past a }
{}

/// A task has a winner when its attempt is done, with the bytes of the report; of two numbers of
/// bytes for one edge the last counts, and nothing may have been told of the attempt before. A
/// winner that is taken over is scheduled and has won, with the bytes that the history tells of
/// it. A winner that is run again is gone, and nothing else of the withdrawal changes the schedule.
pub fn winners_come_and_go()
    ensures done { (g : Dag) (c : ConfValues) (past : Past) (a : AttemptId) → DoneWins g c past a }
    ensures kept { (g : Dag) (c : ConfValues) (past : Past) (a : AttemptId) → KeptWins g c past a }
    ensures told { (g : Dag) (past : Past) (a : AttemptId) → Tells g past a (told_bytes g past a) }
    ensures withdrawn { (g : Dag) (c : ConfValues) (past : Past) (w : AttemptId) → WithdrawalTells g c past w }
{}

/// When a node is lost before the commit, the kills leave the schedule, and then the winners whose
/// pieces lie on it are withdrawn in the order of tasks.
pub fn node_is_lost()
    ensures lost { (g : Dag) (c : ConfValues) (past : Past) (slot : ℕ) → LossWithdraws g c past slot }
    ensures late { (g : Dag) (c : ConfValues) (past : Past) (slot : ℕ) → LateLossLeaves g c past slot }
{}

/// An input whose pieces are on the shelf is fetched, which leaves the schedule. Where they are
/// not, the winner behind it is withdrawn.
pub fn inputs_are_fetched()
    ensures fetched { (g : Dag) (c : ConfValues) (past : Past) (a : AttemptId) (e : EdgeId) → FoundLeaves g c past a e }
    ensures read_error { (g : Dag) (c : ConfValues) (past : Past) (a : AttemptId) → MissedWithdraws g c past a }
{}

/// Every other event leaves the schedule as it is, and so do what the store answers of a sink, and the
/// failures that a new master reads and the commit that it takes up:
/// the greatest number to schedule is never below the number that there is now, so it stays where
/// nothing changes that a manager sees.
pub fn others_leave_it()
    ensures place { (g : Dag) (c : ConfValues) (past : Past) (a : AttemptId) (p : ℕ) → PlaceLeaves g c past a p }
    ensures send { (g : Dag) (c : ConfValues) (past : Past) (a : AttemptId) → SendLeaves g c past a }
    ensures preempt { (g : Dag) (c : ConfValues) (past : Past) (a : AttemptId) → PreemptLeaves g c past a }
    ensures fail { (g : Dag) (c : ConfValues) (past : Past) (a : AttemptId) → FailureLeaves g c past a }
    ensures output { (g : Dag) (c : ConfValues) (past : Past) (t : TaskId) → OutputLossLeaves g c past t }
    ensures ready { (g : Dag) (c : ConfValues) (past : Past) (v : VertexId) → ReadyLeaves g c past v }
    ensures commit { (g : Dag) (c : ConfValues) (past : Past) → CommitLeaves g c past }
    ensures asked { (g : Dag) (c : ConfValues) (past : Past) (v : VertexId) → AnswerLeaves g c past v }
    ensures publish { (g : Dag) (c : ConfValues) (past : Past) (v : VertexId) → PublishLeaves g c past v }
    ensures finish { (g : Dag) (c : ConfValues) (past : Past) → FinishLeaves g c past }
    ensures purge { (g : Dag) (c : ConfValues) (past : Past) → PurgeLeaves g c past }
    ensures carried { (g : Dag) (c : ConfValues) (past : Past) (t : TaskId) (n : ℕ) → CarriedLeaves g c past t n }
    ensures committing { (g : Dag) (c : ConfValues) (past : Past) (n : ℕ) → CommittingLeaves g c past n }
    ensures enough { (g : Dag) (c : ConfValues) (v : ℕ) (past : Past) → IsEnough g c v past }
{}

/// What the schedule answers, in the words of the model: what a manager sees, what a vertex is
/// configured with and what it is to be configured with, which tasks may be queued, how many tasks
/// of a vertex there are and have a winner, and whether all have.
pub fn schedule_answers()
    ensures seen { (g : Dag) (c : ConfValues) (past : Past) → SeenIsTold g c past }
    ensures config { (g : Dag) (c : ConfValues) (past : Past) → ConfigIsTold g c past }
    ensures configures { (g : Dag) (c : ConfValues) (past : Past) → ConfiguresIsTold g c past }
    ensures queued { (g : Dag) (c : ConfValues) (past : Past) → QueuedIsTold g c past }
    ensures progress { (g : Dag) (c : ConfValues) (past : Past) → ProgressIsTold g c past }
    ensures done { (g : Dag) (c : ConfValues) (past : Past) → DoneIsTold g c past }
{}

/// While the job runs, the vertex that the schedule would configure next, and the task that it would
/// queue next, are the master's first candidates of these kinds.
pub fn schedule_chooses()
    ensures configure { (g : Dag) (c : ConfValues) (past : Past) → ConfigureIsChosen g c past }
    ensures queue { (g : Dag) (c : ConfValues) (past : Past) → QueueIsChosen g c past }
{}

/// Bytes are told only of attempts that were queued and are not alive any more: so it is where a run
/// begins, and every event, report, answer of the store, stop and new master keeps it. So nothing is
/// told of an attempt that is processing before its report.
pub fn bytes_are_told_in_time()
    ensures processing { (past : Past) (a : AttemptId) → ProcessingHasNone past a }
    ensures first { TellsInTime [] }
    ensures event { (g : Dag) (c : ConfValues) (past : Past) (e : CoreEvent) → EventTellsInTime g c past e }
    ensures report { (g : Dag) (c : ConfValues) (past : Past) (a : AttemptId) → ReportTellsInTime g c past a }
    ensures asked { (g : Dag) (c : ConfValues) → AnswersKeep g c TellsInTime }
    ensures stop { (past : Past) (cause : StopCause) → TellsInTime past → TellsInTime (Stopped cause ∷ past) }
    ensures over { (past : Past) → TellsInTime past → TellsInTime (Over ∷ past) }
    ensures opened { (g : Dag) (past : Past) (s : Standing) → OpenTellsInTime g past s }
    ensures taken_up { (g : Dag) (past : Past) (s : Standing) (n : ℕ) → TakenUpTellsInTime g past s n }
{}
