//! What a history says of the router: the state that a router has after it, what each event makes
//! of that state, and what the router's answers are in the words of the model.
//!
//! It has no code, but a function for each group of laws, whose contract is the laws.
#![tactic(auto)]

ghost use Rattle.std.specs.Prelude.{◌≡◌, [], ℕ, List};
ghost use Rattle.tez_ids.specs.declared.TaskId.{TaskId};
ghost use Rattle.tez_ids.specs.declared.VertexId.{VertexId};
ghost use Rattle.tez_ids.specs.declared.EdgeId.{EdgeId};
ghost use Rattle.tez_ids.specs.declared.AttemptId.{AttemptId};
ghost use Rattle.tez_plan.specs.Dag.{Dag};
ghost use Rattle.tez_conf.specs.declared.values.ConfValues.{ConfValues};
ghost use Rattle.tez_events.specs.declared.StopCause.{StopCause};
ghost use Rattle.tez_events.specs.declared.Entry.{Entry};
ghost use Rattle.tez_events.specs.declared.CoreEvent.{CoreEvent};
ghost use Rattle.tez_history.specs.History.{Past};
ghost use Rattle.tez_history.specs.Runs.{Standing};
ghost use Rattle.tez_history.specs.Derived.{Input};
ghost use Rattle.tez_laws.specs.Laws.{AnswersKeep};
ghost use Rattle.tez_router.specs.State.{RouterState};
ghost use Rattle.tez_router.specs.Planned.{planned_router};
ghost use Rattle.tez_router.specs.Table.{without};
ghost use Rattle.tez_router_view.specs.View.{router_view, FitsPlan};
ghost use Rattle.tez_router_view.specs.Events.{after_dismisses};
ghost use Rattle.tez_router_view.specs.Statements.{StartIsPlanned, StopEmpties, OpenCanSetEdges, OpenSetsAndAnnounces, DoneAnnounces, KeptAnnounces, WithdrawalTells, WithdrawalLines, PlaceAdmits, SendDismisses, PreemptDismisses, FoundIsFetched, MissedWithdraws, MissedLines, ConfigureCanSetEdges, ConfigureSetsEdges, StandsCanSetEdges, StandsSetsEdges, LossDismissesAndWithdraws, LossLines, LateLossLeaves, QueueLeaves, FailureLeaves, OutputLossLeaves, ReadyLeaves, CommitLeaves, AnswerLeaves, PublishLeaves, FinishLeaves, PurgeLeaves, CarriedLeaves, CommittingLeaves, EntryFits, EventFits, OpenFits, TakenUpFits, ReportFits, NoticesAreTold, NoneIsTold, SourceIsTold, FetchedIsTold, FetchedBehindIsTold, MissingIsTold, WaitingIsListed, FetchIsTested, SendIsTested, FetchesAreEnabled, FetchIsChosen, SendIsChosen};

/// Where a run begins, and where a master opens, the router is that of the plan. After a stop nothing
/// is won and nobody is admitted, and the edges keep their managers until the next open.
pub fn router_begins()
    ensures first { (g : Dag) → router_view g [] ≡ planned_router g }
    ensures start { (g : Dag) (past : Past) (e : Entry) → StartIsPlanned g past e }
    ensures stop { (g : Dag) (past : Past) (cause : StopCause) → StopEmpties g past cause }
{}

/// A new master that goes on from what it finds gives each edge the manager of the configurations that
/// stand, and then announces the winners that are taken over.
pub fn master_opens()
    ensures can { (g : Dag) (c : ConfValues) (past : Past) (s : Standing) → OpenCanSetEdges g c past s }
    ensures opened { (g : Dag) (c : ConfValues) (past : Past) (s : Standing) → OpenSetsAndAnnounces g c past s }
{}

/// A winner is announced when its attempt is done, and when it is taken over from a master before.
/// It is withdrawn when it is run again, and nothing else of the withdrawal changes the router; the
/// lines of the withdrawal are made of the notices that the router has before it.
pub fn winners_come_and_go()
    ensures done { (g : Dag) (c : ConfValues) (past : Past) (a : AttemptId) → DoneAnnounces g c past a }
    ensures kept { (g : Dag) (c : ConfValues) (past : Past) (a : AttemptId) → KeptAnnounces g c past a }
    ensures withdrawn { (g : Dag) (c : ConfValues) (past : Past) (w : AttemptId) → WithdrawalTells g c past w }
    ensures lines { (g : Dag) (c : ConfValues) (past : Past) (w : AttemptId) → WithdrawalLines g c past w }
{}

/// An attempt is admitted when it is placed, with nothing fetched. It is dismissed when it is sent
/// off with all its inputs, and when it gives way.
pub fn attempts_come_and_go()
    ensures placed { (g : Dag) (c : ConfValues) (past : Past) (a : AttemptId) (p : ℕ) → PlaceAdmits g c past a p }
    ensures sent { (g : Dag) (c : ConfValues) (past : Past) (a : AttemptId) → SendDismisses g c past a }
    ensures gives_way { (g : Dag) (c : ConfValues) (past : Past) (a : AttemptId) → PreemptDismisses g c past a }
{}

/// An input whose pieces are on the shelf is fetched. Where they are not, that is a read error: the
/// winner is withdrawn, and those that wait for it are told.
pub fn inputs_are_fetched()
    ensures fetched { (g : Dag) (c : ConfValues) (past : Past) (a : AttemptId) → FoundIsFetched g c past a }
    ensures read_error { (g : Dag) (c : ConfValues) (past : Past) (a : AttemptId) → MissedWithdraws g c past a }
    ensures lines { (g : Dag) (c : ConfValues) (past : Past) (a : AttemptId) (e : EdgeId) → MissedLines g c past a e }
{}

/// When a vertex is configured, each edge at it gets the manager of the task counts that hold then,
/// one after another, and may get it: nobody waits at the vertex, and those that wait for its outputs
/// have fetched none of them and get no more inputs than they had. The same holds of a
/// configuration that stands again.
pub fn vertex_is_configured()
    ensures can { (g : Dag) (c : ConfValues) (past : Past) (v : VertexId) → ConfigureCanSetEdges g c past v }
    ensures set { (g : Dag) (c : ConfValues) (past : Past) (v : VertexId) → ConfigureSetsEdges g c past v }
    ensures can_again { (g : Dag) (c : ConfValues) (past : Past) (v : VertexId) → StandsCanSetEdges g c past v }
    ensures set_again { (g : Dag) (c : ConfValues) (past : Past) (v : VertexId) → StandsSetsEdges g c past v }
{}

/// When a node is lost before the commit, those who hold a place of it are dismissed, and then the
/// winners whose pieces lie on it are withdrawn in the order of tasks. Although each part of the
/// loss is computed at its own moment, its lines are those that the router gives before the loss,
/// once it is without those who held a place. Dismissals one after another are one.
pub fn node_is_lost()
    ensures lost { (g : Dag) (c : ConfValues) (past : Past) (slot : ℕ) → LossDismissesAndWithdraws g c past slot }
    ensures lines { (g : Dag) (c : ConfValues) (past : Past) (slot : ℕ) → LossLines g c past slot }
    ensures late { (g : Dag) (c : ConfValues) (past : Past) (slot : ℕ) → LateLossLeaves g c past slot }
    ensures dismissals { (s : RouterState) (gone : List AttemptId) → after_dismisses s gone ≡ without s gone }
{}

/// Every other event leaves the router as it is, and so do what the store answers of a sink, and the
/// failures that a new master reads and the commit that it takes up.
pub fn others_leave_it()
    ensures queue { (g : Dag) (c : ConfValues) (past : Past) (t : TaskId) → QueueLeaves g c past t }
    ensures fail { (g : Dag) (c : ConfValues) (past : Past) (a : AttemptId) → FailureLeaves g c past a }
    ensures output { (g : Dag) (c : ConfValues) (past : Past) (t : TaskId) → OutputLossLeaves g c past t }
    ensures ready { (g : Dag) (c : ConfValues) (past : Past) (v : VertexId) → ReadyLeaves g c past v }
    ensures commit { (g : Dag) (c : ConfValues) (past : Past) → CommitLeaves g c past }
    ensures asked { (g : Dag) (past : Past) (v : VertexId) → AnswerLeaves g past v }
    ensures publish { (g : Dag) (c : ConfValues) (past : Past) (v : VertexId) → PublishLeaves g c past v }
    ensures finish { (g : Dag) (c : ConfValues) (past : Past) → FinishLeaves g c past }
    ensures purge { (g : Dag) (c : ConfValues) (past : Past) → PurgeLeaves g c past }
    ensures carried { (g : Dag) (past : Past) (t : TaskId) (n : ℕ) → CarriedLeaves g past t n }
    ensures committing { (g : Dag) (past : Past) (n : ℕ) → CommittingLeaves g past n }
{}

/// In a run of a valid plan no vertex ever has more tasks than the plan gives it, if none has that
/// a master finds configured.
pub fn tasks_fit_the_plan()
    ensures first { (g : Dag) → FitsPlan g [] }
    ensures entry { (g : Dag) (c : ConfValues) (past : Past) (e : Entry) → EntryFits g c past e }
    ensures event { (g : Dag) (c : ConfValues) (past : Past) (e : CoreEvent) → EventFits g c past e }
    ensures opened { (g : Dag) (past : Past) (s : Standing) → OpenFits g past s }
    ensures taken_up { (g : Dag) (past : Past) (s : Standing) (n : ℕ) → TakenUpFits g past s n }
    ensures report { (g : Dag) (past : Past) (a : AttemptId) (made : List (ℕ × ℕ)) → ReportFits g past a made }
    ensures asked { (g : Dag) (c : ConfValues) → AnswersKeep g c (FitsPlan g) }
{}

/// What the router answers, in the words of the model. The notices of a task are those of its
/// winner, and there are none where it has no winner. The winner behind an input is the router's
/// source, where the edge leads to the attempt's vertex. Of an input that a waiting attempt has, or
/// that has a winner behind it, the router tells whether it was fetched. A waiting attempt misses
/// nothing exactly where it has fetched all.
pub fn router_answers()
    ensures notices { (g : Dag) (c : ConfValues) (past : Past) (w : AttemptId) → NoticesAreTold g c past w }
    ensures silent { (g : Dag) (c : ConfValues) (past : Past) (t : TaskId) → NoneIsTold g c past t }
    ensures source { (g : Dag) (c : ConfValues) (past : Past) → SourceIsTold g c past }
    ensures fetched { (g : Dag) (past : Past) (a : AttemptId) (k : Input) → FetchedIsTold g past a k }
    ensures fetched_behind { (g : Dag) (past : Past) (a : AttemptId) (e i : ℕ) → FetchedBehindIsTold g past a e i }
    ensures missing { (g : Dag) (past : Past) (a : AttemptId) → MissingIsTold g past a }
{}

/// Whether a fetch or an order is enabled is told by the router's answers, once it is known whether
/// the attempt waits.
pub fn router_tests()
    ensures waiting { (g : Dag) (c : ConfValues) (past : Past) (a : AttemptId) → WaitingIsListed g c past a }
    ensures fetch { (g : Dag) (c : ConfValues) (past : Past) → FetchIsTested g c past }
    ensures send { (g : Dag) (c : ConfValues) (past : Past) (a : AttemptId) → SendIsTested g c past a }
{}

/// While the master runs, the fetches that the router finds are the enabled ones, in order. So its
/// first is the master's choice among fetches, and the first attempt that misses nothing is its
/// choice among those to be sent off.
pub fn router_chooses()
    ensures fetches { (g : Dag) (c : ConfValues) (past : Past) → FetchesAreEnabled g c past }
    ensures fetch { (g : Dag) (c : ConfValues) (past : Past) → FetchIsChosen g c past }
    ensures send { (g : Dag) (c : ConfValues) (past : Past) → SendIsChosen g c past }
{}
