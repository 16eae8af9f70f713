//! How a new master begins from what it finds, and that what the tables of a master make of it is what
//! the history says.
//!
//! It has no code, but a function for each law, whose contract is the law.
#![tactic(auto)]

ghost use Rattle.std.specs.Prelude.{ℕ, List, []};
ghost use Rattle.tez_plan.specs.Dag.{Dag};
ghost use Rattle.tez_plan.specs.Faults.{IsValid};
ghost use Rattle.tez_plan.specs.Ranges.{IsInRanges};
ghost use Rattle.tez_conf.specs.declared.values.ConfValues.{ConfValues};
ghost use Rattle.tez_conf.specs.Ranges.{IsInRange};
ghost use Rattle.tez_events.specs.declared.StopCause.{StopCause};
ghost use Rattle.tez_events.specs.declared.JournalRecord.{JournalRecord};
ghost use Rattle.tez_standing.specs.declared.state.Standing.{Standing};
ghost use Rattle.tez_history.specs.History.{Past};
ghost use Rattle.tez_history.specs.Runs.{Run};
ghost use Rattle.tez_master_view.specs.Laws.{Goes};
ghost use Rattle.tez_master_model.specs.Recovery.{KeptState};
ghost use Rattle.tez_recovery.specs.Statements.{OpensAsHistory, OpensFresh, TakesUpFresh, RecordsNone, IsOverAtOnce, TakesAll, IsUnspent, RunsOn, CanTakeAll, IsAsHistory, IsUpAtOnce, GoesByStop, GoesByStart, IsRightByRecords, IsWholeByRecords};

/// A master begins with its first entry: nothing is configured, queued or won, and the places are as
/// they were. It is fresh where no sink was recorded before, and where a commit has started it makes
/// of what it finds what a fresh master does; where the job is over, it is so but for what the history
/// tells of the sinks, of which a fresh master knows nothing. No sink is recorded before a commit has
/// started.
pub fn masters_begin()
    ensures opens { (g : Dag) (c : ConfValues) (past : Past) (s : Standing) → OpensAsHistory g c past s }
    ensures fresh { (g : Dag) (c : ConfValues) (past : Past) (s : Standing) → OpensFresh g c past s }
    ensures committed { (g : Dag) (c : ConfValues) (past : Past) (s : Standing) → TakesUpFresh g c past s }
    ensures unrecorded { (g : Dag) (c : ConfValues) (past : Past) → RecordsNone g c past }
    ensures over { (g : Dag) (c : ConfValues) (past : Past) → IsOverAtOnce g c past }
{}

/// What a new master finds is all taken: its history begins with the entry of its open, and then each
/// vertex stands, each count of failures is carried over and each winner is kept, in the order of what
/// is found, and last a commit that has started is taken up. Where the job is over it tells so, and no
/// more. No task is spent exactly where the model finds none. And so the run that it begins has no
/// verdict.
pub fn what_is_found_is_taken()
    ensures entries { (g : Dag) (c : ConfValues) (past : Past) (s : Standing) → TakesAll g c past s }
    ensures unspent { (c : ConfValues) (s : Standing) (ks : List KeptState) → IsUnspent c s ks }
    ensures run { (g : Dag) (c : ConfValues) (r : Run) (s : Standing) → RunsOn g c r s }
{}

/// A new master goes on from what it finds: its parts can be told each thing when its turn comes, and
/// then it is what the history says that begins with it, and is up.
pub fn master_goes_on()
    ensures can { (g : Dag) (c : ConfValues) (past : Past) (s : Standing) → CanTakeAll g c past s }
    ensures view { (g : Dag) (c : ConfValues) (past : Past) (s : Standing) → IsAsHistory g c past s }
    ensures begun { (g : Dag) (c : ConfValues) (past : Past) (s : Standing) → IsUpAtOnce g c past s }
{}

/// A master can go by a history before its first entry, after a stop, and once a new master has begun.
pub fn histories_go_on()
    ensures first { (g : Dag) (c : ConfValues) → IsValid g → IsInRanges g → IsInRange c → Goes g c [] }
    ensures stop { (g : Dag) (c : ConfValues) (past : Past) (cause : StopCause) → GoesByStop g c past cause }
    ensures start { (g : Dag) (c : ConfValues) (past : Past) (s : Standing) → GoesByStart g c past s }
{}

/// The standing that the legal records of a journal tell is one that the plan can have: the vertices
/// that are configured are of the plan, each once and with no more tasks and partitions than there,
/// and who failed or won is a task of them. Once the commit has started, all vertices of the plan are
/// configured, and each of their tasks has a winner.
pub fn legal_records_are_right()
    ensures right { (g : Dag) (rs : List JournalRecord) → IsRightByRecords g rs }
    ensures whole { (g : Dag) (rs : List JournalRecord) → IsWholeByRecords g rs }
{}
