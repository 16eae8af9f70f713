//! What attempts make: functions of the history of a run, and the law that every attempt makes what
//! its task is to make.
//!
//! It has no code, but a function for each law, whose contract is the law.
#![tactic(auto)]

ghost use Rattle.std.specs.Prelude.{◌≡◌, ◌≤◌, ◌∷◌, List, true, false};
ghost use Rattle.std.specs.List.{AllByRecursion};
ghost use Rattle.tez_ids.specs.declared.AttemptId.{AttemptId};
ghost use Rattle.tez_plan.specs.Dag.{Dag};
ghost use Rattle.tez_plan.specs.Faults.{IsValid};
ghost use Rattle.tez_plan.specs.Ranges.{IsInRanges};
ghost use Rattle.tez_conf.specs.declared.values.ConfValues.{ConfValues};
ghost use Rattle.tez_meaning.specs.Jobs.{Job};
ghost use Rattle.tez_events.specs.declared.Entry.{Entry};
ghost use Rattle.tez_history.specs.History.{Past, stage};
ghost use Rattle.tez_history.specs.Derived.{is_processing};
ghost use Rattle.tez_history.specs.Follows.{MayFollow, IsMade};
ghost use Rattle.tez_history.specs.Runs.{Happening, run, not_begun};
ghost use Rattle.tez_progress.specs.Laws.{is_stands};
ghost use Rattle.tez_contents.specs.Contents.{is_ordered};
ghost use Rattle.tez_contents.specs.Laws.{IsAllowedNow, WereAllowed, is_kept, HasNone, KeptRight, WinnersAreRight, OrdersAreRight, FetchesAreRight, BadsAreRight, WinnersAreWhole, IsRight, AllFindRight, BeginsAnew};

/// What a manager configures is allowed. So where no new master found a configuration, what is
/// configured is always allowed; and where none took over a winner, there is none to ask of.
pub fn configurations_are_allowed()
    ensures next { (g : Dag) (c : ConfValues) (past : Past) (e : Entry) → IsInRanges g → IsValid g → MayFollow g c past e → is_stands e ≡ false → IsAllowedNow g past → IsAllowedNow g (e ∷ past) }
    ensures always { (g : Dag) (c : ConfValues) (past : Past) → IsInRanges g → IsValid g → IsMade g c past → HasNone is_stands past → WereAllowed g past }
    ensures now { (g : Dag) (c : ConfValues) (past : Past) → IsInRanges g → IsValid g → IsMade g c past → HasNone is_stands past → IsAllowedNow g past }
    ensures kept { (job : Job) (past : Past) → HasNone is_kept past → KeptRight job past }
{}

/// Each winner made what its task is to make, as the vertices are configured, and so did each
/// attempt that was sent to its container, be it processing, done, failed or withdrawn since; and
/// each input that was fetched is the piece of what its source task is to make. A job may have bad
/// records.
pub fn attempts_make_their_tasks()
    ensures winners { (job : Job) (c : ConfValues) (past : Past) → IsInRanges job.plan → IsValid job.plan → IsMade job.plan c past → WereAllowed job.plan past → KeptRight job past → WinnersAreRight job past }
    ensures orders { (job : Job) (c : ConfValues) (past : Past) → IsInRanges job.plan → IsValid job.plan → IsMade job.plan c past → WereAllowed job.plan past → KeptRight job past → OrdersAreRight job past }
    ensures fetches { (job : Job) (c : ConfValues) (past : Past) → IsInRanges job.plan → IsValid job.plan → IsMade job.plan c past → WereAllowed job.plan past → KeptRight job past → FetchesAreRight job past }
    ensures processing { (a : AttemptId) (past : Past) → is_processing (stage a past) ≡ true → is_ordered a past ≡ true }
{}

/// An attempt that was sent to its container reads a bad record exactly where its task does.
pub fn attempts_are_bad_as_their_tasks()
    ensures { (job : Job) (c : ConfValues) (past : Past) → IsInRanges job.plan → IsValid job.plan → IsMade job.plan c past → WereAllowed job.plan past → KeptRight job past → BadsAreRight job past }
{}

/// The winners of a vertex, once each of its tasks has one, make together what the vertex makes.
pub fn winners_make_the_whole()
    ensures { (job : Job) (c : ConfValues) (past : Past) → IsInRanges job.plan → IsValid job.plan → IsMade job.plan c past → WereAllowed job.plan past → IsAllowedNow job.plan past → KeptRight job past → WinnersAreWhole job past }
{}

/// So it is in every run, whatever happens, if what each new master finds is right: its
/// configurations are allowed, and the winners that it takes over made what their tasks are to make.
/// Where each begins anew, nothing is asked.
pub fn every_run_is_right()
    ensures found { (job : Job) (c : ConfValues) (hs : List Happening) → IsInRanges job.plan → IsValid job.plan → 1 ≤ c.max_failed → AllFindRight job c not_begun hs → IsRight job (run job.plan c not_begun hs).past }
    ensures anew { (job : Job) (c : ConfValues) (hs : List Happening) → IsInRanges job.plan → IsValid job.plan → 1 ≤ c.max_failed → AllByRecursion BeginsAnew hs → IsRight job (run job.plan c not_begun hs).past }
{}
