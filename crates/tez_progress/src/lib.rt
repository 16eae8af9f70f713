//! The law that a run goes on: a master that is up has a next event of its own, unless an attempt
//! is processing or the run has ended.
//!
//! It has no code, but a function for each law, whose contract is the law.
#![tactic(auto)]

ghost use Rattle.std.specs.Prelude.{◌≡◌, ◌≤◌, ◌<◌, ◌∷◌, ℕ, List, length, Some, None, true, false};
ghost use Rattle.std.specs.List.{AllByRecursion};
ghost use Rattle.tez_lists.specs.Numbers.{In};
ghost use Rattle.tez_plan.specs.Dag.{Dag};
ghost use Rattle.tez_plan.specs.Faults.{IsValid};
ghost use Rattle.tez_plan.specs.Ranges.{IsInRanges};
ghost use Rattle.tez_conf.specs.declared.values.ConfValues.{ConfValues};
ghost use Rattle.tez_conf.specs.Ranges.{IsInRange};
ghost use Rattle.tez_vman.specs.Rules.{HasSources};
ghost use Rattle.tez_events.specs.declared.Entry.{Entry};
ghost use Rattle.tez_events.specs.declared.CoreEvent.{CoreEvent};
ghost use Rattle.tez_events.specs.declared.JournalRecord.{JournalRecord};
ghost use Rattle.tez_standing.specs.Standing.{IsLegal, standing};
ghost use Rattle.tez_history.specs.Shape.{feed, rule};
ghost use Rattle.tez_history.specs.History.{Past};
ghost use Rattle.tez_history.specs.Derived.{seen};
ghost use Rattle.tez_history.specs.Steps.{enabled, candidates, choice};
ghost use Rattle.tez_history.specs.Follows.{MayFollow, IsMade};
ghost use Rattle.tez_history.specs.Runs.{Happening, run, not_begun};
ghost use Rattle.tez_laws.specs.Laws.{SourcesDone, IsReady, GoesOn};
ghost use Rattle.tez_progress.specs.Laws.{IsFed, IsRanked, is_stands, Fits, IsFitted, found_at, found_configs, FindsFitting, GoesFurther, IsNeverStuck};

/// A vertex of a valid plan reads a source, or has one primary edge, which is one to one, or
/// gathers over at least one edge.
pub fn vertices_are_fed()
    ensures { (g : Dag) (v : ℕ) → IsValid g → v < length g.vertices → IsFed g v (feed g v) }
{}

/// In a valid plan the vertex at the start of an edge is there and less deep than that at its end,
/// and no vertex is as deep as there are vertices.
pub fn edges_lead_deeper()
    ensures { (g : Dag) → IsValid g → IsRanked g }
{}

/// What a manager configures has tasks, and as many as the vertex has that feeds it one to one. So
/// the configurations of every run fit the plan, if what each new master finds does.
pub fn configurations_fit()
    ensures next { (g : Dag) (c : ConfValues) (past : Past) (e : Entry) → IsInRanges g → IsValid g → MayFollow g c past e → is_stands e ≡ false → IsFitted g past → IsFitted g (e ∷ past) }
    ensures run { (g : Dag) (c : ConfValues) (hs : List Happening) → IsInRanges g → IsValid g → 1 ≤ c.max_failed → AllByRecursion (FindsFitting g) hs → IsFitted g (run g c not_begun hs).past }
{}

/// What the records of a journal tell fits the plan, if they are legal.
pub fn legal_records_fit()
    ensures { (g : Dag) (rs : List JournalRecord) → IsInRanges g → IsLegal g rs → Fits g (found_at (found_configs (standing g rs).configured)) }
{}

/// What the manager of a vertex sees meets the condition of its calls: once the vertices that feed
/// it are configured, there are source tasks. So once these have winners, it configures the vertex,
/// and all the vertex's tasks are to be scheduled.
pub fn managers_see_sources()
    ensures sources { (g : Dag) (c : ConfValues) (v : ℕ) (past : Past) → IsValid g → IsFitted g past → v < length g.vertices → HasSources (rule g c v) (seen g v past) }
    ensures ready { (g : Dag) (c : ConfValues) (v : ℕ) (past : Past) → IsValid g → IsInRange c → IsFitted g past → v < length g.vertices → SourcesDone g v past → IsReady g c v past }
{}

/// The master's choice is enabled, and where it has none, none of its candidates is.
pub fn choice_is_enabled()
    ensures some { (g : Dag) (c : ConfValues) (past : Past) (e : CoreEvent) → choice g c past ≡ Some e → enabled g c past e ≡ true }
    ensures none { (g : Dag) (c : ConfValues) (past : Past) (e : CoreEvent) → choice g c past ≡ None → In e (candidates g c past) → enabled g c past e ≡ false }
{}

/// A master that is up has a next event of its own, unless an attempt is processing: after every
/// history that is made, whose configurations fit the plan, and in which each task that was kept or
/// queued has a live attempt or a winner. So it is in every run, whatever happens, until it ends, if
/// what each new master finds fits the plan.
pub fn master_is_never_stuck()
    ensures history { (g : Dag) (c : ConfValues) (past : Past) → IsValid g → IsInRange c → IsMade g c past → IsFitted g past → GoesOn past → GoesFurther g c past }
    ensures run { (g : Dag) (c : ConfValues) (hs : List Happening) → IsInRanges g → IsValid g → IsInRange c → AllByRecursion (FindsFitting g) hs → IsNeverStuck g c (run g c not_begun hs) }
{}
