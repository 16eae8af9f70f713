//! The laws of histories: what holds of every history whose entries may follow one another, and
//! what each event and report keeps.
//!
//! It has no code, but a function for each law, whose contract is the law.
#![tactic(auto)]

ghost use Rattle.std.specs.Prelude.{◌≡◌, ◌≤◌, ◌∷◌, [], ℕ, Bool, List, reverse, IsTrue, None, true};
ghost use Rattle.tez_ids.specs.declared.AttemptId.{AttemptId};
ghost use Rattle.tez_ids.specs.declared.VertexId.{VertexId};
ghost use Rattle.tez_plan.specs.Dag.{Dag};
ghost use Rattle.tez_conf.specs.declared.values.ConfValues.{ConfValues};
ghost use Rattle.tez_events.specs.declared.StopCause.{StopCause};
ghost use Rattle.tez_events.specs.declared.Entry.TheVariants.{Over, Stopped};
ghost use Rattle.tez_events.specs.declared.CoreEvent.{CoreEvent};
ghost use Rattle.tez_vman.specs.Rules.{HasSources};
ghost use Rattle.tez_history.specs.Shape.{rule};
ghost use Rattle.tez_history.specs.History.{Past, extend, stage, stops};
ghost use Rattle.tez_history.specs.Derived.{is_processing, seen, tasks};
ghost use Rattle.tez_history.specs.Steps.{enabled, entries_of, done_entries};
ghost use Rattle.tez_history.specs.Rules.{places_right, queues_right, configs_right, fetches_right, stops_right, commit_right, is_answered, broken, owed, is_at_start};
ghost use Rattle.tez_history.specs.Follows.{IsMade};
ghost use Rattle.tez_history.specs.Runs.{Standing, Happening, opened_at, standing_entries, spent_in, run, not_begun};
ghost use Rattle.tez_laws.specs.Laws.{IsSound, InputsLeadInside, SourcesDone, IsReady, OneLive, LiveIsOfTask, WinnerIsOfTask, NeverBoth, UnscheduledHasNone, ScheduledIsTask, ConfiguredIsVertex, NextIsNew, NextNeverQueued, PlacesAgree, QueuedFetchedNone, Obeys, configured_right, TasksAreListed, LiveIsListed, WinnerIsListed, AreInOrder, Sound, AllFindAgreeing, OwesRight, GoesOn, SpendsNot, answered, AnswersKeep, AnswersOweRight, IsSoundTakenUp};

/// Whatever happens, one thing after another: each entry was one that might follow, after a withdrawal
/// came its notices and the new attempt, no spent task was queued, and where a master stopped
/// nothing came but a start or another stop. As long as the run has not ended, each task that was
/// kept or queued has a live attempt or a winner, and none is spent. How a run ends is a verdict
/// beside its entries.
pub fn every_run_is_sound()
    ensures { (g : Dag) (c : ConfValues) (hs : List Happening) → 1 ≤ c.max_failed → IsSound g c (run g c not_begun hs) }
{}

/// Each enabled event adds entries that may follow, and so do the report of an attempt that is
/// processing and the answer of the store that is asked of a sink: what is made stays made.
pub fn steps_follow()
    ensures event { (g : Dag) (c : ConfValues) (past : Past) (e : CoreEvent) → IsMade g c past → enabled g c past e ≡ true → IsMade g c (extend past (entries_of g c past e)) }
    ensures report { (g : Dag) (c : ConfValues) (past : Past) (a : AttemptId) (made : List (ℕ × ℕ)) → IsMade g c past → IsTrue (is_processing (stage a past)) → IsMade g c (extend past (done_entries a made)) }
    ensures asked { (g : Dag) (c : ConfValues) → AnswersKeep g c (IsMade g c) }
{}

/// A task has at most one live attempt, and that one is at the task and has not ended.
pub fn one_attempt_is_live()
    ensures one { (g : Dag) (c : ConfValues) (past : Past) → IsMade g c past → OneLive past }
    ensures of_task { (past : Past) → LiveIsOfTask past }
{}

/// A task has never both a live attempt and a winner, and neither before it was kept or queued. One
/// that was is a task of a configured vertex, and only vertices of the plan are configured.
pub fn live_or_winner()
    ensures never_both { (g : Dag) (c : ConfValues) (past : Past) → IsMade g c past → NeverBoth past }
    ensures unscheduled { (g : Dag) (c : ConfValues) (past : Past) → IsMade g c past → UnscheduledHasNone past }
    ensures winner { (past : Past) → WinnerIsOfTask past }
    ensures configured { (g : Dag) (c : ConfValues) (past : Past) → IsMade g c past → ConfiguredIsVertex g past }
    ensures there { (g : Dag) (c : ConfValues) (past : Past) → IsMade g c past → ScheduledIsTask g past }
{}

/// The numbers of attempts are fresh, in the present epoch and in the whole history, and a queued
/// attempt has fetched nothing.
pub fn numbers_are_fresh()
    ensures fresh { (g : Dag) (c : ConfValues) (past : Past) → IsMade g c past → NextIsNew past }
    ensures never { (g : Dag) (c : ConfValues) (past : Past) → IsMade g c past → NextNeverQueued past }
    ensures fetched { (g : Dag) (c : ConfValues) (past : Past) → IsMade g c past → QueuedFetchedNone past }
{}

/// A place is held by exactly who stands there.
pub fn places_are_held()
    ensures { (g : Dag) (c : ConfValues) (past : Past) → IsMade g c past → PlacesAgree c past }
{}

/// Of the rules of a trace these hold in every history that is made: that of places, that of
/// queues, that of fetches, that of the commit, and that of configurations but for how a vertex
/// stands again.
pub fn rules_hold()
    ensures places { (g : Dag) (c : ConfValues) (past : Past) → IsMade g c past → Obeys places_right g c past }
    ensures queues { (g : Dag) (c : ConfValues) (past : Past) → IsMade g c past → Obeys queues_right g c past }
    ensures commit { (g : Dag) (c : ConfValues) (past : Past) → IsMade g c past → Obeys commit_right g c past }
    ensures configs { (g : Dag) (c : ConfValues) (past : Past) → IsMade g c past → Obeys configured_right g c past }
    ensures fetches { (g : Dag) (c : ConfValues) (past : Past) → IsMade g c past → Obeys fetches_right g c past }
{}

/// Each input leads to a task below the tasks of its source.
pub fn inputs_lead_to_tasks()
    ensures { (g : Dag) (past : Past) → InputsLeadInside g past }
{}

/// Once all source tasks of a vertex have winners, its manager configures it, and all its tasks are
/// to be scheduled. What the manager sees meets the condition of its calls.
pub fn vertex_is_ready()
    ensures { (g : Dag) (c : ConfValues) (v : ℕ) (past : Past) → c.min_src ≤ c.max_src → c.max_src ≤ 1000 → HasSources (rule g c v) (seen g v past) → SourcesDone g v past → IsReady g c v past }
{}

/// After a withdrawal come exactly its notices and the new attempt.
pub fn withdrawals_are_whole()
    ensures event { (g : Dag) (c : ConfValues) (past : Past) (e : CoreEvent) → owed g past ≡ [] → OwesRight g past (entries_of g c past e) }
    ensures report { (g : Dag) (past : Past) (a : AttemptId) (made : List (ℕ × ℕ)) → owed g past ≡ [] → OwesRight g past (done_entries a made) }
    ensures asked { (g : Dag) (past : Past) → owed g past ≡ [] → AnswersOweRight g past }
{}

/// Between two steps each task that was kept or queued has a live attempt or a winner, as long as
/// no failure spends a task.
pub fn tasks_go_on()
    ensures event { (g : Dag) (c : ConfValues) (past : Past) (e : CoreEvent) → SpendsNot c past e → GoesOn past → GoesOn (extend past (entries_of g c past e)) }
    ensures report { (past : Past) (a : AttemptId) (made : List (ℕ × ℕ)) → GoesOn past → GoesOn (extend past (done_entries a made)) }
    ensures asked { (past : Past) (v : VertexId) (there : Bool) → GoesOn past → GoesOn (answered past v there) }
{}

/// Opens and stops obey their rule in every run: where a master stopped nothing comes but a start or
/// another stop, epochs rise, and stops are at most the masters allowed.
pub fn opens_and_stops_are_right()
    ensures counted { (g : Dag) (c : ConfValues) (hs : List Happening) → 1 ≤ c.max_masters → stops (run g c not_begun hs).past ≤ c.max_masters }
    ensures rule { (g : Dag) (c : ConfValues) (hs : List Happening) → 1 ≤ c.max_failed → 1 ≤ c.max_masters → Obeys stops_right g c (run g c not_begun hs).past }
{}

/// The rule of configurations holds whole in every run, if each new master finds the configurations
/// as they stood last.
pub fn configurations_stand_again()
    ensures { (g : Dag) (c : ConfValues) (hs : List Happening) → 1 ≤ c.max_failed → AllFindAgreeing g c not_begun hs → Obeys configs_right g c (run g c not_begun hs).past }
{}

/// The tasks of a history are exactly those of its configured vertices, in order of vertex and index.
/// A task with a live attempt or a winner is one of them.
pub fn tasks_are_listed()
    ensures tasks { (g : Dag) (c : ConfValues) (past : Past) → IsMade g c past → TasksAreListed g past }
    ensures live { (g : Dag) (c : ConfValues) (past : Past) → IsMade g c past → LiveIsListed g past }
    ensures winner { (g : Dag) (c : ConfValues) (past : Past) → IsMade g c past → WinnerIsListed g past }
    ensures order { (g : Dag) (past : Past) → AreInOrder (tasks g past) }
{}

/// What a master goes by holds between two steps of every run that has not ended, and each step that
/// spends no task keeps it, and so do stops and new masters, also one that takes up a commit: the
/// history is made, nothing is owed, each task that was kept or queued has a live attempt or a
/// winner and is listed, none is spent, and inputs lead to tasks that are there.
pub fn steps_are_sound()
    ensures run { (g : Dag) (c : ConfValues) (hs : List Happening) → 1 ≤ c.max_failed → (run g c not_begun hs).verdict ≡ None → Sound g c (run g c not_begun hs).past }
    ensures event { (g : Dag) (c : ConfValues) (past : Past) (e : CoreEvent) → Sound g c past → enabled g c past e ≡ true → SpendsNot c past e → Sound g c (extend past (entries_of g c past e)) }
    ensures report { (g : Dag) (c : ConfValues) (past : Past) (a : AttemptId) (made : List (ℕ × ℕ)) → Sound g c past → IsTrue (is_processing (stage a past)) → Sound g c (extend past (done_entries a made)) }
    ensures asked { (g : Dag) (c : ConfValues) → AnswersKeep g c (Sound g c) }
    ensures stop { (g : Dag) (c : ConfValues) (past : Past) (cause : StopCause) → Sound g c past → Sound g c (Stopped cause ∷ past) }
    ensures over { (g : Dag) (c : ConfValues) (past : Past) → 1 ≤ c.max_failed → Sound g c past → IsTrue (is_at_start past) → Sound g c (Over ∷ past) }
    ensures opens { (g : Dag) (c : ConfValues) (past : Past) (s : Standing) → 1 ≤ c.max_failed → Sound g c past → IsTrue (is_at_start past) → spent_in c s ≡ None → Sound g c (extend (opened_at s past) (standing_entries g (opened_at s past) s)) }
    ensures takes_up { (g : Dag) (c : ConfValues) (past : Past) (s : Standing) (n : ℕ) → IsSoundTakenUp g c past s n }
{}

/// The trace of a run breaks no rule, if each new master finds the configurations as they stood last
/// and the managers that the rules go by can answer.
pub fn no_run_breaks_a_rule()
    ensures { (g : Dag) (c : ConfValues) (hs : List Happening) → 1 ≤ c.max_failed → 1 ≤ c.max_masters → AllFindAgreeing g c not_begun hs → Obeys is_answered g c (run g c not_begun hs).past → broken g c (reverse (run g c not_begun hs).past) ≡ None }
{}
