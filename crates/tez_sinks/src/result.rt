//! The result of a run.
ghost use Rattle.std.specs.Prelude.{◌≡◌, ◌++◌, map, take, true, false};
ghost use Rattle.std.specs.List.{list_all};
ghost use Rattle.tez_ids.specs.declared.AttemptId.{AttemptId};
ghost use Rattle.tez_ports.specs.Content.{Named, Store};
ghost use Rattle.tez_plan.specs.Faults.{IsValid};
ghost use Rattle.tez_conf.specs.declared.values.ConfValues.{ConfValues};
ghost use Rattle.tez_meaning.specs.Jobs.{Job};
ghost use Rattle.tez_meaning.specs.Value.{bad, sink_texts, sums, IsDefined};
ghost use Rattle.tez_meaning.specs.Published.{IsPublishedOnce, IsPublishedAtMostOnce};
ghost use Rattle.tez_history.specs.Shape.{sinks};
ghost use Rattle.tez_history.specs.History.{Past, stage, is_readied, is_committing, is_found, is_finished, recorded};
ghost use Rattle.tez_history.specs.Derived.{is_processing, all_done};
ghost use Rattle.tez_history.specs.Rules.{is_published};
ghost use Rattle.tez_history.specs.Follows.{IsMade};
ghost use Rattle.tez_contents.specs.Contents.{met_bad};
ghost use Rattle.tez_contents.specs.Laws.{HasNone, is_kept};
ghost use Rattle.tez_sinks.specs.Sinks.{published_view, sink_sum, readied_sums, is_over, is_taken_up, HasNoSink, StoreIsRight, TasksWereStaged, WinnersAreGood};
ghost use Rattle.tez_sinks.specs.Well.{IsWell};

/// Sinks are published in order, each at most once with exactly its text. Once the job is finished,
/// which no new master found, each was: what the history published is the text of each sink in turn.
/// The sinks of the job are to have been in no publication before.
///
/// Where no commit was taken up, each sink that is recorded was published by this history.
pub fn results_are_whole()
    ensures whole { (job : Job) (c : ConfValues) (past : Past) → IsMade job.plan c past → HasNone is_over past
        → HasNone is_taken_up past → is_finished past ≡ true → published_view job past ≡ sink_texts job }
    ensures recorded { (job : Job) (c : ConfValues) (past : Past) → IsMade job.plan c past → HasNone is_taken_up past
        → published_view job past ≡ take (recorded past) (sink_texts job) }
    ensures all { (job : Job) (c : ConfValues) (past : Past) → IsMade job.plan c past → HasNone is_taken_up past
        → list_all (λ v. is_published v past) (sinks job.plan) ≡ true → published_view job past ≡ sink_texts job }
    ensures once { (job : Job) (c : ConfValues) (past : Past) (before : Named) → IsValid job.plan
        → IsMade job.plan c past → HasNoSink job before → HasNone is_over past → HasNone is_taken_up past
        → is_finished past ≡ true → IsPublishedOnce job (before ++ published_view job past) }
    ensures at_most_once { (job : Job) (c : ConfValues) (past : Past) (before : Named) → IsValid job.plan
        → IsMade job.plan c past → HasNoSink job before
        → IsPublishedAtMostOnce job (before ++ published_view job past) }
{}

/// Where every task is won by an attempt that met no bad record, and none was taken over, the job has
/// no bad record.
pub fn runs_are_good()
    ensures { (job : Job) (c : ConfValues) (past : Past) → IsWell job c past → HasNone is_kept past
        → WinnersAreGood job past → all_done job.plan past ≡ true → IsDefined job }
{}

/// Once every task has a winner, each task of a vertex with a sink was staged with the text of what it
/// is to make, by its winner. So it stays when all that was put aside is thrown away.
pub fn tasks_were_staged()
    ensures { (job : Job) (c : ConfValues) (past : Past) (before : Named) (store : Store) → IsWell job c past
        → all_done job.plan past ≡ true → StoreIsRight job past before store
        → TasksWereStaged job past store.stage_calls }
{}

/// An attempt that processes and met a bad record tells that its vertex meets one.
pub fn attempts_blame_the_job()
    ensures { (job : Job) (c : ConfValues) (past : Past) (a : AttemptId) → IsWell job c past
        → is_processing (stage a past) ≡ true → met_bad job a past ≡ true → bad job a.task.vertex.0 ≡ true }
{}

/// The records and bytes of the sinks, taken as each is readied, are those of the job once all are.
/// When a sink is readied again after a withdrawal, they begin anew. So they are from the start of a commit
/// that this master started; of one that it took up the journal tells them.
pub fn sums_of_sinks()
    ensures sinks { (job : Job) → map (sink_sum job) (sinks job.plan) ≡ sums job }
    ensures readied { (job : Job) (c : ConfValues) (past : Past) → IsMade job.plan c past → HasNone is_taken_up past
        → list_all (λ v. is_readied v past) (sinks job.plan) ≡ true → readied_sums job past ≡ sums job }
    ensures committing { (job : Job) (c : ConfValues) (past : Past) → IsWell job c past → HasNone is_taken_up past
        → is_committing past ≡ true → readied_sums job past ≡ sums job }
    ensures own { (job : Job) (c : ConfValues) (past : Past) → IsWell job c past → HasNone is_over past
        → is_committing past ≡ true → is_found past ≡ false → readied_sums job past ≡ sums job }
{}
