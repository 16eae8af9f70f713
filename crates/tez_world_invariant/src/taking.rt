//! What the master takes, adds and chooses is what the history says.
ghost use Rattle.std.specs.Prelude.{◌≡◌, Option, not, true, false};
ghost use Rattle.tez_ids.specs.declared.AttemptId.{AttemptId};
ghost use Rattle.tez_ids.specs.declared.VertexId.{VertexId};
ghost use Rattle.tez_conf.specs.declared.values.ConfValues.{ConfValues};
ghost use Rattle.tez_events.specs.declared.CoreEvent.{CoreEvent};
ghost use Rattle.tez_meaning.specs.Jobs.{Job};
ghost use Rattle.tez_history.specs.History.{Past, is_up};
ghost use Rattle.tez_history.specs.Steps.{enabled, entries_of, choice};
ghost use Rattle.tez_laws.specs.Laws.{SpendsNot};
ghost use Rattle.tez_master_model.specs.Enabled.{enabled_in};
ghost use Rattle.tez_master_model.specs.Entries.{entries_in, is_last_in};
ghost use Rattle.tez_master_model.specs.Choice.{choice_in};
ghost use Rattle.tez_master_view.specs.Laws.{IsMasters};
ghost use Rattle.tez_master_model.specs.Victim.{IsVictim};
ghost use Rattle.tez_world_invariant.specs.Keeping.{Parts, Holds};
ghost use Rattle.tez_world_invariant.specs.Step.{later, is_purge};

/// The master takes exactly the events that may come, adds their entries, and chooses as the model
/// does. It stays up, but for the purge. It took up no commit, so the store is asked of no sink.
pub fn events_are_taken()
    ensures enabled { (job : Job) (c : ConfValues) (ps : Parts) (past : Past) (e : CoreEvent) → Holds job c ps past
        → IsMasters e → enabled_in ps.master e ≡ enabled job.plan c past e }
    ensures entries { (job : Job) (c : ConfValues) (ps : Parts) (past : Past) (e : CoreEvent) → Holds job c ps past
        → IsMasters e → enabled_in ps.master e ≡ true → entries_in ps.master e ≡ entries_of job.plan c past e }
    ensures up { (job : Job) (c : ConfValues) (ps : Parts) (past : Past) (e : CoreEvent) → Holds job c ps past
        → IsMasters e → is_up (later job c past e) ≡ not (is_purge e) }
    ensures asks { (job : Job) (c : ConfValues) (ps : Parts) (past : Past) (v : VertexId) → Holds job c ps past
        → enabled job.plan c past (CoreEvent.Ask v) ≡ false }
    ensures choice { (job : Job) (c : ConfValues) (ps : Parts) (past : Past) (victim : Option AttemptId)
        → Holds job c ps past → IsVictim ps.master victim → choice_in ps.master victim ≡ choice job.plan c past }
{}

/// Where the failure of an attempt is not the last that its task may have, it spends no task.
pub fn spent_is_told()
    ensures { (job : Job) (c : ConfValues) (ps : Parts) (past : Past) (a : AttemptId) → Holds job c ps past
        → enabled_in ps.master (CoreEvent.Fail a) ≡ true → is_last_in ps.master a.task ≡ false
        → SpendsNot c past (CoreEvent.Fail a) }
{}
