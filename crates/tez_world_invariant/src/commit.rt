//! The commit of the sinks on the parts of a master, and the end of the job.
ghost use Rattle.std.specs.Prelude.{◌≡◌, ◌<◌, ℕ, Some, true, length, is_some};
ghost use Rattle.std.specs.List.{filter_map};
ghost use Rattle.tez_ids.specs.declared.VertexId.{VertexId};
ghost use Rattle.tez_ids.specs.Same.{task};
ghost use Rattle.tez_lists.specs.Numbers.{numbers_from};
ghost use Rattle.tez_conf.specs.declared.values.ConfValues.{ConfValues};
ghost use Rattle.tez_meaning.specs.Jobs.{Job};
ghost use Rattle.tez_meaning.specs.Value.{sums};
ghost use Rattle.tez_events.specs.declared.CoreEvent.TheVariants.{Ready, CommitStart, Publish, Purge};
ghost use Rattle.tez_schedule.specs.Table.{progress_at};
ghost use Rattle.tez_history.specs.History.{Past, extend};
ghost use Rattle.tez_history.specs.Derived.{task_count, winners_of};
ghost use Rattle.tez_history.specs.Steps.{entries_of};
ghost use Rattle.tez_master_model.specs.Enabled.{enabled_in};
ghost use Rattle.tez_master_model.specs.Read.{winner_in};
ghost use Rattle.tez_master_model.specs.Settled.{settled};
ghost use Rattle.tez_sinks.specs.Sinks.{sink_of, sink_name};
ghost use Rattle.tez_world_invariant.specs.Keeping.{Parts, Holds, most_entries};
ghost use Rattle.tez_world_invariant.specs.Store.{IsSuccess};
ghost use Rattle.tez_world_invariant.specs.Commit.{noted, noted_sums};

/// A sink that is to be readied has a name, and each task of its vertex has a winner that the master
/// finds; once it is readied and its records and bytes are noted all holds as before.
pub fn sinks_are_readied()
    ensures name { (job : Job) (c : ConfValues) (ps : Parts) (past : Past) (v : VertexId) → Holds job c ps past
        → enabled_in ps.master (Ready v) ≡ true → sink_of job.plan v.0 ≡ Some (sink_name job.plan v.0) }
    ensures tasks { (job : Job) (c : ConfValues) (ps : Parts) (past : Past) (v : VertexId) → Holds job c ps past
        → enabled_in ps.master (Ready v) ≡ true
        → progress_at ps.master.schedule v.0 ≡ (task_count job.plan v.0 past, task_count job.plan v.0 past) }
    ensures won { (job : Job) (c : ConfValues) (ps : Parts) (past : Past) (v : VertexId) (i : ℕ) → Holds job c ps past
        → enabled_in ps.master (Ready v) ≡ true → i < task_count job.plan v.0 past
        → is_some (winner_in ps.master (task v.0 i)) ≡ true }
    ensures winners { (job : Job) (c : ConfValues) (ps : Parts) (past : Past) (v n : ℕ) → Holds job c ps past
        → filter_map (λ i. winner_in ps.master (task v i)) (numbers_from 0 n) ≡ winners_of v n past }
    ensures holds { (job : Job) (c : ConfValues) (ps : Parts) (past : Past) (v : VertexId) → Holds job c ps past
        → enabled_in ps.master (Ready v) ≡ true
        → length (extend past (entries_of job.plan c past (Ready v))) < most_entries
        → Holds job c (record ps { master = settled ps.master (Ready v); texts = noted job ps v }) (extend past (entries_of job.plan c past (Ready v))) }
{}

/// When the commit starts what is noted of the sinks are the sums of the job, and with these all holds
/// as before.
pub fn commit_has_the_sums()
    ensures sums { (job : Job) (c : ConfValues) (ps : Parts) (past : Past) → Holds job c ps past
        → enabled_in ps.master CommitStart ≡ true → noted_sums job ps ≡ sums job }
    ensures holds { (job : Job) (c : ConfValues) (ps : Parts) (past : Past) → Holds job c ps past
        → enabled_in ps.master CommitStart ≡ true
        → length (extend past (entries_of job.plan c past CommitStart)) < most_entries
        → Holds job c (record ps { master = settled ps.master CommitStart; sums = noted_sums job ps }) (extend past (entries_of job.plan c past CommitStart)) }
{}

/// A sink that is to be published has a name.
pub fn published_sinks_are_named()
    ensures { (job : Job) (c : ConfValues) (ps : Parts) (past : Past) (v : VertexId) → Holds job c ps past
        → enabled_in ps.master (Publish v) ≡ true → sink_of job.plan v.0 ≡ Some (sink_name job.plan v.0) }
{}

/// The purge tells that the job has no bad record, that each sink was published with its text, and that
/// the sums that are told are those of the job.
pub fn purge_tells_success()
    ensures { (job : Job) (c : ConfValues) (ps : Parts) (past : Past) → Holds job c ps past
        → enabled_in ps.master Purge ≡ true → IsSuccess job ps.sums (extend past (entries_of job.plan c past Purge)) }
{}
