//! What the store of the outputs holds after each step of a master, and what was published.
ghost use Rattle.std.specs.Prelude.{◌≡◌, ℕ, List, Some, None, true, false};
ghost use Rattle.tez_ids.specs.declared.AttemptId.{AttemptId};
ghost use Rattle.tez_ids.specs.declared.VertexId.{VertexId};
ghost use Rattle.tez_lists.specs.Numbers.{In};
ghost use Rattle.tez_record.specs.Bag.{text};
ghost use Rattle.tez_ports.specs.Content.{Named, Store, bytes_of, staged_at, stages, publishes, purges};
ghost use Rattle.tez_commit.specs.Merge.{AreStaged, merged, prepares};
ghost use Rattle.tez_conf.specs.declared.values.ConfValues.{ConfValues};
ghost use Rattle.tez_meaning.specs.Jobs.{Job};
ghost use Rattle.tez_meaning.specs.Value.{value, sink_text};
ghost use Rattle.tez_events.specs.declared.CoreEvent.{CoreEvent};
ghost use Rattle.tez_events.specs.declared.CoreEvent.TheVariants.{Ready, Publish, Purge};
ghost use Rattle.tez_history.specs.History.{Past, extend, is_committing};
ghost use Rattle.tez_history.specs.Derived.{task_count, winners_of};
ghost use Rattle.tez_history.specs.Steps.{entries_of, done_entries};
ghost use Rattle.tez_contents.specs.Contents.{made};
ghost use Rattle.tez_master_model.specs.Enabled.{enabled_in};
ghost use Rattle.tez_master_model.specs.Read.{processes};
ghost use Rattle.tez_sinks.specs.Sinks.{sink_of, sink_name, TasksWereStaged, IsOfNoSink};
ghost use Rattle.tez_world_invariant.specs.Keeping.{Parts, Holds};
ghost use Rattle.tez_world_invariant.specs.Store.{HasPublished, StoreStands};

/// An event that readies, publishes and purges nothing leaves a store as it is to be.
pub fn events_leave_the_store()
    ensures { (job : Job) (c : ConfValues) (ps : Parts) (past : Past) (e : CoreEvent) (before : Named) (s : Store)
        → Holds job c ps past → enabled_in ps.master e ≡ true → IsOfNoSink e → StoreStands job before past s
        → StoreStands job before (extend past (entries_of job.plan c past e)) s }
{}

/// An attempt that is processing may be staged with any bytes. After its report the store is as it is
/// to be once the text of what it made is staged, and where its vertex has no sink as it is.
pub fn reports_are_staged()
    ensures staging { (job : Job) (c : ConfValues) (ps : Parts) (past : Past) (a : AttemptId) (bytes : List ℕ) (before : Named) (s : Store) → Holds job c ps past → processes ps.master a ≡ true → StoreStands job before past s → StoreStands job before past (stages a bytes s) }
    ensures staged { (job : Job) (c : ConfValues) (ps : Parts) (past : Past) (a : AttemptId) (bytes : List (ℕ
        × ℕ)) (before : Named) (s : Store) → Holds job c ps past → processes ps.master a ≡ true
        → StoreStands job before past s
        → StoreStands job before (extend past (done_entries a bytes)) (stages a (text (made job a past)) s) }
    ensures was_staged { (job : Job) (c : ConfValues) (ps : Parts) (past : Past) (a : AttemptId) (bytes : List (ℕ
        × ℕ)) (before : Named) (s : Store) → Holds job c ps past → processes ps.master a ≡ true
        → staged_at a s.staged ≡ Some (text (made job a past)) → In (a, text (made job a past)) s.stage_calls
        → StoreStands job before past s → StoreStands job before (extend past (done_entries a bytes)) s }
    ensures no_sink { (job : Job) (c : ConfValues) (ps : Parts) (past : Past) (a : AttemptId) (bytes : List (ℕ
        × ℕ)) (before : Named) (s : Store) → Holds job c ps past → processes ps.master a ≡ true
        → sink_of job.plan a.task.vertex.0 ≡ None → StoreStands job before past s
        → StoreStands job before (extend past (done_entries a bytes)) s }
{}

/// When a sink is to be readied the winners of its vertex are staged, and their merge is what the
/// vertex makes; to prepare it does no harm. When it is to be published its text was put aside. Once a
/// sink is readied or published, or all that is left over is purged, the store is as it is to be. When all is
/// to be purged, each task of a vertex with a sink was staged with the text of what it is to make.
pub fn sinks_are_stored()
    ensures staged { (job : Job) (c : ConfValues) (ps : Parts) (past : Past) (v : VertexId) (before : Named) (s : Store)
        → Holds job c ps past → enabled_in ps.master (Ready v) ≡ true → StoreStands job before past s
        → AreStaged s.staged (winners_of v.0 (task_count job.plan v.0 past) past) }
    ensures merged { (job : Job) (c : ConfValues) (ps : Parts) (past : Past) (v : VertexId) (before : Named) (s : Store)
        → Holds job c ps past → enabled_in ps.master (Ready v) ≡ true → StoreStands job before past s
        → merged s.staged (winners_of v.0 (task_count job.plan v.0 past) past) ≡ value job v.0 }
    ensures found { (job : Job) (c : ConfValues) (ps : Parts) (past : Past) (v : VertexId) (before : Named) (s : Store)
        → Holds job c ps past → enabled_in ps.master (Publish v) ≡ true → StoreStands job before past s
        → bytes_of (sink_name job.plan v.0) s.readied ≡ Some (sink_text job v.0) }
    ensures prepared { (job : Job) (c : ConfValues) (ps : Parts) (past : Past) (v : VertexId) (before : Named) (s : Store) → Holds job c ps past → enabled_in ps.master (Ready v) ≡ true → StoreStands job before past s → StoreStands job before past (prepares (winners_of v.0 (task_count job.plan v.0 past) past) (sink_name job.plan v.0) s) }
    ensures ready { (job : Job) (c : ConfValues) (ps : Parts) (past : Past) (v : VertexId) (before : Named) (s : Store)
        → Holds job c ps past → enabled_in ps.master (Ready v) ≡ true → StoreStands job before past s
        → StoreStands job before (extend past (entries_of job.plan c past (Ready v))) (prepares (winners_of v.0 (task_count job.plan v.0 past) past) (sink_name job.plan v.0) s) }
    ensures publish { (job : Job) (c : ConfValues) (ps : Parts) (past : Past) (v : VertexId) (before : Named) (s : Store) → Holds job c ps past → enabled_in ps.master (Publish v) ≡ true → StoreStands job before past s → StoreStands job before (extend past (entries_of job.plan c past (Publish v))) (publishes (sink_name job.plan v.0) s) }
    ensures purge { (job : Job) (c : ConfValues) (ps : Parts) (past : Past) (before : Named) (s : Store)
        → Holds job c ps past → StoreStands job before past s
        → StoreStands job before (extend past (entries_of job.plan c past Purge)) (purges s) }
    ensures whole { (job : Job) (c : ConfValues) (ps : Parts) (past : Past) (before : Named) (s : Store)
        → Holds job c ps past → enabled_in ps.master Purge ≡ true → StoreStands job before past s
        → TasksWereStaged job (extend past (entries_of job.plan c past Purge)) s.stage_calls }
{}

/// What was published since the first master is a first part of the sinks, each with its text; so it is
/// where a publication took effect and its entry did not come. Before the commit starts, and so while
/// an attempt is processing, nothing was published.
pub fn publications_come_in_order()
    ensures published { (job : Job) (c : ConfValues) (ps : Parts) (past : Past) (before : Named) (s : Store)
        → Holds job c ps past → StoreStands job before past s → HasPublished job before s }
    ensures tried { (job : Job) (c : ConfValues) (ps : Parts) (past : Past) (v : VertexId) (before : Named) (s : Store)
        → Holds job c ps past → enabled_in ps.master (Publish v) ≡ true → StoreStands job before past s
        → HasPublished job before (publishes (sink_name job.plan v.0) s) }
    ensures before_commit { (job : Job) (c : ConfValues) (ps : Parts) (past : Past) (before : Named) (s : Store)
        → Holds job c ps past → is_committing past ≡ false → StoreStands job before past s → s.publications ≡ before }
    ensures processing { (job : Job) (c : ConfValues) (ps : Parts) (past : Past) (a : AttemptId) (before : Named) (s : Store) → Holds job c ps past → processes ps.master a ≡ true → StoreStands job before past s → s.publications ≡ before }
{}
