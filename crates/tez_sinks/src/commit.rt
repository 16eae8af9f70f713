//! The commit of the sinks, and the purge after it.
ghost use Rattle.std.specs.Prelude.{◌≡◌, ◌∷◌, ℕ, List, Some, true};
ghost use Rattle.tez_ids.specs.declared.VertexId.{VertexId};
ghost use Rattle.tez_ports.specs.Content.{Named, Store, bytes_of, publishes, purges};
ghost use Rattle.tez_commit.specs.Merge.{AreStaged, merged, prepares};
ghost use Rattle.tez_conf.specs.declared.values.ConfValues.{ConfValues};
ghost use Rattle.tez_meaning.specs.Jobs.{Job};
ghost use Rattle.tez_meaning.specs.Value.{value, sink_text};
ghost use Rattle.tez_events.specs.declared.Entry.TheVariants.{Ready as Readied, Published, Purged};
ghost use Rattle.tez_events.specs.declared.CoreEvent.TheVariants.{Ready, Publish};
ghost use Rattle.tez_history.specs.History.{Past, is_finished, is_readied};
ghost use Rattle.tez_history.specs.Derived.{task_count, winners_of, is_vertex_done};
ghost use Rattle.tez_history.specs.Steps.{enabled, may_publish};
ghost use Rattle.tez_sinks.specs.Sinks.{sink_of, sink_name, StoreIsRight};
ghost use Rattle.tez_sinks.specs.Well.{IsWell};

/// When a sink is to be readied, the winners of its vertex are staged, their merge is what the vertex
/// makes, and once that is put aside the store is right. To prepare a sink whose tasks are all won
/// again, or before its entry, does no harm.
pub fn sinks_are_prepared()
    ensures named { (job : Job) (c : ConfValues) (past : Past) (v : VertexId) → enabled job.plan c past (Ready v) ≡ true
        → sink_of job.plan v.0 ≡ Some (sink_name job.plan v.0) }
    ensures staged { (job : Job) (c : ConfValues) (past : Past) (v : VertexId) (before : Named) (store : Store)
        → IsWell job c past → enabled job.plan c past (Ready v) ≡ true → StoreIsRight job past before store
        → AreStaged store.staged (winners_of v.0 (task_count job.plan v.0 past) past) }
    ensures merged { (job : Job) (c : ConfValues) (past : Past) (v : VertexId) (before : Named) (store : Store)
        → IsWell job c past → enabled job.plan c past (Ready v) ≡ true → StoreIsRight job past before store
        → merged store.staged (winners_of v.0 (task_count job.plan v.0 past) past) ≡ value job v.0 }
    ensures store { (job : Job) (c : ConfValues) (past : Past) (v : VertexId) (before : Named) (store : Store)
        → IsWell job c past → enabled job.plan c past (Ready v) ≡ true → StoreIsRight job past before store
        → StoreIsRight job (Readied v
        ∷ past) before (prepares (winners_of v.0 (task_count job.plan v.0 past) past) (sink_name job.plan v.0) store) }
    ensures harmless { (job : Job) (c : ConfValues) (past : Past) (v : VertexId) (before : Named) (store : Store)
        → IsWell job c past → enabled job.plan c past (Ready v) ≡ true → StoreIsRight job past before store
        → StoreIsRight job past before (prepares (winners_of v.0 (task_count job.plan v.0 past) past) (sink_name job.plan v.0) store) }
    ensures again { (job : Job) (c : ConfValues) (past : Past) (v : ℕ) (name : List ℕ) (before : Named) (store : Store)
        → IsWell job c past → sink_of job.plan v ≡ Some name → is_vertex_done job.plan v past ≡ true
        → StoreIsRight job past before store
        → StoreIsRight job past before (prepares (winners_of v (task_count job.plan v past) past) name store) }
{}

/// When a sink is to be published its text was put aside, and once that is published the store is right.
pub fn sinks_are_published()
    ensures named { (job : Job) (c : ConfValues) (past : Past) (v : VertexId)
        → enabled job.plan c past (Publish v) ≡ true → sink_of job.plan v.0 ≡ Some (sink_name job.plan v.0) }
    ensures readied { (job : Job) (c : ConfValues) (past : Past) (v : VertexId) (before : Named) (store : Store)
        → IsWell job c past → enabled job.plan c past (Publish v) ≡ true → StoreIsRight job past before store
        → bytes_of (sink_name job.plan v.0) store.readied ≡ Some (sink_text job v.0) }
    ensures store { (job : Job) (c : ConfValues) (past : Past) (v : VertexId) (before : Named) (store : Store)
        → IsWell job c past → enabled job.plan c past (Publish v) ≡ true → StoreIsRight job past before store
        → StoreIsRight job (Published v ∷ past) before (publishes (sink_name job.plan v.0) store) }
{}

/// A sink that is published was readied: in a commit of one master every sink was when it started, and in
/// one that was found each is once the store was asked of it.
pub fn published_sinks_are_readied()
    ensures { (job : Job) (c : ConfValues) (past : Past) (v : VertexId) → IsWell job c past
        → may_publish job.plan past v.0 ≡ true → is_readied v.0 past ≡ true }
{}

/// Once the job is finished all that was put aside may go, and what was published stays.
pub fn purges_are_right()
    ensures { (job : Job) (past : Past) (before : Named) (store : Store) → StoreIsRight job past before store
        → StoreIsRight job (Purged ∷ past) before (purges store) }
{}
