//! The first master of a job, and the store that it finds.
ghost use Rattle.std.specs.Prelude.{◌≡◌, ◌∷◌, [], ℕ, List, Some, None, length};
ghost use Rattle.tez_ids.specs.declared.Epoch.{Epoch};
ghost use Rattle.tez_ports.specs.Content.{Named, Store, bytes_of};
ghost use Rattle.tez_plan.specs.Dag.{Dag};
ghost use Rattle.tez_plan.specs.Faults.{IsValid};
ghost use Rattle.tez_plan.specs.Ranges.{IsInRanges};
ghost use Rattle.tez_conf.specs.declared.values.ConfValues.{ConfValues};
ghost use Rattle.tez_conf.specs.Ranges.{IsInRange};
ghost use Rattle.tez_meaning.specs.Jobs.{Job};
ghost use Rattle.tez_events.specs.declared.Entry.TheVariants.{Opened};
ghost use Rattle.tez_history.specs.History.{Past};
ghost use Rattle.tez_pool.specs.Table.{new_pool};
ghost use Rattle.tez_master_view.specs.View.{master_view};
ghost use Rattle.tez_master_model.specs.Fresh.{fresh};
ghost use Rattle.tez_sinks.specs.Sinks.{sink_of, HasNoSink};
ghost use Rattle.tez_world_invariant.specs.Keeping.{Holds};
ghost use Rattle.tez_world_invariant.specs.Store.{StoreStands};
ghost use Rattle.tez_world_invariant.specs.Begin.{first_past, first_parts};

/// A fresh master with a new pool is what the history says once the first master is open, with seats
/// that are vacant, no shelf, and whatever is noted of the sinks.
pub fn first_master_begins()
    ensures master { (g : Dag) (c : ConfValues)
        → fresh g c 1 (new_pool c.nodes c.per_node c.reuse) ≡ master_view g c first_past }
    ensures holds { (job : Job) (c : ConfValues) (texts sums : List (ℕ × ℕ)) → IsValid job.plan → IsInRanges job.plan
        → IsInRange c → length texts ≡ length job.plan.vertices
        → Holds job c (first_parts job c texts sums) first_past }
{}

/// Before the first master a store is as it is to be, and it stays so as a master opens if no sink of
/// the job was published. None was where nothing was published under their names.
pub fn stores_are_found_clear()
    ensures begins { (job : Job) (s : Store) → StoreStands job s.publications [] s }
    ensures opens { (job : Job) (past : Past) (e : Epoch) (before : Named) (s : Store) → HasNoSink job before
        → StoreStands job before past s → StoreStands job before (Opened e ∷ past) s }
    ensures clear { (job : Job) (before : Named)
        → ((v : ℕ) (name : List ℕ) → sink_of job.plan v ≡ Some name → bytes_of name before ≡ None)
        → HasNoSink job before }
{}
