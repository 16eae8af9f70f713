//! The numbers of a world stay in their ranges, and its master is steady.
ghost use Rattle.std.specs.Prelude.{◌≡◌, ◌<◌, ◌^◌, ℕ, IfSome, length, slice_get};
ghost use Rattle.tez_ids.specs.declared.TaskId.{TaskId};
ghost use Rattle.tez_conf.specs.declared.values.ConfValues.{ConfValues};
ghost use Rattle.tez_meaning.specs.Jobs.{Job};
ghost use Rattle.tez_history.specs.History.{Past};
ghost use Rattle.tez_master_model.specs.Read.{task_in};
ghost use Rattle.tez_master_model.specs.Steady.{IsSteady};
ghost use Rattle.tez_world_invariant.specs.Keeping.{Parts, Holds};

/// A trace is far shorter than the ranges of the numbers of attempts, lives and containers.
pub fn numbers_stay_small()
    ensures attempts { (job : Job) (c : ConfValues) (ps : Parts) (past : Past) → Holds job c ps past → (t : TaskId)
        → IfSome (task_in ps.master t) (λ s. s.queued < 2 ^ 63) }
    ensures lives { (job : Job) (c : ConfValues) (ps : Parts) (past : Past) → Holds job c ps past → (slot : ℕ)
        → IfSome (slice_get ps.master.pool.lives slot) (λ life. life < 2 ^ 63) }
    ensures nodes { (job : Job) (c : ConfValues) (ps : Parts) (past : Past) → Holds job c ps past
        → length ps.master.pool.lives ≡ ps.master.conf.nodes }
    ensures containers { (job : Job) (c : ConfValues) (ps : Parts) (past : Past) → Holds job c ps past
        → ps.master.pool.next < 2 ^ 126 }
{}

/// The master gives what the calls on its parts ask for.
pub fn parts_are_steady()
    ensures { (job : Job) (c : ConfValues) (ps : Parts) (past : Past) → Holds job c ps past → IsSteady ps.master }
{}
