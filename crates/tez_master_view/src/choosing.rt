//! The master's own next event is the model's choice.
ghost use Rattle.std.specs.Prelude.{Option};
ghost use Rattle.tez_ids.specs.declared.AttemptId.{AttemptId};
ghost use Rattle.tez_plan.specs.Dag.{Dag};
ghost use Rattle.tez_conf.specs.declared.values.ConfValues.{ConfValues};
ghost use Rattle.tez_history.specs.History.{Past};
ghost use Rattle.tez_master_view.specs.Statements.{Chooses};

/// The master chooses the first enabled event among the model's candidates, if the attempt that is
/// to give way is the pool's victim for the least depth of a queued attempt, where no place is free.
pub fn master_chooses()
    ensures { (g : Dag) (c : ConfValues) (past : Past) (victim : Option AttemptId) → Chooses g c past victim }
{}
