//! What a master that stands for a history gives to the calls on its parts.
ghost use Rattle.tez_plan.specs.Dag.{Dag};
ghost use Rattle.tez_conf.specs.declared.values.ConfValues.{ConfValues};
ghost use Rattle.tez_history.specs.History.{Past};
ghost use Rattle.tez_master_view.specs.Statements.{StaysSteady, TellsOutputs, TellsPieces};

/// Who is queued holds no place, who processes is at a task of its vertex, and a vertex that may be
/// configured can have its tasks.
pub fn masters_are_steady()
    ensures { (g : Dag) (c : ConfValues) (past : Past) → StaysSteady g c past }
{}

/// The piece behind an input is the winner that the history says, with the output that the table of
/// the edge leads to.
pub fn pieces_are_told()
    ensures output { (g : Dag) (c : ConfValues) (past : Past) → TellsOutputs g c past }
    ensures piece { (g : Dag) (c : ConfValues) (past : Past) → TellsPieces g c past }
{}
