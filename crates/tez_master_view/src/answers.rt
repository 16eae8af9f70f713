//! What a master answers is what the history says.
ghost use Rattle.tez_ids.specs.declared.AttemptId.{AttemptId};
ghost use Rattle.tez_ids.specs.declared.VertexId.{VertexId};
ghost use Rattle.tez_plan.specs.Dag.{Dag};
ghost use Rattle.tez_conf.specs.declared.values.ConfValues.{ConfValues};
ghost use Rattle.tez_events.specs.declared.CoreEvent.{CoreEvent};
ghost use Rattle.tez_history.specs.History.{Past};
ghost use Rattle.tez_master_view.specs.Statements.{TakesWhatIsEnabled, AsksWhatIsEnabled, TellsWhy, AddsTheEntries};

/// A master takes an event exactly where it may come.
pub fn master_takes_what_is_enabled()
    ensures { (g : Dag) (c : ConfValues) (past : Past) (e : CoreEvent) → TakesWhatIsEnabled g c past e }
{}

/// A master asks the store of a sink exactly where it may be asked: in a commit that it found, of the
/// sink that the journal records next, and once.
pub fn master_asks()
    ensures { (g : Dag) (c : ConfValues) (past : Past) (v : VertexId) → AsksWhatIsEnabled g c past v }
{}

/// Why an attempt is not processing: it is of an earlier master, it was never queued, it has ended,
/// or it did not come so far.
pub fn master_tells_why()
    ensures { (g : Dag) (c : ConfValues) (past : Past) (a : AttemptId) → TellsWhy g c past a }
{}

/// The entries of an event are those that the history asks for.
pub fn master_adds_the_entries()
    ensures { (g : Dag) (c : ConfValues) (past : Past) (e : CoreEvent) → AddsTheEntries g c past e }
{}
