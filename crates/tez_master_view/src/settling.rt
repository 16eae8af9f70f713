//! What a master makes of events is what the longer history says.
ghost use Rattle.tez_ids.specs.declared.AttemptId.{AttemptId};
ghost use Rattle.tez_ids.specs.declared.VertexId.{VertexId};
ghost use Rattle.tez_plan.specs.Dag.{Dag};
ghost use Rattle.tez_conf.specs.declared.values.ConfValues.{ConfValues};
ghost use Rattle.tez_events.specs.declared.CoreEvent.{CoreEvent};
ghost use Rattle.tez_history.specs.History.{Past};
ghost use Rattle.tez_laws.specs.Laws.{AnswersKeep};
ghost use Rattle.tez_master_view.specs.Laws.{Goes};
ghost use Rattle.tez_master_view.specs.Statements.{EventSettles, ReportSettles, AnswerSettles, GoesOnByEvent, GoesOnByReport};

/// After an event that may come the master is what the longer history says.
pub fn events_settle()
    ensures { (g : Dag) (c : ConfValues) (past : Past) (e : CoreEvent) → EventSettles g c past e }
{}

/// So it is after a report of an attempt that processes.
pub fn reports_settle()
    ensures { (g : Dag) (c : ConfValues) (past : Past) (a : AttemptId) → ReportSettles g c past a }
{}

/// So it is once the store has answered whether it has a sink.
pub fn asks_settle()
    ensures { (g : Dag) (c : ConfValues) (past : Past) (v : VertexId) → AnswerSettles g c past v }
{}

/// A master goes on by the longer history: after an event that spends no task, after a report, and
/// after an answer of the store where it may be asked.
pub fn masters_go_on()
    ensures event { (g : Dag) (c : ConfValues) (past : Past) (e : CoreEvent) → GoesOnByEvent g c past e }
    ensures report { (g : Dag) (c : ConfValues) (past : Past) (a : AttemptId) → GoesOnByReport g c past a }
    ensures asked { (g : Dag) (c : ConfValues) → AnswersKeep g c (Goes g c) }
{}
