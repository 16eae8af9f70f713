//! The rules of a trace hold over the whole run of a job that one master runs.
//!
//! It has no code, but a function for each law, whose contract is the law.
#![tactic(auto)]

ghost use Rattle.std.specs.Prelude.{◌≡◌, ◌∷◌, [], ℕ, List, reverse, IsTrue, None, true};
ghost use Rattle.tez_ids.specs.declared.Epoch.{Epoch};
ghost use Rattle.tez_ids.specs.declared.AttemptId.{AttemptId};
ghost use Rattle.tez_plan.specs.Dag.{Dag};
ghost use Rattle.tez_plan.specs.Faults.{IsValid};
ghost use Rattle.tez_plan.specs.Ranges.{IsInRanges};
ghost use Rattle.tez_conf.specs.declared.values.ConfValues.{ConfValues};
ghost use Rattle.tez_events.specs.declared.Entry.TheVariants.{Opened};
ghost use Rattle.tez_events.specs.declared.CoreEvent.{CoreEvent};
ghost use Rattle.tez_history.specs.History.{Past, extend, stage};
ghost use Rattle.tez_history.specs.Derived.{is_processing};
ghost use Rattle.tez_history.specs.Steps.{enabled, entries_of, done_entries};
ghost use Rattle.tez_history.specs.Rules.{is_answered, broken, owed};
ghost use Rattle.tez_history.specs.Follows.{IsMade};
ghost use Rattle.tez_laws.specs.Laws.{Obeys};
ghost use Rattle.tez_master_view.specs.Laws.{IsMasters};
ghost use Rattle.tez_rules.specs.OneMaster.{AllFit, IsRuled};

/// A history that one master makes keeps what the rules go by: it begins with the open, and each
/// event of the master keeps it, and so does each report whose numbers of bytes are below 2^64.
pub fn one_master_keeps_the_rules()
    ensures begins { (g : Dag) (c : ConfValues) → IsRuled g c [] }
    ensures opens { (g : Dag) (c : ConfValues) (e : Epoch) → IsRuled g c (Opened e ∷ []) }
    ensures event { (g : Dag) (c : ConfValues) (past : Past) (e : CoreEvent) → IsMade g c past → owed g past ≡ [] → IsRuled g c past → enabled g c past e ≡ true → IsMasters e → IsRuled g c (extend past (entries_of g c past e)) }
    ensures report { (g : Dag) (c : ConfValues) (past : Past) (a : AttemptId) (made : List (ℕ × ℕ)) → IsMade g c past → owed g past ≡ [] → IsRuled g c past → IsTrue (is_processing (stage a past)) → AllFit made → IsRuled g c (extend past (done_entries a made)) }
{}

/// At each entry of such a history the managers that the rules go by can answer: there are source
/// tasks, a base is within the partitions, and numbers of sources and of bytes are in their ranges.
/// So its trace, from the open on, breaks no rule.
pub fn one_master_breaks_no_rule()
    ensures answered { (g : Dag) (c : ConfValues) (past : Past) → IsValid g → IsInRanges g → IsMade g c past → IsRuled g c past → Obeys is_answered g c past }
    ensures unbroken { (g : Dag) (c : ConfValues) (past : Past) → IsValid g → IsInRanges g → IsMade g c past → IsRuled g c past → broken g c (reverse past) ≡ None }
{}
