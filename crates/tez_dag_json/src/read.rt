ghost use Rattle.std.specs.Prelude.{◌≡◌, ◌↔◌, ◌≢◌, ℕ, List, Some, None, IfOk, IfErr};
ghost use Rattle.serde_json.specs.View.{view};
ghost use Rattle.tez_conf.specs.declared.values.ConfValues.{ConfValues};
ghost use Rattle.tez_plan.specs.Dag.{Dag};
ghost use Rattle.tez_plan.specs.Ranges.{IsInRanges};
ghost use Rattle.tez_dag_json.specs.Due.{IsDue, IsOfForm};
ghost use Rattle.tez_dag_json.specs.Answers.{Answer, ReadsAs};
ghost use Rattle.tez_dag_json.specs.Documents.{contents};
ghost use Rattle.tez_dag_json.specs.Form.{json, form};
ghost use Rattle.tez_dag_json.specs.declared.fault.DagFault.{DagFault};
ghost use Rattle.tez_dag_json.specs.declared.fault.DagFault.TheVariants.{NoMemory, NotJson, Plan as RefusedPlan};
ghost use Rattle.tez_plan.specs.declared.fault.PlanFault.TheVariants as plan_fault;

use crate::document::{Document, read_document};
use crate::fault::DagFault;
use serde_json::Value;
use std::alloc::Global;
use tez_conf::Conf;
use tez_plan::{Plan, PlanFault};
use tez_plan_checks::plan_new;

/// The value of a JSON text.
#[tactic(auto, using(crate::proofs::Texts::json_value, crate::proofs::Texts::no_json), unfolding(crate::specs::Form::json))]
fn parse(alloc: Global, bytes: &[u8]) -> Result<Value, DagFault>
    ensures value { IfOk result (λ value. json bytes.now ≡ Some (view value)) }
    ensures fault { IfErr result (λ fault. fault ≢ NoMemory → (fault ≡ NotJson) × (json bytes.now ≡ None)) }
{
    match Value::from_slice(alloc, bytes) {
        Ok(value) => Ok(value),
        Err(error) if error.is_memory() => Err(DagFault::NoMemory),
        Err(_) => Err(DagFault::NotJson),
    }
}

/// What the bytes of a file say.
#[tactic(auto, unfolding(crate::specs::Form::form))]
fn said(alloc: Global, bytes: &[u8]) -> Result<Document, DagFault>
    ensures reads { ReadsAs contents result (form bytes.now) }
    ensures in_ranges { IfOk result (λ said. IsInRanges (contents said).0) }
{
    match parse(alloc, bytes) {
        Ok(value) => read_document(alloc, &value),
        Err(fault) => Err(fault),
    }
}

/// The refusal of a file for the fault of its plan.
fn refusal(fault: PlanFault) -> DagFault
    ensures { result ≢ NoMemory → (fault ≢ plan_fault.NoMemory) × (result ≡ RefusedPlan fault) }
{
    match fault {
        PlanFault::NoMemory => DagFault::NoMemory,
        _ => DagFault::Plan(fault),
    }
}

/// The plan and the configuration that a DAG file says, or why it is refused: the first fault of the
/// walk through the file, or the first fault of its plan. A file of any length is read.
#[tactic(auto, using(crate::proofs::Due::due_form, crate::proofs::Due::due_plan, crate::proofs::Due::due_fault))]
pub fn read_dag(alloc: Global, bytes: &[u8]) -> Result<(Plan, Conf), DagFault>
    ensures accepted { IfOk result (λ said. IsDue bytes.now (Ok said)) }
    ensures refused { IfErr result (λ fault. fault ≢ NoMemory → IsDue bytes.now (Err fault)) }
{
    let said = match said(alloc, bytes) {
        Ok(said) => said,
        Err(fault) => return Err(fault),
    };
    match plan_new(alloc, said.name, said.vertices, said.edges) {
        Ok(plan) => Ok((plan, said.conf)),
        Err(fault) => Err(refusal(fault)),
    }
}

/// At most one answer is due to the bytes of a file.
#[tactic(auto, using(crate::proofs::Due::one_due))]
pub fn one_answer_is_due()
    ensures { (bytes : List ℕ) (a b : Answer (Dag × ConfValues)) → IsDue bytes a → IsDue bytes b → a ≡ b }
{}

/// The form of a file has a fault of JSON exactly where the bytes are no JSON text, and beside it
/// faults of kind and of range alone.
#[tactic(auto, using(crate::proofs::Walks::form_faults, crate::proofs::Walks::form_not_json, crate::proofs::Walks::not_json_form))]
pub fn form_has_its_faults()
    ensures faults { (bytes : List ℕ) (fault : DagFault) → form bytes ≡ Err fault → IsOfForm fault }
    ensures not_json { (bytes : List ℕ) → (form bytes ≡ Err NotJson) ↔ (json bytes ≡ None) }
{}
