// The texts of the answers.
ghost use Rattle.std.specs.Prelude.{◌≡◌, ◌++◌, [], ◌∷◌, IfOk, string_bytes};
ghost use Rattle.tez_am.specs.Meaning.{sink_line as sink_line_of};
ghost use Rattle.tez_am.specs.Say.{failure_text};
ghost use Rattle.tez_am.specs.Text.{spent_line, status_text, dag_fault_text, plan_fault_text};

use crate::failure::Failure;
use crate::status::Status;
use std::alloc::{AllocError, Global};
use tez_dag_json::{DagFault, word_and_place};
use tez_plan::PlanFault;
use tez_world::Device;

/// The line of a sink.
#[tactic(auto, unfolding(crate::specs::Meaning::sink_line))]
pub fn sink_line(
    alloc: Global,
    name: &str,
    records: usize,
    bytes: usize,
) -> Result<String, AllocError>
    ensures { IfOk result (λ s. string_bytes s ≡ sink_line_of name.now records bytes) }
{
    let mut text = String::from_str(alloc, "sink ")?;
    text.push_str(name)?;
    text.push_str(" records ")?;
    text.push_str(records.to_string(alloc)?.as_str())?;
    text.push_str(" bytes ")?;
    text.push_str(bytes.to_string(alloc)?.as_str())?;
    text.push_str("\n")?;
    Ok(text)
}

/// What is said of a failure.
pub fn failure(alloc: Global, failure: &Failure) -> Result<String, AllocError>
    ensures { IfOk result (λ s. string_bytes s ≡ failure_text failure.now) }
{
    match failure {
        Failure::Because(status) => refusal(alloc, status),
        Failure::Spent { task, name, .. } => spent(alloc, name.as_str(), *task),
    }
}

#[tactic(auto, unfolding(crate::specs::Text::spent_line))]
fn spent(alloc: Global, name: &str, task: u32) -> Result<String, AllocError>
    ensures { IfOk result (λ s. string_bytes s ≡ spent_line name.now task) }
{
    let mut text = String::from_str(alloc, "FAILED attempts ")?;
    text.push_str(name)?;
    text.push_str(" ")?;
    text.push_str(task.to_string(alloc)?.as_str())?;
    text.push_str("\n")?;
    Ok(text)
}

/// What is said of another answer.
pub fn refusal(alloc: Global, status: &Status) -> Result<String, AllocError>
    ensures { IfOk result (λ s. string_bytes s ≡ status_text status.now) }
{
    match status {
        Status::Succeeded | Status::OutFault => Ok(String::new(alloc)),
        Status::Usage => String::from_str(
            alloc,
            "usage: tez run or resume DAG [--script FILE] [--trace], drill SEED LINES, check DAG, meaning DAG, audit DAG TRACE, generate SEED LINES\n",
        ),
        Status::DagRefused(fault) => dag_refusal(alloc, fault),
        Status::InputMissing(name) => named(alloc, "REFUSED input missing ", name.as_str()),
        Status::InputTooLarge(name) => named(alloc, "REFUSED input too large ", name.as_str()),
        Status::InputFault(name) => named(alloc, "REFUSED input fault ", name.as_str()),
        Status::SinkExists(name) => named(alloc, "REFUSED sink exists ", name.as_str()),
        Status::AttemptsSpent { .. } => Ok(String::new(alloc)),
        Status::MeaningUndefined(name) => named(alloc, "REFUSED meaning ", name.as_str()),
        Status::DeviceFault(Device::Disk) => String::from_str(alloc, "FAILED device disk\n"),
        Status::DeviceFault(Device::Store) => String::from_str(alloc, "FAILED device store\n"),
        Status::NoMemory => String::from_str(alloc, "NO MEMORY\n"),
    }
}

/// What is said of a DAG file's fault.
fn dag_refusal(alloc: Global, fault: &DagFault) -> Result<String, AllocError>
    ensures { IfOk result (λ s. string_bytes s ≡ dag_fault_text fault.now) }
{
    match fault {
        DagFault::NotJson => String::from_str(alloc, "REFUSED dag not json\n"),
        DagFault::Shape { path } => named(alloc, "REFUSED dag shape ", path.as_str()),
        DagFault::OutOfRange { key } => named(alloc, "REFUSED dag range ", key.as_str()),
        DagFault::Plan(fault) => plan_refusal(alloc, *fault),
        DagFault::NoMemory => String::from_str(alloc, "NO MEMORY\n"),
    }
}

/// What is said of a plan's fault: its word and its place.
fn plan_refusal(alloc: Global, fault: PlanFault) -> Result<String, AllocError>
    ensures { IfOk result (λ s. string_bytes s ≡ plan_fault_text fault) }
{
    match word_and_place(fault) {
        Some((word, place)) => format!(in alloc; "REFUSED dag plan {word} {place}\n"),
        None => String::from_str(alloc, "NO MEMORY\n"),
    }
}

fn named(alloc: Global, words: &str, name: &str) -> Result<String, AllocError>
    ensures { IfOk result (λ s. string_bytes s ≡ words.now ++ name.now ++ (10 ∷ [])) }
{
    format!(in alloc; "{words}{name}\n")
}
