// The tool that prints the canonical text of a DAG file.
ghost use Rattle.std.specs.Prelude.{◌≡◌, ◌≤◌, ◌≢◌, ℕ, List, Some, IfOk, IfErr};
ghost use Rattle.tez_am.specs.Accept.{IsDag};
ghost use Rattle.tez_am.specs.Call.{reads_of};
ghost use Rattle.tez_am.specs.Cause.{Refusal};
ghost use Rattle.tez_am.specs.Mean.{Checks};
ghost use Rattle.tez_am.specs.Tool.{check_text};

use crate::accept::read_plan;
use crate::status::Status;
use std::alloc::{AllocError, Global};
use tez_conf::Conf;
use tez_dag_json::dag_text;
use tez_ids::Bytes;
use tez_plan::Plan;
use tez_ports::InputFiles;

/// The canonical text, and a line feed.
fn text(alloc: Global, plan: &Plan, conf: &Conf) -> Result<Bytes, AllocError>
    ensures { IfOk result (λ text. text ≡ check_text (plan.now, conf.now)) }
{
    let mut text = dag_text(alloc, plan, conf)?;
    text.push(b'\n')?;
    Ok(Bytes::new(text))
}

/// What is to be said of the DAG file of this name.
pub fn check<F: InputFiles>(alloc: Global, word: &str, files: &mut F) -> Result<Bytes, Status>
    ensures text { IfOk result (Checks (Some word.now) (F.files files.old)) }
    ensures refusal { IfErr result
        (Refusal (IsDag (Some word.now)) (reads_of F.files F.faults F.failed files.old files.new)) }
    ensures sure { F.is_sure files.old → IfErr result (λ s. (n : List ℕ) → s ≢ Status.InputFault n) }
{
    let (plan, conf) = match read_plan(alloc, word, files) {
        Ok(said) => said,
        Err(refusal) => return Err(refusal),
    };
    match text(alloc, &plan, &conf) {
        Ok(text) => Ok(text),
        Err(_) => Err(Status::NoMemory),
    }
}
