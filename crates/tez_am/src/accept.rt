// From a DAG file's name to a plan, and on to a job. The input files alone are touched.
ghost use Rattle.std.specs.Prelude.{◌≡◌, ◌≤◌, ◌≢◌, ◌⊎◌, ℕ, List, true, Some, Ok, Err, IfOk, IfErr};
ghost use Rattle.tez_dag_json.specs.Due.{IsDue};
ghost use Rattle.tez_plan.specs.Faults.{IsValid};
ghost use Rattle.tez_ports.specs.Content.{Told};
ghost use Rattle.tez_am.specs.Call.{reads_of};
ghost use Rattle.tez_am.specs.Accept.{IsDag, IsJob};
ghost use Rattle.tez_am.specs.Cause.{Refusal};

use crate::input::input;
use crate::sources::job_of;
use crate::status::Status;
use std::alloc::Global;
use tez_conf::Conf;
use tez_dag_json::{DagFault, read_dag};
use tez_meaning::Job;
use tez_plan::Plan;
use tez_ports::InputFiles;

const DAG_LIMIT: u64 = 1_048_576;

/// What the bytes of a DAG file say.
fn dag(alloc: Global, bytes: &[u8]) -> Result<(Plan, Conf), Status>
    ensures said { IfOk result (λ said. IsDue bytes.now (Ok said)) }
    ensures refusal { IfErr result (λ s. (s ≡ Status.NoMemory)
        ⊎ ((fault : DagFault) × (s ≡ Status.DagRefused fault) × IsDue bytes.now (Err fault))) }
{
    match read_dag(alloc, bytes) {
        Ok(said) => Ok(said),
        Err(DagFault::NoMemory) => Err(Status::NoMemory),
        Err(fault) => Err(Status::DagRefused(fault)),
    }
}

/// The plan and the configuration of the DAG file of this name.
pub fn read_plan<F: InputFiles>(
    alloc: Global,
    word: &str,
    files: &mut F,
) -> Result<(Plan, Conf), Status>
    ensures same { F.files files.new ≡ F.files files.old }
    ensures later { F.faults files.old ≤ F.faults files.new }
    ensures stays_sure { F.is_sure files.old → F.is_sure files.new }
    ensures said { IfOk result (λ said. Told (F.files files.old) (λ m. IsDag (Some word.now) m (Ok said))) }
    ensures valid { IfOk result (λ said. IsValid said.0) }
    ensures refusal { IfErr result
        (Refusal (IsDag (Some word.now)) (reads_of F.files F.faults F.failed files.old files.new)) }
    ensures sure { F.is_sure files.old → IfErr result (λ s. (n : List ℕ) → s ≢ Status.InputFault n) }
{
    let bytes = match input(alloc, files, word, DAG_LIMIT) {
        Ok(bytes) => bytes,
        Err(refusal) => return Err(refusal),
    };
    match dag(alloc, &bytes) {
        Ok(said) => Ok(said),
        Err(refusal) => Err(refusal),
    }
}

/// The job of the DAG file of this name, and its configuration.
pub fn accept<F: InputFiles>(
    alloc: Global,
    word: &str,
    files: &mut F,
) -> Result<(Job, Conf), Status>
    ensures same { F.files files.new ≡ F.files files.old }
    ensures job { IfOk result (λ said. Told (F.files files.old) (λ m. IsJob (Some word.now) m (Ok said.0))) }
    ensures conf { IfOk result
        (λ said. Told (F.files files.old) (λ m. IsDag (Some word.now) m (Ok (said.0.plan, said.1)))) }
    ensures valid { IfOk result (λ said. IsValid said.0.plan) }
    ensures refusal { IfErr result
        (Refusal (IsJob (Some word.now)) (reads_of F.files F.faults F.failed files.old files.new)) }
    ensures sure { F.is_sure files.old → IfErr result (λ s. (n : List ℕ) → s ≢ Status.InputFault n) }
{
    let (plan, conf) = match read_plan(alloc, word, files) {
        Ok(said) => said,
        Err(refusal) => return Err(refusal),
    };
    match job_of(alloc, plan, files) {
        Ok(job) => Ok((job, conf)),
        Err(refusal) => Err(refusal),
    }
}
