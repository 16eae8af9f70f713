// The tool that prints what each sink of a DAG file means.
ghost use Rattle.std.specs.Prelude.{◌≡◌, ◌≢◌, ◌⊎◌, ◌++◌, ℕ, List, Some, Ok, Err, IfOk, IfErr, length};
ghost use Rattle.std.specs.List.{flat_map};
ghost use Rattle.tez_plan.specs.Faults.{IsValid};
ghost use Rattle.tez_record.specs.Line.{lines};
ghost use Rattle.tez_ports.specs.Content.{Told};
ghost use Rattle.tez_meaning.specs.Jobs.{Job};
ghost use Rattle.tez_meaning.specs.Value.{IsDefined};
ghost use Rattle.tez_am.specs.Accept.{AfterDag};
ghost use Rattle.tez_am.specs.Call.{reads_of};
ghost use Rattle.tez_am.specs.Cause.{Refusal};
ghost use Rattle.tez_am.specs.Mean.{text_part, Means};
ghost use Rattle.tez_am.specs.Meaning.{meaning_text as meaning_text_of};
ghost use Rattle.tez_am.specs.Text.{name_of};
ghost use Rattle.tez_am.specs.Tool.{meaning_of, meant, ToolRefusal};

use crate::accept::accept;
use crate::answer::vertex_name;
use crate::status::Status;
use crate::text::sink_line;
use std::alloc::{AllocError, Global};
use tez_ids::{Bytes, Name, VertexId};
use tez_meaning::{Job, MeaningFault};
use tez_ports::InputFiles;
use tez_record::Iter;

/// How many lines these bytes have.
fn count_lines(bytes: &[u8]) -> usize
    ensures { result ≡ length (lines bytes.now) }
{
    Iter::new(bytes).count()
}

/// Adds the line of a sink and its text.
#[tactic(auto, unfolding(crate::specs::Mean::text_part))]
fn push_sink(alloc: Global, text: &mut Vec<u8>, sink: &(Name, Bytes)) -> Result<(), AllocError>
    ensures { IfOk result (λ u. text.new.items ≡ text.old.items ++ text_part sink.now) }
{
    let bytes = sink.1.as_slice();
    let records = count_lines(bytes);
    text.extend_from_slice(sink_line(alloc, sink.0.as_str(), records, bytes.len())?.as_bytes())?;
    text.extend_from_slice(bytes)?;
    Ok(())
}

/// The lines and texts of these sinks.
fn text_of(alloc: Global, sinks: &[(Name, Bytes)]) -> Result<Bytes, AllocError>
    ensures { IfOk result (λ text. text ≡ flat_map text_part sinks.now) }
{
    let mut text = Vec::new(alloc);
    for sink in sinks {
        push_sink(alloc, &mut text, sink)?;
    }
    Ok(Bytes::new(text))
}

fn undefined(alloc: Global, job: &Job, vertex: VertexId) -> Status
    ensures { (result ≡ Status.NoMemory) ⊎ (result ≡ Status.MeaningUndefined (name_of job.now.plan vertex.0)) }
{
    match vertex_name(alloc, job, vertex) {
        Ok(name) => Status::MeaningUndefined(name),
        Err(_) => Status::NoMemory,
    }
}

/// The text of a job's meaning.
fn meaning_text(alloc: Global, job: &Job) -> Result<Bytes, Status>
    ensures text { IfOk result (λ text. meant job.now ≡ Ok text) }
    ensures defined { IfOk result (λ text. IsDefined job.now) }
    ensures kind { IfOk result (λ text. text ≡ meaning_text_of job.now) }
    ensures undefined { IfErr result (λ s. (s ≡ Status.NoMemory)
        ⊎ ((name : List ℕ) × (s ≡ Status.MeaningUndefined name) × (meant job.now ≡ Err s))) }
    ensures no_fault { IfErr result (λ s. (n : List ℕ) → s ≢ Status.InputFault n) }
{
    match tez_meaning::meaning(alloc, job) {
        Ok(sinks) => match text_of(alloc, &sinks) {
            Ok(text) => Ok(text),
            Err(_) => Err(Status::NoMemory),
        },
        Err(MeaningFault::Bad { vertex }) => Err(undefined(alloc, job, vertex)),
        Err(MeaningFault::NoMemory) => Err(Status::NoMemory),
    }
}

/// What is to be said of the meaning of the DAG file of this name.
pub fn meaning<F: InputFiles>(alloc: Global, word: &str, files: &mut F) -> Result<Bytes, Status>
    ensures text { IfOk result (λ text. Means (Some word.now) (F.files files.old) text) }
    ensures refusal { IfErr result
        (ToolRefusal (AfterDag meaning_of (Some word.now)) (reads_of F.files F.faults F.failed files.old files.new)) }
    ensures sure { F.is_sure files.old → IfErr result (λ s. (n : List ℕ) → s ≢ Status.InputFault n) }
{
    let (job, _conf) = match accept(alloc, word, files) {
        Ok(said) => said,
        Err(refusal) => return Err(refusal),
    };
    match meaning_text(alloc, &job) {
        Ok(text) => Ok(text),
        Err(refusal) => Err(refusal),
    }
}
