// The source files of a plan. The input files alone are touched.
ghost use Rattle.std.specs.Prelude.{◌≡◌, ◌≤◌, ◌≢◌, ◌++◌, [], ◌∷◌, ℕ, List, Ok, IfOk, IfErr};
ghost use Rattle.std.specs.List.{list_any};
ghost use Rattle.std.specs.Str.{bytes_eq};
ghost use Rattle.tez_ports.specs.Content.{Told};
ghost use Rattle.tez_am.specs.Accept.{with_sources};
ghost use Rattle.tez_am.specs.Call.{reads_of};
ghost use Rattle.tez_am.specs.Cause.{Refusal};
ghost use Rattle.tez_am.specs.Sources.{contents_after, names_after, names_of};

use crate::input::input;
use crate::status::Status;
use std::alloc::{AllocError, Global};
use tez_ids::{Bytes, Name};
use tez_meaning::Job;
use tez_plan::{Plan, VertexSpec};
use tez_ports::InputFiles;

const SOURCE_LIMIT: u64 = 67_108_864;

/// Whether a file of this name is among these.
fn is_read(sources: &[(Name, Bytes)], name: &str) -> bool
    ensures { result ≡ list_any (λ file. bytes_eq file.0 name.now) sources.now }
{
    sources.iter().any(|source| source.0.as_str() == name)
}

/// Adds a file, or nothing where memory is refused.
fn add(
    alloc: Global,
    sources: &mut Vec<(Name, Bytes)>,
    name: &Name,
    bytes: Vec<u8>,
) -> Result<(), AllocError>
    ensures { IfOk result (λ u. sources.new.items ≡ sources.old.items ++ (name.now, bytes.items) ∷ []) }
{
    sources.push((Name::copy_of(alloc, name.as_str())?, Bytes::new(bytes)))?;
    Ok(())
}

/// The files of these vertices that were not read before, after those that were. Together they
/// have at most `left` bytes more.
fn read_sources<F: InputFiles>(
    alloc: Global,
    files: &mut F,
    vertices: &[VertexSpec],
    left: u64,
    sources: Vec<(Name, Bytes)>,
) -> Result<Vec<(Name, Bytes)>, Status>
    ensures same { F.files files.new ≡ F.files files.old }
    ensures later { F.faults files.old ≤ F.faults files.new }
    ensures stays_sure { F.is_sure files.old → F.is_sure files.new }
    ensures names { IfOk result (λ read. names_of read.items
        ≡ names_of sources.items ++ names_after (names_of sources.items) vertices.now) }
    ensures read { IfOk result
        (λ read. Told (F.files files.old) (λ m. contents_after m left sources.items vertices.now ≡ Ok read.items)) }
    ensures refusal { IfErr result
        (Refusal (λ m answer. contents_after m left sources.items vertices.now ≡ answer)
        (reads_of F.files F.faults F.failed files.old files.new)) }
    ensures sure { F.is_sure files.old → IfErr result (λ s. (n : List ℕ) → s ≢ Status.InputFault n) }
{
    let Some((vertex, rest)) = vertices.split_first() else {
        return Ok(sources);
    };
    let Some(name) = &vertex.source else {
        return read_sources(alloc, files, rest, left, sources);
    };
    if is_read(&sources, name.as_str()) {
        return read_sources(alloc, files, rest, left, sources);
    }
    let bytes = match input(alloc, files, name.as_str(), left) {
        Ok(bytes) => bytes,
        Err(refusal) => return Err(refusal),
    };
    let left = left - bytes.len() as u64;
    let mut more = sources;
    match add(alloc, &mut more, name, bytes) {
        Ok(()) => read_sources(alloc, files, rest, left, more),
        Err(_) => Err(Status::NoMemory),
    }
}

/// The job of a plan: its source files are read in the order in which vertices name them first.
pub fn job_of<F: InputFiles>(alloc: Global, plan: Plan, files: &mut F) -> Result<Job, Status>
    ensures same { F.files files.new ≡ F.files files.old }
    ensures later { F.faults files.old ≤ F.faults files.new }
    ensures stays_sure { F.is_sure files.old → F.is_sure files.new }
    ensures plan { IfOk result (λ job. job.plan ≡ plan) }
    ensures job { IfOk result (λ job. Told (F.files files.old) (λ m. with_sources m plan ≡ Ok job)) }
    ensures refusal { IfErr result
        (Refusal (λ m answer. with_sources m plan ≡ answer) (reads_of F.files F.faults F.failed files.old files.new)) }
    ensures sure { F.is_sure files.old → IfErr result (λ s. (n : List ℕ) → s ≢ Status.InputFault n) }
{
    match read_sources(alloc, files, plan.vertices(), SOURCE_LIMIT, Vec::new(alloc)) {
        Ok(sources) => Ok(Job::new(plan, sources)),
        Err(refusal) => Err(refusal),
    }
}
