// What the end of a run comes to.
ghost use Rattle.std.specs.Prelude.{◌≡◌, ◌⊎◌, ◌++◌, [], unwrap_or, IfOk, IfErr, OnOk};
ghost use Rattle.tez_sinks.specs.Sinks.{sink_name as sink_name_of};
ghost use Rattle.tez_am.specs.Answer.{lines_for, told_text};
ghost use Rattle.tez_am.specs.Drive.{AnswersTo, IsToldBy};
ghost use Rattle.tez_am.specs.Text.{name_of};

use crate::failure::Failure;
use crate::status::Status;
use crate::text::sink_line;
use std::alloc::{AllocError, Global};
use tez_ids::{Bytes, Name, TaskId, VertexId};
use tez_meaning::Job;
use tez_plan::VertexSpec;
use tez_world::Verdict;

/// The name of a vertex.
pub fn vertex_name(alloc: Global, job: &Job, v: VertexId) -> Result<Name, AllocError>
    ensures { IfOk result (λ name. name ≡ name_of job.now.plan v.0) }
{
    match job.plan().vertices().get(v.0 as usize) {
        Some(vertex) => Name::copy_of(alloc, vertex.name.as_str()),
        None => Name::copy_of(alloc, ""),
    }
}

fn name_or_none(alloc: Global, sink: &Option<Name>) -> Result<Name, AllocError>
    ensures { IfOk result (λ name. name ≡ unwrap_or sink.now []) }
{
    match sink {
        Some(sink) => Name::copy_of(alloc, sink.as_str()),
        None => Name::copy_of(alloc, ""),
    }
}

/// The name of a vertex's sink.
fn sink_name(alloc: Global, job: &Job, v: VertexId) -> Result<Name, AllocError>
    ensures { IfOk result (λ name. name ≡ sink_name_of job.now.plan v.0) }
{
    match job.plan().vertices().get(v.0 as usize) {
        Some(vertex) => name_or_none(alloc, &vertex.sink),
        None => Name::copy_of(alloc, ""),
    }
}

fn exists(alloc: Global, job: &Job, v: VertexId) -> Failure
    ensures { (result ≡ Failure.Because (Status.SinkExists (sink_name_of job.now.plan v.0)))
        ⊎ (result ≡ Failure.Because Status.NoMemory) }
{
    match sink_name(alloc, job, v) {
        Ok(sink) => Failure::Because(Status::SinkExists(sink)),
        Err(_) => Failure::Because(Status::NoMemory),
    }
}

fn spent(alloc: Global, job: &Job, t: TaskId) -> Failure
    ensures { (result ≡ Failure.Spent t.vertex t.index (name_of job.now.plan t.vertex.0))
        ⊎ (result ≡ Failure.Because Status.NoMemory) }
{
    match vertex_name(alloc, job, t.vertex) {
        Ok(name) => Failure::Spent {
            vertex: t.vertex,
            task: t.index,
            name,
        },
        Err(_) => Failure::Because(Status::NoMemory),
    }
}

/// Adds the line of each sink of these vertices, with the records and bytes of each.
fn push_lines(
    alloc: Global,
    text: &mut Vec<u8>,
    vertices: &[VertexSpec],
    sums: &[(u64, u64)],
) -> Result<(), AllocError>
    ensures { OnOk result (text.new.items ≡ text.old.items ++ lines_for vertices.now sums.now) }
{
    let Some((vertex, rest)) = vertices.split_first() else {
        return Ok(());
    };
    let Some(sink) = &vertex.sink else {
        return push_lines(alloc, text, rest, sums);
    };
    let Some((sum, others)) = sums.split_first() else {
        return Ok(());
    };
    let line = sink_line(alloc, sink.as_str(), sum.0 as usize, sum.1 as usize)?;
    text.extend_from_slice(line.as_bytes())?;
    push_lines(alloc, text, rest, others)
}

/// What is said of published sinks, with the records and bytes of each.
fn success(alloc: Global, job: &Job, sums: &[(u64, u64)]) -> Result<Bytes, AllocError>
    ensures { IfOk result (λ text. text ≡ told_text job.now.plan sums.now) }
{
    let mut text = Vec::from_slice(alloc, b"SUCCEEDED\n")?;
    push_lines(alloc, &mut text, job.plan().vertices(), sums)?;
    Ok(Bytes::new(text))
}

/// The text of a success, or the failure, that a verdict comes to.
pub fn answer(alloc: Global, job: &Job, verdict: Verdict) -> Result<Bytes, Failure>
    ensures text { IfOk result (IsToldBy job.now verdict) }
    ensures failure { IfErr result (AnswersTo job.now verdict) }
{
    match verdict {
        Verdict::Succeeded(sums) => match success(alloc, job, sums.as_slice()) {
            Ok(text) => Ok(text),
            Err(_) => Err(Failure::Because(Status::NoMemory)),
        },
        Verdict::SinkExists(v) => Err(exists(alloc, job, v)),
        Verdict::AttemptsSpent(t) => Err(spent(alloc, job, t)),
        Verdict::DeviceFault(device) => Err(Failure::Because(Status::DeviceFault(device))),
    }
}
