ghost use Rattle.std.specs.Prelude.{◌≡◌, ◌<◌, length, map, IsFalse, IfOk, IfErr, OnOk};
ghost use Rattle.tez_record.specs.Bag.{text};
ghost use Rattle.tez_meaning.specs.Value.{sinks, sink_texts, value_from, IsBadVertex, IsDefined};
ghost use Rattle.tez_meaning.specs.Known.{known_in, bad_from, IsBadAt, AreValues};

use crate::fault::MeaningFault;
use crate::job::Job;
use crate::reads::reads_of;
use std::alloc::{AllocError, Global};
use tez_ids::{Bytes, Name, VertexId};
use tez_plain::{PlainFault, evaluate};
use tez_plan::{VertexSpec, topo};
use tez_record::{Records, bag_text};

/// The text of each sink, in the order of vertices, or the first vertex in the order of `topo` that
/// meets a bad record. It keeps the bag of every vertex until the end, and copies a bag once
/// for each edge that it goes along; beside that it costs what `evaluate` costs at each vertex.
pub fn meaning(alloc: Global, job: &Job) -> Result<Vec<(Name, Bytes)>, MeaningFault>
    ensures texts { IfOk result (λ texts. texts.items ≡ sink_texts job.now) }
    ensures defined { IfOk result (λ texts. IsDefined job.now) }
    ensures bad { IfErr result (IsBadVertex job.now) }
{
    let values = match values_of(alloc, job) {
        Ok(values) => values,
        Err(fault) => return Err(fault),
    };
    match texts_of(alloc, job.plan().vertices(), &values) {
        Ok(texts) => Ok(texts),
        Err(_) => Err(MeaningFault::NoMemory),
    }
}

/// The bag of each vertex.
fn values_of(alloc: Global, job: &Job) -> Result<Vec<Records>, MeaningFault>
    ensures values { IfOk result (λ values. AreValues job.now values.items) }
    ensures defined { IfOk result (λ values. IsDefined job.now) }
    ensures bad { IfErr result (IsBadVertex job.now) }
{
    let order = match topo(alloc, job.plan()) {
        Ok(order) => order,
        Err(_) => return Err(MeaningFault::NoMemory),
    };
    let mut values = match empty_table(alloc, job.plan().vertices().len()) {
        Ok(values) => values,
        Err(_) => return Err(MeaningFault::NoMemory),
    };
    for v in &order {
        match vertex_value(alloc, job, *v, &values) {
            Ok(bag) => values[v.0 as usize] = bag,
            Err(cause) => return Err(cause),
        }
    }
    Ok(values)
}

fn empty_table(alloc: Global, count: usize) -> Result<Vec<Records>, AllocError>
    ensures { IfOk result (λ values. length values.items ≡ count) }
{
    let mut values = Vec::with_capacity(alloc, count)?;
    for _v in 0..count {
        values.push(Records::new(alloc))?;
    }
    Ok(values)
}

/// What a vertex makes, where its sources made what `values` has.
fn vertex_value(
    alloc: Global,
    job: &Job,
    v: VertexId,
    values: &[Records],
) -> Result<Records, MeaningFault>
    requires { v.0 < length job.now.plan.vertices }
    ensures value { IfOk result (λ bag. bag ≡ value_from job.now v.0 (known_in values.now)) }
    ensures good { IfOk result (λ bag. IsFalse (bad_from job.now v.0 (known_in values.now))) }
    ensures bad { IfErr result (IsBadAt job.now v values.now) }
{
    let vertex = &job.plan().vertices()[v.0 as usize];
    let reads = match reads_of(alloc, job, v, vertex, values) {
        Ok(reads) => reads,
        Err(_) => return Err(MeaningFault::NoMemory),
    };
    match evaluate(alloc, &vertex.head, vertex.steps.as_slice(), &reads) {
        Ok(bag) => Ok(bag),
        Err(PlainFault::BadRecord(_)) => Err(MeaningFault::Bad { vertex: v }),
        Err(PlainFault::NoMemory) => Err(MeaningFault::NoMemory),
    }
}

/// The name and text of each sink.
fn texts_of(
    alloc: Global,
    vertices: &[VertexSpec],
    values: &[Records],
) -> Result<Vec<(Name, Bytes)>, AllocError>
    requires { length values.now ≡ length vertices.now }
    ensures { IfOk result (λ texts. texts.items ≡ map (λ s. (s.1, text (known_in values.now s.0))) (sinks 0 vertices.now)) }
{
    let mut texts = Vec::new(alloc);
    for v in 0..vertices.len() {
        if let Some(sink) = &vertices[v].sink {
            let name = Name::copy_of(alloc, sink.as_str())?;
            let bytes = Bytes::new(bag_text(alloc, &values[v])?);
            texts.push((name, bytes))?;
        }
    }
    Ok(texts)
}
