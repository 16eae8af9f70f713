// What the head of a vertex reads, where the bags of its sources are known.
ghost use Rattle.std.specs.Prelude.{◌≡◌, ◌≤◌, ◌==◌, ◌&&◌, ◌++◌, [], length, IfOk, OnOk};
ghost use Rattle.std.specs.List.{filter, find, flat_map, position};
ghost use Rattle.std.specs.Option.{option_map_or};
ghost use Rattle.std.specs.Str.{bytes_eq};
ghost use Rattle.tez_record.specs.Line.{lines};
ghost use Rattle.tez_plan.specs.Dag.{from, is_broadcast};
ghost use Rattle.tez_meaning.specs.Value.{inputs_of, is_left, columns_of, lines_of as lines_in};
ghost use Rattle.tez_meaning.specs.Known.{known_in, is_on_side, is_ahead, is_beside};

use crate::job::Job;
use std::alloc::{AllocError, Global};
use tez_ids::{Bytes, EdgeId, Name, VertexId};
use tez_plain::HeadReads;
use tez_plan::{Columns, EdgeSpec, Head, Plan, VertexSpec};
use tez_record::{Records, lines};

/// What the head of a vertex reads, where its sources made what `values` has. Copies each list.
pub fn reads_of(
    alloc: Global,
    job: &Job,
    v: VertexId,
    vertex: &VertexSpec,
    values: &[Records],
) -> Result<HeadReads, AllocError>
    requires { length job.now.plan.edges ≤ 256 }
    ensures { IfOk result (λ r. r ≡ inputs_of job.now v.0 vertex.now (known_in values.now)) }
{
    let plan = job.plan();
    let head = &vertex.head;
    let mut primary = source_of(alloc, job, vertex)?;
    push_ahead(&mut primary, plan, v, head, true, values)?;
    let mut partner = Records::new(alloc);
    push_ahead(&mut partner, plan, v, head, false, values)?;
    let columns = columns_ahead(alloc, plan, v, head, true)?;
    let partner_columns = columns_ahead(alloc, plan, v, head, false)?;
    let side = side_of(alloc, plan, v, values)?;
    Ok(HeadReads::new(columns, primary, partner_columns, partner, side))
}

/// Adds the records of each source on one side of a head.
fn push_ahead(
    records: &mut Records,
    plan: &Plan,
    v: VertexId,
    head: &Head,
    left: bool,
    values: &[Records],
) -> Result<(), AllocError>
    requires { length plan.now.edges ≤ 256 }
    ensures { OnOk result (records.new ≡ records.old ++ flat_map (λ e. known_in values.now (from plan.now e)) (filter (is_ahead plan.now v.0 head.now left) plan.now.edges)) }
{
    let edges = plan.edges();
    for e in 0..edges.len() {
        let (source, target) = plan.ends(EdgeId(e as u16));
        if leads_ahead(&edges[e], target, v, head, left) {
            append_known(records, values, source)?;
        }
    }
    Ok(())
}

/// The key columns of the first edge on one side of a head, and none where there is none.
fn columns_ahead(
    alloc: Global,
    plan: &Plan,
    v: VertexId,
    head: &Head,
    left: bool,
) -> Result<Columns, AllocError>
    requires { length plan.now.edges ≤ 256 }
    ensures { IfOk result (λ columns. columns ≡ columns_of (filter (is_ahead plan.now v.0 head.now left) plan.now.edges)) }
{
    let edges = plan.edges();
    for e in 0..edges.len() {
        let edge = &edges[e];
        let (_source, target) = plan.ends(EdgeId(e as u16));
        if leads_ahead(edge, target, v, head, left) {
            return Ok(Columns::new(Vec::from_slice(alloc, edge.movement.keys())?));
        }
    }
    Ok(Columns::new(Vec::new(alloc)))
}

/// Whether an edge with this target leads to a vertex, on one side of its head: from the left source
/// of a join or from the other one. Every source of another head is on the left; a broadcast edge is
/// on neither side.
pub fn leads_ahead(edge: &EdgeSpec, target: VertexId, v: VertexId, head: &Head, left: bool) -> bool
    ensures { result ≡ ((target.0 == v.0) && is_on_side head.now left edge.now) }
{
    target.0 == v.0 && is_on_side(head, left, edge)
}

fn is_on_side(head: &Head, left: bool, edge: &EdgeSpec) -> bool
    ensures { result ≡ is_on_side head.now left edge.now }
{
    if edge.movement.is_broadcast() {
        return false;
    }
    if left {
        is_left(head, edge)
    } else {
        !is_left(head, edge)
    }
}

/// Whether the edge is from the left source of a join; at another head each is.
fn is_left(head: &Head, edge: &EdgeSpec) -> bool
    ensures { result ≡ is_left head.now edge.now }
{
    match head {
        Head::Join { left } => edge.source.as_str() == left.as_str(),
        Head::Each
        | Head::Sum { .. }
        | Head::Count
        | Head::Distinct
        | Head::Lookup { .. }
        | Head::KeepIn { .. }
        | Head::DropIn { .. } => true,
    }
}

/// The lines of the source file of a vertex, and none where it has none.
fn source_of(alloc: Global, job: &Job, vertex: &VertexSpec) -> Result<Records, AllocError>
    ensures { IfOk result (λ rs. rs ≡ option_map_or (lines_in job.now) vertex.now.source []) }
{
    match &vertex.source {
        None => Ok(Records::new(alloc)),
        Some(name) => source_lines(alloc, job, name.as_str()),
    }
}

/// The lines of the source file of this name, and none where it is not there. Copies them.
pub(crate) fn source_lines(alloc: Global, job: &Job, name: &str) -> Result<Records, AllocError>
    ensures { IfOk result (λ rs. rs ≡ lines_in job.now name.now) }
{
    lines_of(alloc, job.sources(), name)
}

/// The lines of the file of this name, and none where it is not there.
fn lines_of(alloc: Global, files: &[(Name, Bytes)], name: &str) -> Result<Records, AllocError>
    ensures { IfOk result (λ rs. rs ≡ option_map_or (λ file. lines file.1) (find (λ file. bytes_eq file.0 name.now) files.now) []) }
{
    match place_named(files, name) {
        None => Ok(Records::new(alloc)),
        Some(place) => lines(alloc, files[place].1.as_slice()),
    }
}

fn place_named(files: &[(Name, Bytes)], name: &str) -> Option<usize>
    ensures { result ≡ position (λ file. bytes_eq file.0 name.now) files.now }
{
    files.iter().position(|file| file.0.as_str() == name)
}

/// What a vertex gets beside its primary records.
fn side_of(
    alloc: Global,
    plan: &Plan,
    v: VertexId,
    values: &[Records],
) -> Result<Records, AllocError>
    requires { length plan.now.edges ≤ 256 }
    ensures { IfOk result (λ side. side ≡ flat_map (λ e. known_in values.now (from plan.now e)) (filter (is_beside plan.now v.0) plan.now.edges)) }
{
    let edges = plan.edges();
    let mut side = Records::new(alloc);
    for e in 0..edges.len() {
        let (source, target) = plan.ends(EdgeId(e as u16));
        if leads_beside(&edges[e], target, v) {
            append_known(&mut side, values, source)?;
        }
    }
    Ok(side)
}

fn leads_beside(edge: &EdgeSpec, target: VertexId, v: VertexId) -> bool
    ensures { result ≡ ((target.0 == v.0) && is_broadcast edge.now) }
{
    target.0 == v.0 && edge.movement.is_broadcast()
}

/// Adds the records of a vertex, or nothing where the table does not reach to it.
fn append_known(records: &mut Records, values: &[Records], v: VertexId) -> Result<(), AllocError>
    ensures { OnOk result (records.new ≡ records.old ++ known_in values.now v.0) }
{
    let place = v.0 as usize;
    if place < values.len() {
        records.append(&values[place])
    } else {
        Ok(())
    }
}
