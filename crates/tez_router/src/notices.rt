// The notices of a loss, attempt by attempt.
ghost use Rattle.std.specs.Prelude.{◌≡◌, ◌++◌, ◌∷◌, ◌≤◌, ◌+◌, [], not, true, slice_get, IfSome, IfNone, Some, None, length, OnOk, IfOk};
ghost use Rattle.std.specs.List.{flat_map, range_with_len, filter, list_all, AllByRecursion};
ghost use Rattle.tez_router.specs.Edges.{AreNumberedFrom, AreInto};
ghost use Rattle.tez_router.specs.Between.{edge_between, edges_between, over, notices_by, is_paired, AreAt, AreReaders};
ghost use Rattle.tez_router.specs.Order.{AreInOrder};
ghost use Rattle.tez_router.specs.Table.{waits_for, input_notice, notices_over, edge_notices, attempt_notices, is_among};

use crate::admitted::{Admitted, Inputs};
use crate::link::Link;
use crate::notice::Notice;
use crate::order::{end_of, place_of};
use std::alloc::{AllocError, Global};
use tez_ids::{AttemptId, EdgeId, TaskId, VertexId};
use tez_runs::Runs;

/// A task that has lost its winner.
#[derive(Clone, Copy)]
pub struct Loss {
    pub task: TaskId,
    pub lost: AttemptId,
}

fn is_waiting(link: &Link, task: TaskId, consumer: u32, fetched: &Runs, input: u32) -> bool
    ensures { result ≡ waits_for link.now task consumer fetched.now input }
{
    match link.source_task(consumer, input) {
        Some(source) => source == task && !fetched.is_set(input),
        None => false,
    }
}

fn add_input(
    found: &mut Vec<Notice>,
    link: &Link,
    loss: Loss,
    attempt: AttemptId,
    inputs: &Inputs,
    input: u32,
) -> Result<(), AllocError>
    ensures { OnOk result (found.new.items ≡ found.old.items ++ input_notice link.now loss.task loss.lost attempt inputs.now input) }
{
    if is_waiting(link, loss.task, attempt.task.index, inputs.fetched(), input) {
        found.push(Notice {
            attempt,
            edge: inputs.edge(),
            input,
            lost: loss.lost,
        })?;
    }
    Ok(())
}

fn add_inputs(
    found: &mut Vec<Notice>,
    link: &Link,
    loss: Loss,
    attempt: AttemptId,
    inputs: &Inputs,
) -> Result<(), AllocError>
    ensures { OnOk result (found.new.items ≡ found.old.items ++ notices_over (Some link.now) loss.task loss.lost attempt inputs.now) }
{
    let (first, end) = link.span(loss.task, attempt.task.index);
    let end = end.min(inputs.fetched().len());
    for input in first.min(end)..end {
        add_input(found, link, loss, attempt, inputs, input)?;
    }
    Ok(())
}

fn add_edge(
    found: &mut Vec<Notice>,
    links: &[Link],
    loss: Loss,
    attempt: AttemptId,
    inputs: &Inputs,
) -> Result<(), AllocError>
    ensures { OnOk result (found.new.items ≡ found.old.items ++ edge_notices links.now loss.task loss.lost attempt inputs.now) }
{
    match links.get(inputs.edge().0 as usize) {
        Some(link) => add_inputs(found, link, loss, attempt, inputs),
        None => Ok(()),
    }
}

// Adds the notices of an admitted attempt over an edge.
fn add_over(
    found: &mut Vec<Notice>,
    links: &[Link],
    loss: Loss,
    edge: EdgeId,
    admitted: &Admitted,
) -> Result<(), AllocError>
    ensures { OnOk result (found.new.items ≡ found.old.items ++ flat_map (edge_notices links.now loss.task loss.lost admitted.now.attempt) (over edge.0 admitted.now.edges)) }
{
    match admitted.over(edge) {
        Some(inputs) => add_edge(found, links, loss, admitted.attempt(), inputs),
        None => Ok(()),
    }
}

// Adds the notices of an admitted attempt over these edges, by edge and by input.
fn add_attempt(
    found: &mut Vec<Notice>,
    links: &[Link],
    loss: Loss,
    edges: &[EdgeId],
    admitted: &Admitted,
) -> Result<(), AllocError>
    ensures { OnOk result (found.new.items ≡ found.old.items ++ notices_by links.now loss.task loss.lost edges.now admitted.now) }
{
    for edge in edges {
        add_over(found, links, loss, *edge, admitted)?;
    }
    Ok(())
}

fn is_among(ended: &[AttemptId], attempt: AttemptId) -> bool
    ensures { result ≡ is_among ended.now attempt }
{
    ended.iter().any(|other| attempt == *other)
}

// The same, for an attempt that is not among those that have ended.
fn add_unless(
    found: &mut Vec<Notice>,
    links: &[Link],
    loss: Loss,
    ended: &[AttemptId],
    edges: &[EdgeId],
    admitted: &Admitted,
) -> Result<(), AllocError>
    ensures { OnOk result (found.new.items ≡ found.old.items ++ flat_map (notices_by links.now loss.task loss.lost edges.now) (filter (λ x. not (is_among ended.now x.attempt)) (admitted.now ∷ []))) }
{
    if is_among(ended, admitted.attempt()) {
        return Ok(());
    }
    add_attempt(found, links, loss, edges, admitted)
}

// Adds the notices of these attempts over these edges. Where there are no edges it does nothing.
fn add_all(
    found: &mut Vec<Notice>,
    links: &[Link],
    loss: Loss,
    ended: &[AttemptId],
    edges: &[EdgeId],
    admitted: &[Admitted],
) -> Result<(), AllocError>
    ensures { OnOk result (found.new.items ≡ found.old.items ++ flat_map (notices_by links.now loss.task loss.lost edges.now) (filter (λ x. not (is_among ended.now x.attempt)) admitted.now)) }
{
    if edges.is_empty() {
        return Ok(());
    }
    for x in admitted {
        add_unless(found, links, loss, ended, edges, x)?;
    }
    Ok(())
}

fn is_paired(links: &[Link], edge: EdgeId) -> bool
    ensures { result ≡ is_paired links.now edge }
{
    match links.get(edge.0 as usize) {
        Some(link) => link.is_one_to_one(),
        None => false,
    }
}

fn are_paired(links: &[Link], edges: &[EdgeId]) -> bool
    ensures { result ≡ list_all (is_paired links.now) edges.now }
{
    edges.iter().all(|edge| is_paired(links, *edge))
}

// Where those of a vertex's attempts stand that read an output of the task over these edges. Where
// the edges are one to one it is the attempt of the same index alone, which is looked up.
fn readers(
    links: &[Link],
    task: TaskId,
    edges: &[EdgeId],
    vertex: VertexId,
    admitted: &[Admitted],
) -> (usize, usize)
    requires ordered { AreInOrder admitted.now }
    requires here { AreAt vertex.0 admitted.now }
    ensures readers { AreReaders links.now task edges.now admitted.now result.0 result.1 }
    ensures alone { list_all (is_paired links.now) edges.now ≡ true → result.1 ≤ result.0 + 1 }
{
    if !are_paired(links, edges) {
        return (0, admitted.len());
    }
    let reader = TaskId {
        vertex,
        index: task.index,
    };
    let at = place_of(admitted, reader);
    if at < admitted.len() {
        (at, at + 1)
    } else {
        (at, at)
    }
}

// Adds the notices of a vertex's attempts over these edges. Goes over those alone that read an output
// of the lost task.
fn add_readers(
    found: &mut Vec<Notice>,
    links: &[Link],
    loss: Loss,
    ended: &[AttemptId],
    edges: &[EdgeId],
    vertex: VertexId,
    admitted: &[Admitted],
) -> Result<(), AllocError>
    requires ordered { AreInOrder admitted.now }
    requires here { AreAt vertex.0 admitted.now }
    ensures { OnOk result (found.new.items ≡ found.old.items ++ flat_map (notices_by links.now loss.task loss.lost edges.now) (filter (λ x. not (is_among ended.now x.attempt)) admitted.now)) }
{
    let (first, end) = readers(links, loss.task, edges, vertex, admitted);
    add_all(found, links, loss, ended, edges, &admitted[first..end])
}

fn add_between(
    edges: &mut Vec<EdgeId>,
    link: &Link,
    from: VertexId,
    to: VertexId,
) -> Result<(), AllocError>
    ensures { OnOk result (edges.new.items ≡ edges.old.items ++ edge_between from.0 to.0 link.now) }
{
    if link.is_between(from, to) {
        edges.push(link.edge())?;
    }
    Ok(())
}

fn edges_between(
    alloc: Global,
    links: &[Link],
    from: VertexId,
    to: VertexId,
) -> Result<Vec<EdgeId>, AllocError>
    ensures { IfOk result (λ edges. edges.items ≡ edges_between links.now from.0 to.0) }
{
    let mut edges = Vec::new(alloc);
    for link in links {
        add_between(&mut edges, link, from, to)?;
    }
    Ok(edges)
}

/// The notices of a loss, by attempt, edge and input, but for those attempts that have ended. Goes
/// from vertex to vertex, and over those attempts alone that read an output of the lost task, and of
/// these over the edges from its vertex alone.
pub fn notices_of(
    alloc: Global,
    links: &[Link],
    admitted: &[Admitted],
    loss: Loss,
    ended: &[AttemptId],
) -> Result<Vec<Notice>, AllocError>
    requires numbered { AreNumberedFrom 0 links.now }
    requires ordered { AreInOrder admitted.now }
    requires into { AllByRecursion (AreInto links.now) admitted.now }
    ensures { IfOk result (λ found. found.items ≡ flat_map (attempt_notices links.now loss.task loss.lost) (filter (λ x. not (is_among ended.now x.attempt)) admitted.now)) }
{
    let mut found = Vec::new(alloc);
    let mut at = 0;
    while at < admitted.len() {
        let vertex = admitted[at].attempt().task.vertex;
        let end = end_of(admitted, vertex);
        let edges = edges_between(alloc, links, loss.task.vertex, vertex)?;
        add_readers(
            &mut found,
            links,
            loss,
            ended,
            edges.as_slice(),
            vertex,
            &admitted[at..end],
        )?;
        at = end;
    }
    Ok(found)
}
