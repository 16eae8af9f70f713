//! The vertices and edges of a plan, before anything is known of them.
ghost use Rattle.std.specs.Prelude.{◌≡◌, ◌≤◌, ◌<◌, ◌&&◌, ◌==◌, not, false, length, map, slice_get, IfOk};
ghost use Rattle.tez_plan.specs.Ranges.{most_tasks};
ghost use Rattle.std.specs.Option.{option_map, option_map_or};
ghost use Rattle.tez_lists.specs.Numbers.{numbers_from};
ghost use Rattle.tez_plan.specs.Dag.{tasks_of, to, source_of, vertex, is_one_to_one, is_broadcast};
ghost use Rattle.tez_history.specs.Shape.{primary_edges, feed, rule, has_source};
ghost use Rattle.tez_schedule.specs.Managers.{rule_of};
ghost use Rattle.tez_schedule.specs.Kept.{HasInput};
ghost use Rattle.tez_schedule.specs.Planned.{feeder_by, one_to_one_source, input_of, planned_vertex, planned_edge};

use crate::edge_bytes::EdgeBytes;
use crate::input::Input;
use crate::manager::AnyManager;
use crate::vertex::VertexSchedule;
use std::alloc::{AllocError, Global};
use tez_conf::Conf;
use tez_ids::{EdgeId, VertexId};
use tez_plan::Plan;
use tez_vman::{Immediate, InputReady, Shuffle};

fn tasks_of(p: &Plan, v: VertexId) -> u32
    requires { v.0 < length p.now.vertices }
    ensures count { result ≡ tasks_of p.now v.0 }
    ensures some { 1 ≤ result }
    ensures few { result ≤ most_tasks }
{
    p.vertices()[v.0 as usize].tasks
}

fn has_source(p: &Plan, v: VertexId) -> bool
    requires { v.0 < length p.now.vertices }
    ensures { result ≡ has_source p.now v.0 }
{
    p.vertices()[v.0 as usize].source.is_some()
}

// A plan has at most 256 edges.
fn edge_count(p: &Plan) -> u16
    ensures count { result ≡ length p.now.edges }
    ensures few { result ≤ 256 }
{
    let _valid = p.vertices();
    p.edges().len() as u16
}

// Whether a vertex is fed over this edge.
fn feeds(p: &Plan, e: EdgeId, v: VertexId) -> bool
    requires { e.0 < length p.now.edges }
    ensures { result ≡ option_map_or (λ s. (to p.now s == v.0) && not (is_broadcast s)) (slice_get p.now.edges e.0) false }
{
    let (_, to) = p.ends(e);
    to == v && !p.edges()[e.0 as usize].movement.is_broadcast()
}

// Whether a vertex is fed one to one over this edge.
fn feeds_one_to_one(p: &Plan, e: EdgeId, v: VertexId) -> bool
    requires { e.0 < length p.now.edges }
    ensures { result ≡ option_map_or (λ s. (to p.now s == v.0) && is_one_to_one s) (slice_get p.now.edges e.0) false }
{
    let (_, to) = p.ends(e);
    to == v && p.edges()[e.0 as usize].movement.is_one_to_one()
}

// The edges over which a vertex is fed.
fn inputs_of(alloc: Global, p: &Plan, v: VertexId) -> Result<Vec<Input>, AllocError>
    ensures inputs { IfOk result (λ inputs. inputs.items ≡ map (input_of p.now) (primary_edges p.now v.0)) }
    ensures few { IfOk result (λ inputs. length inputs.items ≤ 256) }
{
    let mut inputs = Vec::new(alloc);
    for e in 0..edge_count(p) {
        let edge = EdgeId(e);
        if feeds(p, edge, v) {
            let (source, _) = p.ends(edge);
            inputs.push(Input { edge, source })?;
        }
    }
    Ok(inputs)
}

// The vertex that feeds this one one to one.
fn feeder_of(p: &Plan, v: VertexId) -> Option<VertexId>
    ensures { result ≡ option_map vertex (one_to_one_source p.now v.0) }
{
    for e in 0..edge_count(p) {
        if feeds_one_to_one(p, EdgeId(e), v) {
            return Some(p.ends(EdgeId(e)).0);
        }
    }
    None
}

// How a vertex is managed, and which one feeds it one to one.
fn manager_of(p: &Plan, c: &Conf, v: VertexId) -> (AnyManager, Option<VertexId>)
    requires { v.0 < length p.now.vertices }
    ensures rule { rule_of result.0 ≡ rule p.now c.now v.0 }
    ensures feeder { result.1 ≡ feeder_by (feed p.now v.0) }
{
    let tasks = tasks_of(p, v);
    if has_source(p, v) {
        return (AnyManager::Immediate(Immediate { tasks }), None);
    }
    match feeder_of(p, v) {
        Some(u) => (AnyManager::InputReady(InputReady {}), Some(u)),
        None => (AnyManager::Shuffle(shuffle(c, tasks)), None),
    }
}

// How a vertex with so many partitions gathers them.
fn shuffle(c: &Conf, parts: u32) -> Shuffle
    requires { 1 ≤ parts }
    ensures parts { result.parts ≡ parts }
    ensures auto_parallel { result.auto_parallel ≡ c.now.auto_parallel }
    ensures min_src { result.min_src ≡ c.now.min_src }
    ensures max_src { result.max_src ≡ c.now.max_src }
    ensures desired_bytes { result.desired_bytes ≡ c.now.desired_bytes }
    ensures min_tasks { result.min_tasks ≡ c.now.min_tasks }
{
    let values = c.values();
    Shuffle {
        parts,
        auto_parallel: values.auto_parallel,
        min_src: values.min_src,
        max_src: values.max_src,
        desired_bytes: values.desired_bytes,
        min_tasks: values.min_tasks,
    }
}

fn planned_vertex(
    alloc: Global,
    p: &Plan,
    c: &Conf,
    v: VertexId,
) -> Result<VertexSchedule, AllocError>
    requires { v.0 < length p.now.vertices }
    ensures { IfOk result (λ x. x ≡ planned_vertex p.now c.now v.0) }
{
    let _valid = p.vertices();
    let (manager, feeder) = manager_of(p, c, v);
    let inputs = inputs_of(alloc, p, v)?;
    VertexSchedule::new(alloc, manager, feeder, inputs, tasks_of(p, v))
}

/// The vertices of a plan.
pub(crate) fn planned_vertices(
    alloc: Global,
    p: &Plan,
    c: &Conf,
) -> Result<Vec<VertexSchedule>, AllocError>
    ensures { IfOk result (λ xs. xs.items ≡ map (planned_vertex p.now c.now) (numbers_from 0 (length p.now.vertices))) }
{
    let mut vertices = Vec::new(alloc);
    for v in 0..p.vertices().len() as u16 {
        vertices.push(planned_vertex(alloc, p, c, VertexId(v))?)?;
    }
    Ok(vertices)
}

/// The edges of a plan.
pub(crate) fn planned_edges(alloc: Global, p: &Plan) -> Result<Vec<EdgeBytes>, AllocError>
    ensures { IfOk result (λ xs. xs.items ≡ map (planned_edge p.now) (numbers_from 0 (length p.now.edges))) }
{
    let mut edges = Vec::new(alloc);
    for e in 0..edge_count(p) {
        let (source, _) = p.ends(EdgeId(e));
        edges.push(EdgeBytes::new(alloc, source, tasks_of(p, source))?)?;
    }
    Ok(edges)
}
