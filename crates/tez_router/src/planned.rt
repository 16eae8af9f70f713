// The router of a plan.
ghost use Rattle.std.specs.Prelude.{◌≡◌, ◌<◌, ◌≤◌, length, map, IfOk};
ghost use Rattle.tez_plan.specs.Ranges.{most_tasks};
ghost use Rattle.std.specs.List.{range_with_len};
ghost use Rattle.tez_router.specs.State.{routing_of};
ghost use Rattle.tez_plan.specs.Dag.{tasks_of};
ghost use Rattle.tez_router.specs.Edges.{AreNumberedFrom};
ghost use Rattle.tez_router.specs.Planned.{routing_by, planned_link, no_winners};

use crate::link::Link;
use crate::winners::WinnerRow;
use std::alloc::{AllocError, Global};
use tez_edges::{Broadcast, Manager, OneToOne, ScatterGather};
use tez_ids::{EdgeId, VertexId};
use tez_plan::{Movement, Plan, VertexSpec};

/// The winners of each vertex's tasks, of which there are none yet.
pub fn planned_rows(alloc: Global, vertices: &[VertexSpec]) -> Result<Vec<WinnerRow>, AllocError>
    ensures { IfOk result (λ rows. rows.items ≡ map no_winners vertices.now) }
{
    let mut rows = Vec::new(alloc);
    for vertex in vertices {
        rows.push(WinnerRow::new(alloc, vertex.tasks)?)?;
    }
    Ok(rows)
}

fn tasks_of(p: &Plan, v: VertexId) -> u32
    requires { v.0 < length p.now.vertices }
    ensures count { result ≡ tasks_of p.now v.0 }
    ensures some { 1 ≤ result }
    ensures few { result ≤ most_tasks }
{
    p.vertices()[v.0 as usize].tasks
}

// The manager of these task counts.
fn planned_manager(movement: &Movement, sources: u32, consumers: u32) -> Manager
    requires some { 1 ≤ sources }
    requires somewhere { 1 ≤ consumers }
    requires few { sources ≤ most_tasks }
    requires narrow { consumers ≤ most_tasks }
    ensures { routing_of result ≡ routing_by movement.now sources consumers }
{
    match movement {
        Movement::OneToOne => Manager::OneToOne(OneToOne { tasks: sources }),
        Movement::Broadcast => Manager::Broadcast(Broadcast { sources, consumers }),
        Movement::ScatterGather { .. } => Manager::ScatterGather(ScatterGather {
            sources,
            parts: consumers,
            base: 1,
        }),
    }
}

fn planned_link(p: &Plan, e: EdgeId) -> Link
    requires { e.0 < length p.now.edges }
    ensures { result ≡ planned_link p.now e.0 }
{
    let (from, to) = p.ends(e);
    let movement = &p.edges()[e.0 as usize].movement;
    let manager = planned_manager(movement, tasks_of(p, from), tasks_of(p, to));
    Link::new(e, from, to, manager)
}

// A plan has at most 256 edges.
fn edge_count(p: &Plan) -> u16
    ensures count { result ≡ length p.now.edges }
    ensures few { result ≤ 256 }
{
    let _valid = p.vertices();
    p.edges().len() as u16
}

/// The edges with the managers of the plan's task counts.
pub fn planned_links(alloc: Global, p: &Plan) -> Result<Vec<Link>, AllocError>
    ensures links { IfOk result (λ links. links.items ≡ map (planned_link p.now) (range_with_len 0 (length p.now.edges))) }
    ensures few { IfOk result (λ links. length links.items ≤ 256) }
    ensures numbered { IfOk result (λ links. AreNumberedFrom 0 links.items) }
{
    let mut links = Vec::new(alloc);
    for e in 0..edge_count(p) {
        links.push(planned_link(p, EdgeId(e)))?;
    }
    Ok(links)
}
