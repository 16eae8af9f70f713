// What an order has of the edges into and out of its vertex.
ghost use Rattle.std.specs.Prelude.{◌≡◌, ◌++◌, ◌&&◌, ◌==◌, ◌≤◌, ◌<◌, map, length, IfOk, OnOk};
ghost use Rattle.std.specs.List.{filter};
ghost use Rattle.tez_plan.specs.Dag.{edge, keys_of, tasks_of as planned};
ghost use Rattle.tez_meaning.specs.Known.{is_ahead};
ghost use Rattle.tez_history.specs.Shape.{edges_to};
ghost use Rattle.tez_assembly.specs.Order.{keys_for, key_at, outs_for, cut_by};

use std::alloc::{AllocError, Global};
use tez_ids::{EdgeId, VertexId};
use tez_meaning::leads_ahead;
use tez_orders::Cut;
use tez_plan::{Columns, EdgeSpec, Head, Movement, Plan};

/// The vertices that feed a head by key, the left ones first, each with the key columns of its
/// edge. It goes over the edges of the plan twice.
pub fn keys_of_vertex(
    alloc: Global,
    plan: &Plan,
    v: VertexId,
    head: &Head,
) -> Result<Vec<(VertexId, Columns)>, AllocError>
    requires { length plan.now.edges ≤ 256 }
    ensures { IfOk result (λ keys. keys.items ≡ keys_for plan.now v.0 head.now) }
{
    let mut keys = Vec::new(alloc);
    push_keys(alloc, &mut keys, plan, v, head, true)?;
    push_keys(alloc, &mut keys, plan, v, head, false)?;
    Ok(keys)
}

/// Adds the vertices on one side of a head.
fn push_keys(
    alloc: Global,
    keys: &mut Vec<(VertexId, Columns)>,
    plan: &Plan,
    v: VertexId,
    head: &Head,
    left: bool,
) -> Result<(), AllocError>
    requires { length plan.now.edges ≤ 256 }
    ensures { OnOk result (keys.new.items ≡ keys.old.items ++ map (key_at plan.now) (filter (is_ahead plan.now v.0 head.now left) plan.now.edges)) }
{
    let edges = plan.edges();
    for e in 0..edges.len() {
        let edge = &edges[e];
        let (source, target) = plan.ends(EdgeId(e as u16));
        if leads_ahead(edge, target, v, head, left) {
            keys.push((source, columns_of(alloc, edge)?))?;
        }
    }
    Ok(())
}

fn columns_of(alloc: Global, edge: &EdgeSpec) -> Result<Columns, AllocError>
    ensures { IfOk result (λ columns. columns ≡ keys_of edge.now) }
{
    Ok(Columns::new(Vec::from_slice(alloc, edge.movement.keys())?))
}

/// The edges into a vertex, in order. It goes over the edges of the plan.
pub fn edges_into_vertex(alloc: Global, plan: &Plan, v: VertexId) -> Result<Vec<EdgeId>, AllocError>
    ensures { IfOk result (λ edges. edges.items ≡ map (λ e. edge e.0) (edges_to plan.now v.0)) }
{
    let _valid = plan.vertices();
    edges_into(alloc, plan, v)
}

fn edges_into(alloc: Global, plan: &Plan, v: VertexId) -> Result<Vec<EdgeId>, AllocError>
    requires { length plan.now.edges ≤ 256 }
    ensures { IfOk result (λ edges. edges.items ≡ map (λ e. edge e.0) (edges_to plan.now v.0)) }
{
    let edges = plan.edges();
    let mut found = Vec::new(alloc);
    for e in 0..edges.len() {
        let _edge = &edges[e];
        let (_source, target) = plan.ends(EdgeId(e as u16));
        if is_same(target, v) {
            found.push(EdgeId(e as u16))?;
        }
    }
    Ok(found)
}

/// How the value of a vertex is cut, for each edge out of it. It goes over the edges of the plan.
pub fn outs_of_vertex(
    alloc: Global,
    plan: &Plan,
    v: VertexId,
) -> Result<Vec<(EdgeId, Cut)>, AllocError>
    requires { length plan.now.edges ≤ 256 }
    ensures { IfOk result (λ outs. outs.items ≡ outs_for plan.now v.0) }
{
    let edges = plan.edges();
    let mut outs = Vec::new(alloc);
    for e in 0..edges.len() {
        let edge = &edges[e];
        let (source, target) = plan.ends(EdgeId(e as u16));
        let parts = tasks_of(plan, target);
        if is_same(source, v) {
            outs.push((EdgeId(e as u16), cut_by(alloc, &edge.movement, parts)?))?;
        }
    }
    Ok(outs)
}

fn is_same(u: VertexId, v: VertexId) -> bool
    ensures { result ≡ (u.0 == v.0) }
{
    u.0 == v.0
}

fn tasks_of(plan: &Plan, v: VertexId) -> u32
    requires { v.0 < length plan.now.vertices }
    ensures { result ≡ planned plan.now v.0 }
{
    plan.vertices()[v.0 as usize].tasks
}

fn cut_by(alloc: Global, movement: &Movement, parts: u32) -> Result<Cut, AllocError>
    ensures { IfOk result (λ cut. cut ≡ cut_by movement.now parts) }
{
    Ok(match movement {
        Movement::OneToOne | Movement::Broadcast => Cut::Whole,
        Movement::ScatterGather { keys } => Cut::ByKey {
            cols: keys.copy(alloc)?,
            parts,
        },
    })
}
