//! The winners that are lost with a node.
ghost use Rattle.std.specs.Prelude.{◌≡◌, ◌++◌, IfOk, OnOk};
ghost use Rattle.std.specs.List.{flat_map};
ghost use Rattle.tez_core.specs.Lost.{is_lost_with, lost_of, lost_at};

use crate::locations::{Locations, location_at};
use crate::sinks::has_edge_out;
use std::alloc::{AllocError, Global};
use tez_ids::AttemptId;
use tez_plan::Plan;
use tez_vertex::VertexMachine;

/// The winners whose pieces lie on the node of a slot, in the order of tasks. Takes time in the
/// tasks, and in the edges for each task whose winner worked there.
pub(crate) fn lost_with(
    alloc: Global,
    p: &Plan,
    locations: &[Locations],
    vertices: &[VertexMachine],
    slot: u16,
) -> Result<Vec<AttemptId>, AllocError>
    ensures { IfOk result (λ found. found.items ≡ flat_map (lost_at p.now locations.now slot) vertices.now) }
{
    let mut found = Vec::new(alloc);
    for x in vertices {
        add_lost_at(&mut found, p, locations, x, slot)?;
    }
    Ok(found)
}

fn add_lost_at(
    found: &mut Vec<AttemptId>,
    p: &Plan,
    locations: &[Locations],
    x: &VertexMachine,
    slot: u16,
) -> Result<(), AllocError>
    ensures { OnOk result (found.new.items ≡ found.old.items ++ lost_at p.now locations.now slot x.now) }
{
    for index in 0..x.tasks() {
        add_lost(found, p, locations, x.winner(index), slot)?;
    }
    Ok(())
}

fn add_lost(
    found: &mut Vec<AttemptId>,
    p: &Plan,
    locations: &[Locations],
    winner: Option<AttemptId>,
    slot: u16,
) -> Result<(), AllocError>
    ensures { OnOk result (found.new.items ≡ found.old.items ++ lost_of p.now locations.now slot winner) }
{
    if let Some(w) = winner {
        if is_lost_with(p, locations, w, slot) {
            found.push(w)?;
        }
    }
    Ok(())
}

// The edges are gone over only where the pieces lie there.
fn is_lost_with(p: &Plan, locations: &[Locations], w: AttemptId, slot: u16) -> bool
    ensures { result ≡ is_lost_with p.now locations.now slot w }
{
    location_at(locations, w.task) == Some(slot) && has_edge_out(p, w.task.vertex)
}
