// The tasks of a plan by depth, vertex and index.
ghost use Rattle.std.specs.Prelude.{◌≡◌, ◌<◌, ◌≤◌, ◌*◌, ℕ, ◌++◌, length, map, IfOk, OnOk};
ghost use Rattle.tez_plan.specs.Ranges.{most_tasks};
ghost use Rattle.std.specs.List.{flat_map};
ghost use Rattle.tez_lists.specs.Numbers.{numbers_from};
ghost use Rattle.tez_plan.specs.Order.{depth};
ghost use Rattle.tez_queue.specs.Queue.{of_depth, row_of};
ghost use Rattle.tez_queue.specs.Kept.{by_depth, start_of, tasks_of};

use crate::rows::{QueueRow, count_of};
use std::alloc::{AllocError, Global};
use tez_ids::{TaskId, VertexId};
use tez_plan::{Plan, depth};

/// The depth of each vertex.
pub fn depths_of(alloc: Global, p: &Plan) -> Result<Vec<u32>, AllocError>
    ensures { IfOk result (λ depths. depths.items ≡ map (depth p.now) (numbers_from 0 (length p.now.vertices))) }
{
    let mut depths = Vec::new(alloc);
    for v in 0..p.vertices().len() {
        depths.push(depth(p, VertexId(v as u16)))?;
    }
    Ok(depths)
}

fn add_of_depth(vertices: &mut Vec<u16>, depths: &[u32], d: u32) -> Result<(), AllocError>
    requires { length depths.now ≤ 64 }
    ensures { OnOk result (vertices.new.items ≡ vertices.old.items ++ of_depth depths.now d) }
{
    for v in 0..depths.len() {
        if depths[v] == d {
            vertices.push(v as u16)?;
        }
    }
    Ok(())
}

/// The vertices by depth, and those of one depth by number.
pub fn by_depth(alloc: Global, depths: &[u32]) -> Result<Vec<u16>, AllocError>
    requires { length depths.now ≤ 64 }
    ensures { IfOk result (λ vertices. vertices.items ≡ by_depth depths.now) }
{
    let mut vertices = Vec::new(alloc);
    for d in 0..depths.len() {
        add_of_depth(&mut vertices, depths, d as u32)?;
    }
    Ok(vertices)
}

fn add_tasks(tasks: &mut Vec<TaskId>, rows: &[QueueRow], v: u16) -> Result<(), AllocError>
    ensures { OnOk result (tasks.new.items ≡ tasks.old.items ++ tasks_of rows.now v) }
{
    for index in 0..count_of(rows, v) {
        tasks.push(TaskId {
            vertex: VertexId(v),
            index,
        })?;
    }
    Ok(())
}

/// The tasks of the vertices in this order.
pub fn tasks_in_order(
    alloc: Global,
    rows: &[QueueRow],
    vertices: &[u16],
) -> Result<Vec<TaskId>, AllocError>
    ensures { IfOk result (λ tasks. tasks.items ≡ flat_map (tasks_of rows.now) vertices.now) }
{
    let mut tasks = Vec::new(alloc);
    for v in vertices {
        add_tasks(&mut tasks, rows, *v)?;
    }
    Ok(tasks)
}

/// How many tasks stand before those of a vertex.
pub fn start_of(rows: &[QueueRow], vertices: &[u16], v: u16) -> u32
    requires few { length vertices.now ≤ 4096 }
    requires low { (w : ℕ) → length (row_of rows.now w) ≤ most_tasks }
    ensures { result ≡ start_of rows.now vertices.now v }
{
    let mut start = 0;
    for w in vertices {
        if *w == v {
            return start;
        }
        start += count_of(rows, *w);
    }
    start
}

/// The same for each vertex.
pub fn starts_of(alloc: Global, rows: &[QueueRow], vertices: &[u16]) -> Result<Vec<u32>, AllocError>
    requires some { length rows.now ≤ 64 }
    requires few { length vertices.now ≤ 4096 }
    requires low { (w : ℕ) → length (row_of rows.now w) ≤ most_tasks }
    ensures { IfOk result (λ starts. starts.items ≡ map (start_of rows.now vertices.now) (numbers_from 0 (length rows.now))) }
{
    let mut starts = Vec::new(alloc);
    for v in 0..rows.len() {
        starts.push(start_of(rows, vertices, v as u16))?;
    }
    Ok(starts)
}
