//! The tasks of a vertex that is configured.
ghost use Rattle.std.specs.Prelude.{◌≡◌, IfOk};
ghost use Rattle.tez_vertex.specs.Table.{new_tasks, after_configure};
ghost use Rattle.tez_master_model.specs.Vertices.{change};
ghost use Rattle.tez_core.specs.Prepared.{new_tasks_at};

use std::alloc::{AllocError, Global};
use tez_ids::VertexId;
use tez_vertex::{NewTasks, VertexMachine};

/// So many tasks for a vertex, where it is there.
pub(crate) fn new_tasks(
    alloc: Global,
    vertices: &[VertexMachine],
    v: VertexId,
    count: u32,
) -> Result<Option<NewTasks>, AllocError>
    ensures { IfOk result (λ x. x ≡ new_tasks_at vertices.now v.0 count) }
{
    match vertices.get(v.0 as usize) {
        Some(x) => Ok(Some(x.new_tasks(alloc, count)?)),
        None => Ok(None),
    }
}

/// Gives them to the vertex.
pub(crate) fn set_tasks(
    vertices: &mut [VertexMachine],
    v: VertexId,
    tasks: Option<NewTasks>,
    count: u32,
)
    requires { tasks ≡ new_tasks_at vertices.old v.0 count }
    ensures { vertices.new ≡ change vertices.old v.0 (λ x. after_configure x count) }
{
    let v = v.0 as usize;
    if v < vertices.len() {
        if let Some(tasks) = tasks {
            give(&mut vertices[v], tasks, count);
        }
    }
}

fn give(x: &mut VertexMachine, tasks: NewTasks, count: u32)
    requires { tasks ≡ new_tasks x.old count }
    ensures { x.new ≡ after_configure x.old count }
{
    x.configure_with(tasks);
}
