//! What each change makes of the vertices and edges.
ghost use Rattle.std.specs.Prelude.{◌≡◌, ◌≤◌, true, map, length};
ghost use Rattle.tez_schedule.specs.Table.{changed_at, configured_with, scheduled_with, won_with, fed_with, with_winner, bytes_for, made_with, with_made, can_configure_in, is_task_in};

use crate::edge_bytes::EdgeBytes;
use crate::vertex::VertexSchedule;
use tez_ids::{EdgeId, TaskId, VertexId};
use tez_vman::Config;

/// Fixes the tasks of a vertex.
pub(crate) fn configure(vertices: &mut [VertexSchedule], v: VertexId, config: Config)
    requires { can_configure_in vertices.old v.0 config ≡ true }
    ensures { vertices.new ≡ changed_at vertices.old v.0 (configured_with config) }
{
    let v = v.0 as usize;
    if v < vertices.len() {
        vertices[v].configure(config);
    }
}

/// A task was queued, or is kept.
pub(crate) fn schedule(vertices: &mut [VertexSchedule], t: TaskId)
    ensures { vertices.new ≡ changed_at vertices.old t.vertex.0 (scheduled_with t.index) }
{
    let v = t.vertex.0 as usize;
    if v < vertices.len() {
        vertices[v].schedule(t.index);
    }
}

/// A task has a winner, or has none.
pub(crate) fn set_winner(vertices: &mut [VertexSchedule], t: TaskId, has: bool)
    requires { has ≡ true → is_task_in vertices.old t ≡ true }
    ensures { vertices.new ≡ with_winner vertices.old t has }
{
    set_won(vertices, t, has);
    set_fed(vertices, t, has);
}

fn set_won(vertices: &mut [VertexSchedule], t: TaskId, has: bool)
    requires { has ≡ true → is_task_in vertices.old t ≡ true }
    ensures { vertices.new ≡ changed_at vertices.old t.vertex.0 (won_with t.index has) }
{
    let v = t.vertex.0 as usize;
    if v < vertices.len() {
        vertices[v].set_winner(t.index, has);
    }
}

fn set_fed(vertices: &mut [VertexSchedule], t: TaskId, has: bool)
    ensures { vertices.new ≡ map (fed_with t.vertex.0 t.index has) vertices.old }
{
    for x in vertices.iter_mut() {
        x.set_fed(t.vertex, t.index, has);
    }
}

/// A winner of the task made these bytes. Takes time in the edges, and in the bytes told for each
/// edge of the task's vertex.
pub(crate) fn set_made(edges: &mut [EdgeBytes], t: TaskId, made: &[(EdgeId, u64)])
    requires { length edges.old ≤ 256 }
    ensures { edges.new ≡ with_made edges.old t made.now }
{
    for e in 0..edges.len() {
        set_edge(&mut edges[e], EdgeId(e as u16), t, made);
    }
}

fn set_edge(edge: &mut EdgeBytes, e: EdgeId, t: TaskId, made: &[(EdgeId, u64)])
    ensures { edge.new ≡ made_with t.vertex.0 t.index made.now e.0 edge.old }
{
    if edge.source() == t.vertex {
        edge.set(t.index, bytes_for(e, made));
    }
}

fn bytes_for(e: EdgeId, made: &[(EdgeId, u64)]) -> u64
    ensures { result ≡ bytes_for e.0 made.now }
{
    let mut bytes = 0;
    for m in made {
        if m.0 == e {
            bytes = m.1;
        }
    }
    bytes
}
