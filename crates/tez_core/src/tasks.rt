//! What the vertices tell of their tasks.
ghost use Rattle.std.specs.Prelude.{◌≡◌, ◌↔◌, IsTrue, ◌<◌, None, Some, length, IfSome, IfNone, option_and_then};
ghost use Rattle.tez_task.specs.Table.{state_of, next_of};
ghost use Rattle.tez_vertex.specs.Table.{task_of, after_take};
ghost use Rattle.tez_task.specs.TaskState.{HasRoom};
ghost use Rattle.tez_master_model.specs.Vertices.{take_in};
ghost use Rattle.tez_master_model.specs.Enabled.{why_by, why_of_task};
ghost use Rattle.tez_core.specs.Parts.{task_at, IsVertexOf, next_at};

use tez_attempt::AttemptState;
use tez_ids::{AttemptId, Epoch, TaskId};
use tez_master_model::Why;
use tez_task::TaskEvent;
use tez_vertex::VertexMachine;

/// An event of a task. Changes nothing where there is no such task.
pub(crate) fn take(vertices: &mut [VertexMachine], t: TaskId, e: TaskEvent)
    requires { IfSome (task_at vertices.old t) HasRoom }
    ensures { vertices.new ≡ take_in vertices.old t e }
{
    let v = t.vertex.0 as usize;
    if v < vertices.len() {
        take_at(&mut vertices[v], t.index, e);
    }
}

fn take_at(x: &mut VertexMachine, index: u32, e: TaskEvent)
    requires { IfSome (task_of x.old index) HasRoom }
    ensures { x.new ≡ after_take x.old index e }
{
    if index < x.tasks() {
        let _took = x.take(index, e);
    }
}

/// The vertex of a task, where it has the task.
pub(crate) fn vertex_of(vertices: &[VertexMachine], t: TaskId) -> Option<&VertexMachine>
    ensures there { IfSome result (λ x. IsVertexOf vertices.now t x.now) }
    ensures none { IfNone result (task_at vertices.now t ≡ None) }
{
    match vertices.get(t.vertex.0 as usize) {
        Some(x) if t.index < x.tasks() => Some(x),
        _ => None,
    }
}

/// Whether one attempt more of a task can be numbered.
pub(crate) fn has_room(vertices: &[VertexMachine], t: TaskId) -> bool
    ensures { IsTrue result ↔ IfSome (task_at vertices.now t) HasRoom }
{
    match vertex_of(vertices, t) {
        Some(x) => x.queued(t.index) < u64::MAX,
        None => true,
    }
}

/// How far an attempt has come, where it is its task's live one.
pub(crate) fn state_of(vertices: &[VertexMachine], a: AttemptId) -> Option<AttemptState>
    ensures { result ≡ option_and_then (λ t. state_of t.live a) (task_at vertices.now a.task) }
{
    match vertex_of(vertices, a.task) {
        Some(x) => x.attempt_state(a.task.index, a),
        None => None,
    }
}

/// The winner of a task.
pub(crate) fn winner_of(vertices: &[VertexMachine], t: TaskId) -> Option<AttemptId>
    ensures { result ≡ option_and_then (λ x. x.winner) (task_at vertices.now t) }
{
    match vertex_of(vertices, t) {
        Some(x) => x.winner(t.index),
        None => None,
    }
}

/// The attempt of a task that is queued next, that of number 0 where there is no such task.
pub(crate) fn next_of(vertices: &[VertexMachine], epoch: Epoch, t: TaskId) -> AttemptId
    ensures { result ≡ next_at vertices.now epoch.0 t }
{
    match vertex_of(vertices, t) {
        Some(x) => x.next(t.index),
        None => AttemptId {
            epoch,
            task: t,
            number: 0,
        },
    }
}

/// Why an attempt of this epoch is not processing.
pub(crate) fn why_of(vertices: &[VertexMachine], a: AttemptId) -> Option<Why>
    ensures { result ≡ why_of_task a (task_at vertices.now a.task) }
{
    match vertex_of(vertices, a.task) {
        Some(x) => why_at(x, a),
        None => Some(Why::UnknownAttempt),
    }
}

fn why_at(x: &VertexMachine, a: AttemptId) -> Option<Why>
    requires { a.task.index < length x.now.tasks }
    ensures { result ≡ why_of_task a (task_of x.now a.task.index) }
{
    if x.queued(a.task.index) <= a.number {
        Some(Why::UnknownAttempt)
    } else {
        why_by(x.attempt_state(a.task.index, a))
    }
}

fn why_by(state: Option<AttemptState>) -> Option<Why>
    ensures { result ≡ why_by state }
{
    match state {
        None => Some(Why::AttemptEnded),
        Some(AttemptState::Processing) => None,
        Some(AttemptState::Queued) => Some(Why::Stranger),
        Some(AttemptState::Placed) => Some(Why::Stranger),
        Some(AttemptState::Succeeded) => Some(Why::AttemptEnded),
        Some(AttemptState::Failed) => Some(Why::AttemptEnded),
        Some(AttemptState::Killed) => Some(Why::AttemptEnded),
    }
}
