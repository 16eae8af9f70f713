//! Attempts in their fixed form, and the machine of a task.
use tez_ids::{AttemptId, Epoch, TaskId, VertexId, read_fixed, write_fixed};
use tez_task::{TaskEvent, TaskMachine, TaskTook};

const TASK: TaskId = TaskId {
    vertex: VertexId(0),
    index: 2,
};

fn attempt(number: u64) -> AttemptId {
    AttemptId {
        epoch: Epoch(1),
        task: TASK,
        number,
    }
}

#[test]
fn an_attempt_has_22_bytes(rt: HostRuntime) {
    let mut bytes = [9; 22];
    write_fixed(attempt(3), &mut bytes);
    let row = [
        1, 0, 0, 0, 0, 0, 0, 0, 0, 0, 2, 0, 0, 0, 3, 0, 0, 0, 0, 0, 0, 0,
    ];
    assert_eq!(rt; bytes, row);
    assert_eq!(rt; read_fixed(&row), attempt(3));
}

#[test]
fn a_task_is_spent_by_its_second_failure(rt: HostRuntime) {
    let (first, second) = (attempt(0), attempt(1));
    let rows = [
        (TaskEvent::Queue, TaskTook::Again(first)),
        (TaskEvent::Place(first), TaskTook::Moved),
        (TaskEvent::Send(first), TaskTook::Moved),
        (TaskEvent::Fail(first), TaskTook::Again(second)),
        (TaskEvent::Succeed(first), TaskTook::Ignored),
        (TaskEvent::Place(second), TaskTook::Moved),
        (TaskEvent::Send(second), TaskTook::Moved),
        (TaskEvent::Fail(second), TaskTook::Spent),
    ];
    let mut task = TaskMachine::new(TASK, Epoch(1), 2);
    for (event, took) in rows {
        assert!(rt; task.queued() < 9);
        assert_eq!(rt; task.take(event), took);
    }
}
