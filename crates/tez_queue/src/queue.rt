ghost use Rattle.std.specs.Prelude.{◌≡◌, true, false, IfOk};
ghost use Rattle.tez_queue.specs.Queue.{empty_queue, first, has, with_task};

use crate::order::{by_depth, depths_of, starts_of, tasks_in_order};
use crate::rows::{QueueRow, count_of, empty_rows, set_in};
use std::alloc::{AllocError, Global};
use std::marker::Model;
use tez_ids::TaskId;
use tez_plan::Plan;
use tez_tournament::Tournament;

/// The tasks of a plan that wait, of which contracts see a table of truth values and the depths of
/// the vertices.
#[derive(Drop)]
pub struct TaskQueue {
    depths: Vec<u32>,
    rows: Vec<QueueRow>,
    // By vertex, the place of its first task among the tasks in order.
    starts: Vec<u32>,
    tasks: Vec<TaskId>,
    waiting: Tournament,
}

impl Model for TaskQueue {
    ghost use Rattle.tez_queue.specs.Queue.{Queue};
    ghost use Rattle.tez_queue.specs.Kept.{IsKept};

    ghost Value = { Queue };

    ghost view = { λ q. record { depths = q.depths.items; queued = q.rows.items } };

    ghost invariant = { λ q. IsKept q.depths.items q.rows.items q.starts.items q.tasks.items q.waiting };
}

impl TaskQueue {
    /// The empty queue, with room for each task of the plan. Takes time and memory in its tasks.
    pub fn new(alloc: Global, p: &Plan) -> Result<TaskQueue, AllocError>
        ensures { IfOk result (λ q. q ≡ empty_queue p.now) }
    {
        let depths = depths_of(alloc, p)?;
        let rows = empty_rows(alloc, p.vertices())?;
        let vertices = by_depth(alloc, &depths)?;
        let starts = starts_of(alloc, &rows, &vertices)?;
        let tasks = tasks_in_order(alloc, &rows, &vertices)?;
        let waiting = Tournament::new(alloc, tasks.len() as u32)?;
        Ok(TaskQueue {
            depths,
            rows,
            starts,
            tasks,
            waiting,
        })
    }

    /// Puts a task into the queue. Changes nothing where the plan has no such task. Takes no memory,
    /// and time logarithmic in the plan's tasks.
    pub fn put(&mut self, t: TaskId)
        ensures { self.new ≡ with_task self.old t true }
    {
        self.set(t, true);
    }

    /// Takes a task out of the queue, at the cost of `put`.
    pub fn remove(&mut self, t: TaskId)
        ensures { self.new ≡ with_task self.old t false }
    {
        self.set(t, false);
    }

    /// Whether a task is in the queue. Not where the plan has no such task.
    pub fn has(&self, t: TaskId) -> bool
        ensures { result ≡ has self.now t }
    {
        match self.rows.get(t.vertex.0 as usize) {
            Some(row) => row.get(t.index),
            None => false,
        }
    }

    /// The task of least depth, of these the one of the least vertex, and of these the one of the
    /// least index.
    pub fn first(&self) -> Option<TaskId>
        ensures { result ≡ first self.now }
    {
        match self.waiting.least() {
            Some(place) => Some(self.tasks[place as usize]),
            None => None,
        }
    }

    fn set(&mut self, t: TaskId, present: bool)
        ensures { self.new ≡ with_task self.old t present }
    {
        if t.index < count_of(&self.rows, t.vertex.0) {
            let place = self.starts[t.vertex.0 as usize] + t.index;
            self.waiting.set(place, present);
            set_in(self.rows.as_mut_slice(), t, present);
        }
    }
}
