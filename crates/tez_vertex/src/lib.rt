//! The machine of a vertex: its tasks, and how far it has come by them.
#![tactic(auto)]

ghost use Rattle.std.specs.Prelude.{◌≡◌, ℕ, ◌+◌, ◌<◌, ◌^◌, cond, true, false, not, ◌||◌, Some, map, length, IfOk, OnErr, IfSome};
ghost use Rattle.std.specs.Option.{option_map};
ghost use Rattle.tez_lists.specs.Numbers.{numbers_from};
ghost use Rattle.tez_ids.specs.Same.{task};
ghost use Rattle.tez_task.specs.declared.TaskEvent.{TaskEvent};
ghost use Rattle.tez_task.specs.TaskState.{TaskState, HasRoom};
ghost use Rattle.tez_task.specs.Table.{new_task, next_of, live_of, state_of, task_took, is_last};
ghost use Rattle.tez_vertex.specs.Vertex.{Vertex};
ghost use Rattle.tez_vertex.specs.Table.{new_vertex, new_tasks, task_of, state_by, state, has_failed, is_ignored, is_last_failure, after_configure, after_take, after_restore, IsFresh};

use std::alloc::{AllocError, Global};
use std::marker::Model;
use tez_attempt::AttemptState;
use tez_ids::{AttemptId, Epoch, TaskId, VertexId};
use tez_task::{TaskEvent, TaskMachine, TaskTook};

/// How far a vertex has come.
#[derive(Clone, Copy, Debug, PartialEq, Eq)]
pub enum VertexState {
    /// The number of its tasks is not set yet.
    Unconfigured,
    /// Nothing has happened to its tasks yet.
    Configured,
    Running,
    /// Every task has a winner. It is left when a winner is lost.
    Succeeded,
    /// A task has failed as often as it may.
    Failed,
}

/// A vertex with its tasks, which are numbered from 0. Each call but `configure` and `new_tasks` takes
/// constant time.
#[derive(Drop)]
pub struct VertexMachine {
    vertex: VertexId,
    epoch: Epoch,
    max_failed: u32,
    configured: bool,
    tasks: Vec<TaskMachine>,
    won: usize,
    spent: bool,
    moved: bool,
}

impl Model for VertexMachine {
    ghost use Rattle.tez_vertex.specs.Vertex.{Vertex, IsCounted};

    ghost Value = { Vertex };

    ghost view = { λ m. record { vertex = m.vertex; epoch = m.epoch.0; max_failed = m.max_failed; configured = m.configured; tasks = m.tasks.items; moved = m.moved } };

    ghost invariant = { λ m. IsCounted m.tasks.items m.max_failed m.won m.spent };
}

/// The tasks that a vertex gets when it is configured.
#[derive(Drop)]
pub struct NewTasks {
    tasks: Vec<TaskMachine>,
}

impl Model for NewTasks {
    ghost use Rattle.std.specs.Prelude.{◌<◌, ◌^◌, List, length};
    ghost use Rattle.tez_task.specs.TaskState.{TaskState};

    ghost Value = { List TaskState };

    ghost view = { λ x. x.tasks.items };

    ghost invariant = { λ x. length x.tasks.items < 2 ^ 32 };
}

impl VertexMachine {
    /// A vertex that is not configured, whose tasks may each fail `max_failed` times, the last of
    /// which spends the task. Takes no memory.
    pub fn new(alloc: Global, vertex: VertexId, epoch: Epoch, max_failed: u32) -> Self
        requires { 0 < max_failed }
        ensures { result ≡ new_vertex vertex epoch.0 max_failed }
    {
        VertexMachine {
            vertex,
            epoch,
            max_failed,
            configured: false,
            tasks: Vec::new(alloc),
            won: 0,
            spent: false,
            moved: false,
        }
    }

    /// Gives the vertex its tasks, none of which has an attempt yet. Answers false, and changes
    /// nothing, where it has them already.
    pub fn configure(&mut self, alloc: Global, tasks: u32) -> Result<bool, AllocError>
        ensures first { IfOk result (λ first. first ≡ not self.old.configured) }
        ensures after { IfOk result (λ _. self.new ≡ after_configure self.old tasks) }
        ensures memory { OnErr result (self.old.configured ≡ false) }
        ensures stays { OnErr result (self.new ≡ self.old) }
    {
        if self.configured {
            return Ok(false);
        }
        let machines = new_tasks(alloc, self.vertex, self.epoch, self.max_failed, tasks)?;
        self.tasks = machines;
        self.configured = true;
        self.won = 0;
        self.spent = false;
        Ok(true)
    }

    /// So many tasks for the vertex, none of which has an attempt yet. Takes all memory that giving
    /// them to it needs, and changes nothing.
    pub fn new_tasks(&self, alloc: Global, tasks: u32) -> Result<NewTasks, AllocError>
        ensures { IfOk result (λ x. x ≡ new_tasks self.now tasks) }
    {
        let machines = new_tasks(alloc, self.vertex, self.epoch, self.max_failed, tasks)?;
        Ok(NewTasks { tasks: machines })
    }

    /// Gives the vertex its tasks. Changes nothing where it has them already. Takes no memory.
    pub fn configure_with(&mut self, x: NewTasks)
        requires { x ≡ new_tasks self.old (length x) }
        ensures { self.new ≡ after_configure self.old (length x) }
    {
        if !self.configured {
            self.tasks = x.tasks;
            self.configured = true;
            self.won = 0;
            self.spent = false;
        }
    }

    /// Sets what an earlier master left of a task. To be called before its first attempt is queued.
    pub fn restore(&mut self, task: u32, failures: u32, winner: Option<AttemptId>)
        requires there { task < length self.old.tasks }
        requires fresh { IfSome (task_of self.old task) (IsFresh failures) }
        ensures { self.new ≡ after_restore self.old task failures winner }
    {
        let machine = &mut self.tasks[task as usize];
        let had = machine.winner().is_some();
        machine.restore(failures, winner);
        self.won = recount(self.won, had, winner.is_some());
    }

    /// An event of a task. What does not fit is ignored, and changes nothing.
    pub fn take(&mut self, task: u32, e: TaskEvent) -> TaskTook
        requires there { task < length self.old.tasks }
        requires room { IfSome (task_of self.old task) HasRoom }
        ensures after { self.new ≡ after_take self.old task e }
        ensures took { option_map (λ t. task_took t e) (task_of self.old task) ≡ Some result }
    {
        let machine = &mut self.tasks[task as usize];
        let had = machine.winner().is_some();
        let took = machine.take(e);
        let has = machine.winner().is_some();
        let spent = machine.is_spent();
        self.won = recount(self.won, had, has);
        self.spent = either(self.spent, spent);
        self.moved = either(self.moved, !is_ignored(took));
        took
    }

    pub fn state(&self) -> VertexState
        ensures { result ≡ state self.now }
    {
        let all_won = self.won == self.tasks.len();
        state_by(self.configured, self.spent, all_won, self.moved)
    }

    /// How many tasks there are: none before the vertex is configured.
    pub fn tasks(&self) -> u32
        ensures { result ≡ length self.now.tasks }
    {
        self.tasks.len() as u32
    }

    pub fn winner(&self, task: u32) -> Option<AttemptId>
        requires { task < length self.now.tasks }
        ensures { option_map (λ t. t.winner) (task_of self.now task) ≡ Some result }
    {
        self.machine(task).winner()
    }

    pub fn live(&self, task: u32) -> Option<AttemptId>
        requires { task < length self.now.tasks }
        ensures { option_map live_of (task_of self.now task) ≡ Some result }
    {
        self.machine(task).live()
    }

    /// How many attempts of a task were queued so far.
    pub fn queued(&self, task: u32) -> u64
        requires { task < length self.now.tasks }
        ensures { option_map (λ t. t.queued) (task_of self.now task) ≡ Some result }
    {
        self.machine(task).queued()
    }

    pub fn failures(&self, task: u32) -> u32
        requires { task < length self.now.tasks }
        ensures { option_map (λ t. t.failures) (task_of self.now task) ≡ Some result }
    {
        self.machine(task).failures()
    }

    /// Whether one failure more of a task is its last.
    pub fn is_last(&self, task: u32) -> bool
        requires { task < length self.now.tasks }
        ensures { option_map is_last (task_of self.now task) ≡ Some result }
    {
        self.machine(task).is_last()
    }

    /// The attempt of a task that is queued next.
    pub fn next(&self, task: u32) -> AttemptId
        requires { task < length self.now.tasks }
        ensures { option_map next_of (task_of self.now task) ≡ Some result }
    {
        self.machine(task).next()
    }

    /// How far an attempt of a task has come, where it is the live one.
    pub fn attempt_state(&self, task: u32, attempt: AttemptId) -> Option<AttemptState>
        requires { task < length self.now.tasks }
        ensures { option_map (λ t. state_of t.live attempt) (task_of self.now task) ≡ Some result }
    {
        self.machine(task).state(attempt)
    }

    fn machine(&self, task: u32) -> &TaskMachine
        requires { task < length self.now.tasks }
        ensures { task_of self.now task ≡ Some result.now }
    {
        &self.tasks[task as usize]
    }
}

/// A vertex fails by the answer `Spent` alone, and stays so.
pub fn failed_after_spent()
    ensures { (s : Vertex) (i : ℕ) (t : TaskState) (e : TaskEvent) → task_of s i ≡ Some t → has_failed (after_take s i e) ≡ (has_failed s || is_last_failure (task_took t e)) }
{}

/// An event that is answered `Ignored` changes nothing.
pub fn ignored_changes_nothing()
    ensures { (s : Vertex) (i : ℕ) (t : TaskState) (e : TaskEvent) → task_of s i ≡ Some t → task_took t e ≡ TaskTook.Ignored → after_take s i e ≡ s }
{}

// Tasks that have no attempt.
fn new_tasks(
    alloc: Global,
    vertex: VertexId,
    epoch: Epoch,
    max_failed: u32,
    count: u32,
) -> Result<Vec<TaskMachine>, AllocError>
    requires { 0 < max_failed }
    ensures { IfOk result (λ tasks. tasks.items ≡ map (λ i. new_task (task vertex.0 i) epoch.0 max_failed) (numbers_from 0 count)) }
{
    let mut tasks = Vec::with_capacity(alloc, count as usize)?;
    for index in 0..count {
        tasks.push(TaskMachine::new(TaskId { vertex, index }, epoch, max_failed))?;
    }
    Ok(tasks)
}

// The number of winners, once a task that had one or had none has one or has none.
fn recount(won: usize, had: bool, has: bool) -> usize
    requires some { had ≡ true → 0 < won }
    requires room { won < 2 ^ 32 }
    ensures { result + cond had 1 0 ≡ won + cond has 1 0 }
{
    match (had, has) {
        (true, false) => won - 1,
        (false, true) => won + 1,
        _ => won,
    }
}

fn is_ignored(took: TaskTook) -> bool
    ensures { result ≡ is_ignored took }
{
    matches!(took, TaskTook::Ignored)
}

fn either(a: bool, b: bool) -> bool
    ensures { result ≡ (a || b) }
{
    a || b
}

fn state_by(configured: bool, spent: bool, all_won: bool, moved: bool) -> VertexState
    ensures { result ≡ state_by configured spent all_won moved }
{
    if !configured {
        VertexState::Unconfigured
    } else if spent {
        VertexState::Failed
    } else if all_won {
        VertexState::Succeeded
    } else if moved {
        VertexState::Running
    } else {
        VertexState::Configured
    }
}
