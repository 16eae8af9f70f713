//! The machine of a task: its live attempt, its winner and its failures.
#![tactic(auto)]

ghost use Rattle.std.specs.Prelude.{◌≡◌, ◌<◌, ◌+◌, ◌^◌, Some, true, false};
ghost use Rattle.tez_task.specs.TaskState.{TaskState, HasRoom};
ghost use Rattle.tez_task.specs.Table.{new_task, next_of, live_of, state_of, moved_live, advanced, moved_or_ignored, queued_again, after_failure, took_failure, restored, after_event, took_event, task_after, task_took, is_winner, is_last};

use std::marker::Model;
use tez_attempt::{AttemptEvent, AttemptMachine, AttemptState, AttemptTook};
use tez_ids::{AttemptId, Epoch, TaskId};

/// What may happen to a task.
#[derive(Clone, Copy, Debug, PartialEq, Eq)]
pub enum TaskEvent {
    /// It gets its first attempt.
    Queue,
    Place(AttemptId),
    Send(AttemptId),
    Succeed(AttemptId),
    Fail(AttemptId),
    Kill(AttemptId),
    /// The winner is withdrawn.
    Lose(AttemptId),
}

/// What an event did to a task.
#[derive(Clone, Copy, Debug, PartialEq, Eq)]
pub enum TaskTook {
    Moved,
    /// A new attempt is queued.
    Again(AttemptId),
    /// The task has failed as often as it may.
    Spent,
    /// The event did not fit, and nothing changed.
    Ignored,
}

/// The live attempt of a task.
#[derive(Clone, Copy)]
pub struct Live {
    pub attempt: AttemptId,
    pub machine: AttemptMachine,
}

/// A task. Its attempts are numbered from 0 in the order in which they are queued.
#[derive(Drop)]
pub struct TaskMachine {
    task: TaskId,
    epoch: Epoch,
    max_failed: u32,
    live: Option<Live>,
    winner: Option<AttemptId>,
    queued: u64,
    failures: u32,
    spent: bool,
}

impl Model for TaskMachine {
    ghost use Rattle.std.specs.Prelude.{◌≡◌, ◌<◌, false};
    ghost use Rattle.tez_task.specs.TaskState.{TaskState};

    ghost Value = { TaskState };

    ghost view = { λ m. record { task = m.task; epoch = m.epoch.0; max_failed = m.max_failed; live = m.live; winner = m.winner; queued = m.queued; failures = m.failures; spent = m.spent } };

    ghost invariant = { λ m. m.spent ≡ false → m.failures < m.max_failed };
}

impl TaskMachine {
    /// A task with no attempt, which may fail `max_failed` times, the last of which spends it.
    pub fn new(task: TaskId, epoch: Epoch, max_failed: u32) -> Self
        requires { 0 < max_failed }
        ensures { result ≡ new_task task epoch.0 max_failed }
    {
        TaskMachine {
            task,
            epoch,
            max_failed,
            live: None,
            winner: None,
            queued: 0,
            failures: 0,
            spent: false,
        }
    }

    /// Sets what an earlier master left. To be called before the first attempt is queued.
    pub fn restore(&mut self, failures: u32, winner: Option<AttemptId>)
        requires fresh { self.old.queued ≡ 0 }
        requires few { failures < self.old.max_failed }
        ensures { self.new ≡ restored self.old failures winner }
    {
        self.failures = failures;
        self.winner = winner;
    }

    pub fn live(&self) -> Option<AttemptId>
        ensures { result ≡ live_of self.now }
    {
        match self.live {
            Some(live) => Some(live.attempt),
            None => None,
        }
    }

    pub fn winner(&self) -> Option<AttemptId>
        ensures { result ≡ self.now.winner }
    {
        self.winner
    }

    /// How many attempts were queued so far.
    pub fn queued(&self) -> u64
        ensures { result ≡ self.now.queued }
    {
        self.queued
    }

    pub fn failures(&self) -> u32
        ensures { result ≡ self.now.failures }
    {
        self.failures
    }

    pub fn is_spent(&self) -> bool
        ensures { result ≡ self.now.spent }
    {
        self.spent
    }

    /// Whether one failure more brings their number to the limit.
    pub fn is_last(&self) -> bool
        ensures { result ≡ is_last self.now }
    {
        self.max_failed as u64 <= self.failures as u64 + 1
    }

    /// The attempt that is queued next.
    pub fn next(&self) -> AttemptId
        ensures { result ≡ next_of self.now }
    {
        AttemptId {
            epoch: self.epoch,
            task: self.task,
            number: self.queued,
        }
    }

    /// How far this attempt has come, where it is the live one.
    pub fn state(&self, attempt: AttemptId) -> Option<AttemptState>
        ensures { result ≡ state_of self.now.live attempt }
    {
        match self.live {
            Some(live) if live.attempt == attempt => Some(live.machine.state()),
            _ => None,
        }
    }

    /// Takes an event. What does not fit is ignored, and changes nothing. A spent task ignores
    /// every event.
    pub fn take(&mut self, e: TaskEvent) -> TaskTook
        requires { HasRoom self.old }
        ensures after { self.new ≡ task_after self.old e }
        ensures took { result ≡ task_took self.old e }
    {
        if self.spent {
            return TaskTook::Ignored;
        }
        match e {
            TaskEvent::Queue => self.queue(),
            TaskEvent::Place(attempt) => self.advance(attempt, AttemptEvent::Place),
            TaskEvent::Send(attempt) => self.advance(attempt, AttemptEvent::Send),
            TaskEvent::Succeed(attempt) => self.succeed(attempt),
            TaskEvent::Fail(attempt) => self.fail(attempt),
            TaskEvent::Kill(attempt) => self.kill(attempt),
            TaskEvent::Lose(attempt) => self.lose(attempt),
        }
    }

    // Where the event moves the live attempt, if it has this name.
    fn moved(&self, attempt: AttemptId, event: AttemptEvent) -> Option<AttemptMachine>
        ensures { result ≡ moved_live self.now.live attempt event }
    {
        let mut machine = match self.live {
            Some(live) if live.attempt == attempt => live.machine,
            _ => return None,
        };
        match machine.take(event) {
            AttemptTook::Moved => Some(machine),
            AttemptTook::Ignored => None,
        }
    }

    fn has_won(&self, attempt: AttemptId) -> bool
        ensures { result ≡ is_winner self.now.winner attempt }
    {
        match self.winner {
            Some(winner) => winner == attempt,
            None => false,
        }
    }

    fn queue(&mut self) -> TaskTook
        requires room { HasRoom self.old }
        requires going { self.old.spent ≡ false }
        ensures after { self.new ≡ after_event self.old TaskEvent.Queue }
        ensures took { result ≡ took_event self.old TaskEvent.Queue }
    {
        if self.live.is_some() || self.winner.is_some() {
            TaskTook::Ignored
        } else {
            self.queue_again()
        }
    }

    fn advance(&mut self, attempt: AttemptId, event: AttemptEvent) -> TaskTook
        ensures after { self.new ≡ advanced self.old attempt (moved_live self.old.live attempt event) }
        ensures took { result ≡ moved_or_ignored (moved_live self.old.live attempt event) }
    {
        match self.moved(attempt, event) {
            Some(machine) => {
                self.live = Some(Live { attempt, machine });
                TaskTook::Moved
            }
            None => TaskTook::Ignored,
        }
    }

    fn succeed(&mut self, attempt: AttemptId) -> TaskTook
        ensures after { self.new ≡ after_event self.old (TaskEvent.Succeed attempt) }
        ensures took { result ≡ took_event self.old (TaskEvent.Succeed attempt) }
    {
        match self.moved(attempt, AttemptEvent::Succeed) {
            Some(_) => {
                self.live = None;
                self.winner = Some(attempt);
                TaskTook::Moved
            }
            None => TaskTook::Ignored,
        }
    }

    fn fail(&mut self, attempt: AttemptId) -> TaskTook
        requires room { HasRoom self.old }
        requires going { self.old.spent ≡ false }
        ensures after { self.new ≡ after_event self.old (TaskEvent.Fail attempt) }
        ensures took { result ≡ took_event self.old (TaskEvent.Fail attempt) }
    {
        match self.moved(attempt, AttemptEvent::Fail) {
            Some(_) => self.count_failure(),
            None => TaskTook::Ignored,
        }
    }

    fn kill(&mut self, attempt: AttemptId) -> TaskTook
        requires { HasRoom self.old }
        ensures after { self.new ≡ after_event self.old (TaskEvent.Kill attempt) }
        ensures took { result ≡ took_event self.old (TaskEvent.Kill attempt) }
    {
        match self.moved(attempt, AttemptEvent::Kill) {
            Some(_) => self.queue_again(),
            None => TaskTook::Ignored,
        }
    }

    fn lose(&mut self, attempt: AttemptId) -> TaskTook
        requires { HasRoom self.old }
        ensures after { self.new ≡ after_event self.old (TaskEvent.Lose attempt) }
        ensures took { result ≡ took_event self.old (TaskEvent.Lose attempt) }
    {
        if self.has_won(attempt) {
            self.queue_again()
        } else {
            TaskTook::Ignored
        }
    }

    // One failure more. It spends the task where it brings the count to the limit.
    fn count_failure(&mut self) -> TaskTook
        requires room { HasRoom self.old }
        requires going { self.old.spent ≡ false }
        ensures after { self.new ≡ after_failure self.old }
        ensures took { result ≡ took_failure self.old }
    {
        self.failures += 1;
        if self.failures < self.max_failed {
            return self.queue_again();
        }
        self.live = None;
        self.spent = true;
        TaskTook::Spent
    }

    // Queues the next attempt, in place of any other.
    fn queue_again(&mut self) -> TaskTook
        requires { HasRoom self.old }
        ensures after { self.new ≡ queued_again self.old }
        ensures took { result ≡ TaskTook.Again (next_of self.old) }
    {
        let attempt = self.next();
        self.live = Some(Live {
            attempt,
            machine: AttemptMachine::new(),
        });
        self.winner = None;
        self.queued += 1;
        TaskTook::Again(attempt)
    }
}
