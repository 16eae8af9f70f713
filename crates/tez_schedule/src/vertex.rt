ghost use Rattle.std.specs.Prelude.{◌≡◌, ◌≤◌, ◌<◌, true, None, Some, nat_lt, length, slice_set, IfOk};
ghost use Rattle.tez_plan.specs.Ranges.{most_tasks};
ghost use Rattle.tez_lists.specs.Tables.{each_from};
ghost use Rattle.tez_schedule.specs.Managers.{rule_of};
ghost use Rattle.tez_schedule.specs.Planned.{new_vertex};
ghost use Rattle.tez_schedule.specs.Kept.{Fits, HasInput};
ghost use Rattle.tez_schedule.specs.Table.{how_many, tasks_in, tasks_by, is_configured, is_done, is_open, open_by, has_more, next_task, may_queue_in, progress_in, can_have, configured_with, scheduled_with, won_with, fed_with};

use crate::flags::Flags;
use crate::input::Input;
use crate::manager::AnyManager;
use std::alloc::{AllocError, Global};
use std::marker::Model;
use tez_ids::VertexId;
use tez_tournament::Tournament;
use tez_vman::Config;

/// What is known of a vertex, with the tasks that are open in a set that tells the first.
#[derive(Drop)]
pub(crate) struct VertexSchedule {
    manager: AnyManager,
    feeder: Option<VertexId>,
    inputs: Vec<Input>,
    planned: u32,
    config: Option<Config>,
    scheduled: Flags,
    fed: Flags,
    won: Flags,
    open_tasks: Tournament,
}

impl Model for VertexSchedule {
    ghost use Rattle.tez_schedule.specs.State.{VertexState};
    ghost use Rattle.tez_schedule.specs.Managers.{rule_of};
    ghost use Rattle.tez_schedule.specs.Kept.{IsVertex};

    ghost Value = { VertexState };

    ghost view = { λ x. record { rule = rule_of x.manager; feeder = x.feeder; inputs = x.inputs.items; planned = x.planned; config = x.config; scheduled = x.scheduled; fed = x.fed; won = x.won } };

    ghost invariant = { λ x. IsVertex (record { rule = rule_of x.manager; feeder = x.feeder; inputs = x.inputs.items; planned = x.planned; config = x.config; scheduled = x.scheduled; fed = x.fed; won = x.won }) x.open_tasks };
}

impl VertexSchedule {
    /// A vertex that is not configured.
    pub fn new(
        alloc: Global,
        manager: AnyManager,
        feeder: Option<VertexId>,
        inputs: Vec<Input>,
        planned: u32,
    ) -> Result<Self, AllocError>
        requires some { 1 ≤ planned }
        requires few { planned ≤ most_tasks }
        requires few_inputs { length inputs.items ≤ 256 }
        requires input { HasInput (rule_of manager) inputs.items }
        ensures { IfOk result (λ x. x ≡ new_vertex (rule_of manager) feeder inputs.items planned) }
    {
        Ok(VertexSchedule {
            manager,
            feeder,
            inputs,
            planned,
            config: None,
            scheduled: Flags::new(alloc, planned, false)?,
            fed: Flags::new(alloc, planned, feeder.is_none())?,
            won: Flags::new(alloc, planned, false)?,
            open_tasks: Tournament::new(alloc, planned)?,
        })
    }

    /// How it is managed.
    pub fn manager(&self) -> &AnyManager
        ensures rule { rule_of result.now ≡ self.now.rule }
        ensures input { HasInput self.now.rule self.now.inputs }
    {
        &self.manager
    }

    /// The edges over which it is fed.
    pub fn inputs(&self) -> &[Input]
        ensures value { result.now ≡ self.now.inputs }
        ensures few { length result.now ≤ 256 }
    {
        self.inputs.as_slice()
    }

    /// Its configuration.
    pub fn config(&self) -> Option<Config>
        ensures { result ≡ self.now.config }
    {
        self.config
    }

    pub fn is_configured(&self) -> bool
        ensures { result ≡ is_configured self.now }
    {
        self.config.is_some()
    }

    /// Its tasks: those configured, and before that those of the plan.
    pub fn tasks(&self) -> u32
        ensures count { result ≡ tasks_in self.now }
        ensures some { 1 ≤ result }
        ensures planned { result ≤ self.now.planned }
        ensures few { result ≤ most_tasks }
    {
        match self.config {
            Some(config) => config.tasks,
            None => self.planned,
        }
    }

    /// How many of its tasks have a winner.
    pub fn winners(&self) -> u32
        ensures count { result ≡ how_many self.now.won }
        ensures inside { result ≤ tasks_in self.now }
    {
        let _ = &self.config;
        self.won.count()
    }

    /// Whether each of its tasks has a winner.
    pub fn is_done(&self) -> bool
        ensures { result ≡ is_done self.now }
    {
        self.is_configured() && self.winners() == self.tasks()
    }

    /// The tasks with a winner, and all tasks. Both are 0 before it is configured.
    pub fn progress(&self) -> (u32, u32)
        ensures { result ≡ progress_in self.now }
    {
        if self.is_configured() {
            (self.winners(), self.tasks())
        } else {
            (0, 0)
        }
    }

    /// The first task that may be queued, where `most` tasks are to be scheduled. Takes constant
    /// time.
    pub fn next_task(&self, most: u32) -> Option<u32>
        ensures { result ≡ next_task most self.now }
    {
        if self.has_more(most) {
            self.open_tasks.least()
        } else {
            None
        }
    }

    fn has_more(&self, most: u32) -> bool
        ensures { result ≡ has_more most self.now }
    {
        self.feeder.is_some() || self.scheduled.count() < most
    }

    /// Whether a task may be queued, where `most` tasks are to be scheduled.
    pub fn may_queue(&self, most: u32, task: u32) -> bool
        ensures { result ≡ may_queue_in most self.now task }
    {
        if self.feeder.is_some() {
            is_open(self.config, &self.fed, &self.scheduled, task)
        } else {
            self.next_task(most) == Some(task)
        }
    }

    /// Whether it may get this configuration.
    pub fn can_have(&self, config: Config) -> bool
        ensures { result ≡ can_have config self.now }
    {
        self.config.is_none() && 1 <= config.tasks && config.tasks <= self.planned
    }

    /// Whether it is configured and has this task.
    pub fn has_task(&self, task: u32) -> bool
        ensures { result ≡ nat_lt task (tasks_by self.now.config) }
    {
        match self.config {
            Some(config) => task < config.tasks,
            None => false,
        }
    }

    /// Fixes its tasks. Takes time in the planned tasks.
    pub fn configure(&mut self, config: Config)
        requires open { self.old.config ≡ None }
        requires fits { Fits self.old.planned config }
        ensures { self.new ≡ configured_with config self.old }
    {
        self.config = Some(config);
        reopen(
            &mut self.open_tasks,
            self.config,
            &self.fed,
            &self.scheduled,
            self.planned,
        );
    }

    /// A task was queued, or is kept. Changes nothing where there is no such task.
    pub fn schedule(&mut self, task: u32)
        ensures { self.new ≡ scheduled_with task self.old }
    {
        if task < self.planned {
            self.scheduled.set(task, true);
            self.open_tasks.set(task, false);
        }
    }

    /// A task has a winner, or has none.
    pub fn set_winner(&mut self, task: u32, has: bool)
        requires { has ≡ true → task < tasks_by self.old.config }
        ensures { self.new ≡ won_with task has self.old }
    {
        self.won.set(task, has);
    }

    /// A task of another vertex has a winner, or has none, which matters to a vertex that is fed one
    /// to one by it.
    pub fn set_fed(&mut self, source: VertexId, task: u32, has: bool)
        ensures { self.new ≡ fed_with source.0 task has self.old }
    {
        if self.feeder == Some(source) && task < self.planned {
            self.fed.set(task, has);
            let opens = is_open(self.config, &self.fed, &self.scheduled, task);
            self.open_tasks.set(task, opens);
        }
    }
}

// Whether a task is open in a vertex with this configuration.
fn is_open(config: Option<Config>, fed: &Flags, scheduled: &Flags, task: u32) -> bool
    ensures { result ≡ open_by config fed.now scheduled.now task }
{
    match config {
        Some(config) => task < config.tasks && fed.get(task) && !scheduled.get(task),
        None => false,
    }
}

// Opens the tasks anew.
fn reopen(
    open_tasks: &mut Tournament,
    config: Option<Config>,
    fed: &Flags,
    scheduled: &Flags,
    planned: u32,
)
    requires { planned ≡ length open_tasks.old }
    ensures { open_tasks.new ≡ each_from 0 (λ i _. open_by config fed.now scheduled.now i) open_tasks.old }
{
    for task in 0..planned {
        open_tasks.set(task, is_open(config, fed, scheduled, task));
    }
}
