// What the records tell of the tasks of a vertex.
ghost use Rattle.std.specs.Prelude.{◌≡◌, ◌++◌, IfOk, OnOk, map, take, is_some};
ghost use Rattle.std.specs.List.{flat_map, list_all};
ghost use Rattle.tez_lists.specs.Numbers.{numbers_from};
ghost use Rattle.tez_standing.specs.Table.{VertexState, change};
ghost use Rattle.tez_standing.specs.Progress.{new_row, new_vertex, has_won, is_done, row_with_winner, row_with_failure, with_setting, with_winner, with_failure, setting_of, winner_of, failures_of, winners_of, all_failures_of};

use crate::Setting;
use std::alloc::{AllocError, Global};
use std::marker::Model;
use tez_ids::{AttemptId, TaskId, VertexId};

/// A task, its winner so far and how often its attempts have failed.
#[derive(Clone, Copy)]
pub struct TaskRow {
    pub task: TaskId,
    pub winner: Option<AttemptId>,
    pub failures: u64,
}

/// A vertex: its setting, and its tasks in order.
#[derive(Drop)]
pub struct VertexRows {
    vertex: VertexId,
    setting: Option<Setting>,
    tasks: Vec<TaskRow>,
}

impl Model for VertexRows {
    ghost use Rattle.tez_standing.specs.Table.{VertexState};

    ghost Value = { VertexState };

    ghost view = { λ x. record { vertex = x.vertex; setting = x.setting; tasks = x.tasks.items } };
}

impl VertexRows {
    pub fn new(alloc: Global, vertex: VertexId, tasks: u32) -> Result<Self, AllocError>
        ensures { IfOk result (λ x. x ≡ new_vertex vertex.0 tasks) }
    {
        Ok(VertexRows {
            vertex,
            setting: None,
            tasks: new_rows(alloc, vertex, tasks)?,
        })
    }

    pub fn setting(&self) -> Option<Setting>
        ensures { result ≡ self.now.setting }
    {
        self.setting
    }

    /// Whether the number of its tasks is fixed and each of them has a winner.
    pub fn is_done(&self) -> bool
        ensures { result ≡ is_done self.now }
    {
        match self.setting {
            Some(setting) => have_won(self.tasks.as_slice(), setting.tasks),
            None => false,
        }
    }

    pub fn configure(&mut self, setting: Setting)
        ensures { self.new ≡ with_setting setting self.old }
    {
        self.setting = Some(setting);
    }

    pub fn succeed(&mut self, attempt: AttemptId)
        ensures { self.new ≡ with_winner attempt self.old }
    {
        set_winner(self.tasks.as_mut_slice(), attempt);
    }

    pub fn fail(&mut self, attempt: AttemptId)
        ensures { self.new ≡ with_failure attempt self.old }
    {
        add_failure(self.tasks.as_mut_slice(), attempt.task);
    }

    /// Adds the setting to a list, if there is one.
    pub fn list_setting(&self, to: &mut Vec<(VertexId, u32, u32)>) -> Result<(), AllocError>
        ensures { OnOk result (to.new.items ≡ to.old.items ++ setting_of self.now) }
    {
        if let Some(setting) = self.setting {
            to.push((self.vertex, setting.tasks, setting.base))?;
        }
        Ok(())
    }

    pub fn list_winners(&self, to: &mut Vec<AttemptId>) -> Result<(), AllocError>
        ensures { OnOk result (to.new.items ≡ to.old.items ++ winners_of self.now) }
    {
        list_winners(self.tasks.as_slice(), to)
    }

    pub fn list_failures(&self, to: &mut Vec<(TaskId, u64)>) -> Result<(), AllocError>
        ensures { OnOk result (to.new.items ≡ to.old.items ++ all_failures_of self.now) }
    {
        list_failures(self.tasks.as_slice(), to)
    }
}

// Tasks of which nothing is known.
fn new_rows(alloc: Global, vertex: VertexId, count: u32) -> Result<Vec<TaskRow>, AllocError>
    ensures { IfOk result (λ rows. rows.items ≡ map (new_row vertex.0) (numbers_from 0 count)) }
{
    let mut rows = Vec::with_capacity(alloc, count as usize)?;
    for index in 0..count {
        rows.push(TaskRow {
            task: TaskId { vertex, index },
            winner: None,
            failures: 0,
        })?;
    }
    Ok(rows)
}

fn have_won(rows: &[TaskRow], count: u32) -> bool
    ensures { result ≡ list_all has_won (take count rows.now) }
{
    let count = count as usize;
    if count <= rows.len() {
        all_won(&rows[..count])
    } else {
        all_won(rows)
    }
}

fn all_won(rows: &[TaskRow]) -> bool
    ensures { result ≡ list_all has_won rows.now }
{
    rows.iter().all(|row| row.winner.is_some())
}

fn set_winner(rows: &mut [TaskRow], attempt: AttemptId)
    ensures { rows.new ≡ change attempt.task.index (row_with_winner attempt) rows.old }
{
    let index = attempt.task.index as usize;
    if index < rows.len() {
        rows[index].winner = Some(attempt);
    }
}

fn add_failure(rows: &mut [TaskRow], task: TaskId)
    ensures { rows.new ≡ change task.index row_with_failure rows.old }
{
    let index = task.index as usize;
    if index < rows.len() {
        rows[index].failures = rows[index].failures.saturating_add(1);
    }
}

fn list_winners(rows: &[TaskRow], to: &mut Vec<AttemptId>) -> Result<(), AllocError>
    ensures { OnOk result (to.new.items ≡ to.old.items ++ flat_map winner_of rows.now) }
{
    for row in rows {
        list_winner(row, to)?;
    }
    Ok(())
}

fn list_winner(row: &TaskRow, to: &mut Vec<AttemptId>) -> Result<(), AllocError>
    ensures { OnOk result (to.new.items ≡ to.old.items ++ winner_of row.now) }
{
    if let Some(winner) = row.winner {
        to.push(winner)?;
    }
    Ok(())
}

fn list_failures(rows: &[TaskRow], to: &mut Vec<(TaskId, u64)>) -> Result<(), AllocError>
    ensures { OnOk result (to.new.items ≡ to.old.items ++ flat_map failures_of rows.now) }
{
    for row in rows {
        list_failure(row, to)?;
    }
    Ok(())
}

fn list_failure(row: &TaskRow, to: &mut Vec<(TaskId, u64)>) -> Result<(), AllocError>
    ensures { OnOk result (to.new.items ≡ to.old.items ++ failures_of row.now) }
{
    if row.failures != 0 {
        to.push((row.task, row.failures))?;
    }
    Ok(())
}
