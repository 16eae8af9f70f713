ghost use Rattle.std.specs.Prelude.{◌≡◌, None, unwrap_or, slice_get, slice_set, replicate, IfOk};
ghost use Rattle.tez_router.specs.Table.{winner_at};

use std::alloc::{AllocError, Global};
use std::marker::Model;
use tez_ids::{AttemptId, TaskId};

/// The winners of a vertex's tasks.
#[derive(Drop)]
pub struct WinnerRow {
    winners: Vec<Option<AttemptId>>,
}

impl Model for WinnerRow {
    ghost use Rattle.std.specs.Prelude.{List, Option};
    ghost use Rattle.tez_ids.specs.declared.AttemptId.{AttemptId};

    ghost Value = { List (Option AttemptId) };

    ghost view = { λ r. r.winners.items };
}

impl WinnerRow {
    pub fn new(alloc: Global, tasks: u32) -> Result<Self, AllocError>
        ensures { IfOk result (λ row. row ≡ replicate tasks None) }
    {
        Ok(WinnerRow {
            winners: Vec::from_elem(alloc, None, tasks as usize)?,
        })
    }

    pub fn get(&self, index: u32) -> Option<AttemptId>
        ensures { result ≡ unwrap_or (slice_get self.now index) None }
    {
        match self.winners.get(index as usize) {
            Some(winner) => *winner,
            None => None,
        }
    }

    pub fn set(&mut self, index: u32, winner: Option<AttemptId>)
        ensures { self.new ≡ slice_set self.old index winner }
    {
        let index = index as usize;
        if index < self.winners.len() {
            self.winners[index] = winner;
        }
    }
}

/// The winner of a task. None where there is no such task.
pub fn winner_at(rows: &[WinnerRow], task: TaskId) -> Option<AttemptId>
    ensures { result ≡ winner_at rows.now task.vertex.0 task.index }
{
    match rows.get(task.vertex.0 as usize) {
        Some(row) => row.get(task.index),
        None => None,
    }
}
