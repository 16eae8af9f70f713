// Which tasks of a vertex are in the queue.
ghost use Rattle.std.specs.Prelude.{◌≡◌, ◌<◌, ◌≤◌, ◌^◌, false, length, map, replicate, slice_set, IfOk};
ghost use Rattle.tez_lists.specs.Tables.{set_in};
ghost use Rattle.tez_plan.specs.declared.parts.VertexSpec.{VertexSpec};
ghost use Rattle.tez_queue.specs.Queue.{flag, row_of};

use std::alloc::{AllocError, Global};
use std::marker::Model;
use tez_ids::TaskId;
use tez_plan::VertexSpec;

/// A truth value for each task of a vertex, of which contracts see the list.
#[derive(Drop)]
pub struct QueueRow {
    flags: Vec<bool>,
}

impl Model for QueueRow {
    ghost use Rattle.std.specs.Prelude.{Bool, List, ◌<◌, ◌^◌, length};

    ghost Value = { List Bool };

    ghost view = { λ r. r.flags.items };

    ghost invariant = { λ r. length r.flags.items < 2 ^ 32 };
}

impl QueueRow {
    pub fn new(alloc: Global, tasks: u32) -> Result<Self, AllocError>
        ensures { IfOk result (λ row. row ≡ replicate tasks false) }
    {
        Ok(QueueRow {
            flags: vec![in alloc; false; tasks as usize]?,
        })
    }

    pub fn len(&self) -> u32
        ensures { result ≡ length self.now }
    {
        self.flags.len() as u32
    }

    pub fn get(&self, index: u32) -> bool
        ensures { result ≡ flag self.now index }
    {
        match self.flags.get(index as usize) {
            Some(flag) => *flag,
            None => false,
        }
    }

    pub fn set(&mut self, index: u32, present: bool)
        ensures { self.new ≡ slice_set self.old index present }
    {
        let index = index as usize;
        if index < self.flags.len() {
            self.flags[index] = present;
        }
    }
}

/// The rows of these vertices, in which no task is.
pub fn empty_rows(alloc: Global, vertices: &[VertexSpec]) -> Result<Vec<QueueRow>, AllocError>
    ensures { IfOk result (λ rows. rows.items ≡ map (λ (s : VertexSpec). replicate s.tasks false) vertices.now) }
{
    let mut rows = Vec::with_capacity(alloc, vertices.len())?;
    for vertex in vertices {
        rows.push(QueueRow::new(alloc, vertex.tasks)?)?;
    }
    Ok(rows)
}

/// How many tasks a vertex has. 0 where there is no such vertex.
pub fn count_of(rows: &[QueueRow], v: u16) -> u32
    ensures { result ≡ length (row_of rows.now v) }
{
    match rows.get(v as usize) {
        Some(row) => row.len(),
        None => 0,
    }
}

/// Writes a truth value at a task. Changes nothing where there is no such task.
pub fn set_in(rows: &mut [QueueRow], t: TaskId, present: bool)
    ensures { rows.new ≡ set_in rows.old t.vertex.0 t.index present }
{
    let v = t.vertex.0 as usize;
    if v < rows.len() {
        rows[v].set(t.index, present);
    }
}
