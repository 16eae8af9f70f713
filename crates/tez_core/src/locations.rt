//! Where the pieces of the tasks' winners lie.
ghost use Rattle.std.specs.Prelude.{◌≡◌, None, map, unwrap_or, slice_get, slice_set, replicate, IfOk};
ghost use Rattle.tez_lists.specs.Tables.{set_in};
ghost use Rattle.tez_master_model.specs.Settled.{on_no_slot};
ghost use Rattle.tez_core.specs.Parts.{location_at};

use std::alloc::{AllocError, Global};
use std::marker::Model;
use tez_ids::TaskId;

/// By task of a vertex, the node slot where the pieces of its winner lie, if they lie anywhere.
#[derive(Drop)]
pub(crate) struct Locations {
    slots: Vec<Option<u16>>,
}

impl Model for Locations {
    ghost use Rattle.std.specs.Prelude.{ℕ, List, Option};

    ghost Value = { List (Option ℕ) };

    ghost view = { λ r. r.slots.items };
}

impl Locations {
    /// Of so many tasks, whose pieces lie nowhere.
    pub fn new(alloc: Global, tasks: u32) -> Result<Self, AllocError>
        ensures { IfOk result (λ row. row ≡ replicate tasks None) }
    {
        Ok(Locations {
            slots: vec![in alloc; None; tasks as usize]?,
        })
    }

    pub fn get(&self, index: u32) -> Option<u16>
        ensures { result ≡ unwrap_or (slice_get self.now index) None }
    {
        match self.slots.get(index as usize) {
            Some(slot) => *slot,
            None => None,
        }
    }

    /// No pieces lie on this slot.
    pub fn drop_slot(&mut self, slot: u16)
        ensures { self.new ≡ map (on_no_slot slot) self.old }
    {
        drop_each(&mut self.slots, slot);
    }

    /// Changes nothing where there is no such task.
    pub fn set(&mut self, index: u32, slot: Option<u16>)
        ensures { self.new ≡ slice_set self.old index slot }
    {
        let index = index as usize;
        if index < self.slots.len() {
            self.slots[index] = slot;
        }
    }
}

/// Where the pieces of a task's winner lie.
pub(crate) fn location_at(locations: &[Locations], t: TaskId) -> Option<u16>
    ensures { result ≡ location_at locations.now t }
{
    match locations.get(t.vertex.0 as usize) {
        Some(row) => row.get(t.index),
        None => None,
    }
}

/// Sets where they lie.
pub(crate) fn set_location(locations: &mut [Locations], t: TaskId, slot: Option<u16>)
    ensures { locations.new ≡ set_in locations.old t.vertex.0 t.index slot }
{
    let v = t.vertex.0 as usize;
    if v < locations.len() {
        locations[v].set(t.index, slot);
    }
}

/// No pieces lie on this slot.
pub(crate) fn drop_slot(locations: &mut [Locations], slot: u16)
    ensures { locations.new ≡ map (map (on_no_slot slot)) locations.old }
{
    for v in 0..locations.len() {
        locations[v].drop_slot(slot);
    }
}

fn drop_each(slots: &mut [Option<u16>], slot: u16)
    ensures { slots.new ≡ map (on_no_slot slot) slots.old }
{
    for i in 0..slots.len() {
        slots[i] = on_no_slot(slot, slots[i]);
    }
}

fn on_no_slot(slot: u16, location: Option<u16>) -> Option<u16>
    ensures { result ≡ on_no_slot slot location }
{
    match location {
        Some(s) if s == slot => None,
        other => other,
    }
}
