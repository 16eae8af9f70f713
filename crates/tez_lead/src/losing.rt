//! A node is lost.
ghost use Rattle.std.specs.Prelude.{◌≡◌, ℕ, ◌+◌, ◌<◌, ◌^◌, length, slice_get, IfSome};
ghost use Rattle.std.specs.List.{fold};
ghost use Rattle.tez_events.specs.declared.CoreEvent.{CoreEvent};
ghost use Rattle.tez_pool.specs.Table.{held_on};
ghost use Rattle.tez_master_model.specs.Read.{lost_in};
ghost use Rattle.tez_master_model.specs.Settled.{settled, killed, withdrawn};
ghost use Rattle.tez_lead.specs.Losing.{killed_at, withdrawn_at, tasks_in, emptied, RoomsBelow, HasRooms};

use crate::parts::Lead;
use tez_ids::{TaskId, VertexId};

impl Lead {
    /// A node is lost: who holds one of its places is killed, and the winners whose pieces lay there
    /// are withdrawn, unless the commit has begun. Then its places are free with new containers.
    /// Takes no memory, and time in the tasks.
    pub fn lose_node(&mut self, slot: u16)
        requires slot { slot < length self.old.pool.lives }
        requires life { IfSome (slice_get self.old.pool.lives slot) (λ life. life + 1 < 2 ^ 64) }
        requires containers { self.old.pool.next < 2 ^ 127 }
        requires rooms { HasRooms self.old }
        ensures { self.new ≡ settled self.old (CoreEvent.LoseNode slot) }
    {
        self.empty_node(slot);
        self.drop_node(slot);
    }

    fn empty_node(&mut self, slot: u16)
        requires rooms { HasRooms self.old }
        ensures { self.new ≡ emptied self.old slot }
    {
        if self.core.is_committing() {
            return;
        }
        self.kill_on(slot);
        self.withdraw_on(slot);
    }

    // Who holds a place of the node is killed, by place.
    fn kill_on(&mut self, slot: u16)
        requires rooms { HasRooms self.old }
        ensures after { self.new ≡ fold killed self.old (held_on self.old.pool slot) }
        ensures rooms { RoomsBelow (2 ^ 63 + 2 ^ 61) self.new }
    {
        let per_node = self.core.per_node();
        let first = slot as u32 * per_node as u32;
        for i in 0..per_node {
            self.kill_at(first + i as u32);
        }
    }

    fn kill_at(&mut self, place: u32)
        requires rooms { RoomsBelow (2 ^ 63 + 2 ^ 62) self.old }
        ensures { self.new ≡ killed_at self.old place }
    {
        match self.core.holder(place) {
            Some(a) => self.kill(a),
            None => {}
        }
    }

    // The winners whose pieces lie on the node are withdrawn, by task.
    fn withdraw_on(&mut self, slot: u16)
        requires rooms { RoomsBelow (2 ^ 63 + 2 ^ 61) self.old }
        ensures { self.new ≡ fold withdrawn self.old (lost_in self.old slot) }
    {
        for v in 0..self.core.vertices() {
            self.withdraw_from(slot, VertexId(v));
        }
    }

    fn withdraw_from(&mut self, slot: u16, v: VertexId)
        requires rooms { RoomsBelow (2 ^ 63 + 2 ^ 61 + 2 ^ 40) self.old }
        ensures after { self.new ≡ fold (withdrawn_at slot) self.old (tasks_in self.old v.0) }
        ensures rooms { (b : ℕ) → RoomsBelow b self.old → RoomsBelow (b + 2 ^ 32) self.new }
    {
        for index in 0..self.core.tasks_of(v) {
            self.withdraw_at(slot, TaskId { vertex: v, index });
        }
    }

    fn withdraw_at(&mut self, slot: u16, t: TaskId)
        requires rooms { RoomsBelow (2 ^ 63 + 2 ^ 62) self.old }
        ensures { self.new ≡ withdrawn_at slot self.old t }
    {
        match self.core.lost_at(slot, t) {
            Some(w) => self.withdraw(w),
            None => {}
        }
    }
}
