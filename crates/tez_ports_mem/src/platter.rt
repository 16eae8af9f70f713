//! The bytes of a disk in memory.
ghost use Rattle.std.specs.Prelude.{◌≡◌, ◌≤◌, ◌<◌, ◌+◌, ◌-◌, ◌^◌, length, take, drop, OnOk, OnErr};
ghost use Rattle.std.specs.Vec.{vec_len, vec_capacity};
ghost use Rattle.tez_ports.specs.Image.{IsImage, IsSound, writes, settled, syncs, greatest_end};
ghost use Rattle.tez_ports_mem.specs.Kept.{Kept, IsKept, filled, picked, stable_of};

use crate::picker::Picker;
use crate::room::{fill_part, overwrite_in_room, push_front_in_room, save_in_room};
use std::alloc::{AllocError, Global};
use std::marker::Model;

/// A content below this many bytes.
pub(crate) const LIMIT: u64 = 1 << 62;

/// What a read gives, and beside it what a cut of the power may bring back. A write saves the stable
/// bytes that it covers, so a sync only forgets them.
#[derive(Drop)]
pub(crate) struct Platter {
    content: Vec<u8>,
    /// So many bytes at the front of the content are stable and never pending.
    shared: usize,
    /// The stable bytes behind those.
    tail: Vec<u8>,
    /// Starts and lengths, the last first.
    pending: Vec<(u64, u64)>,
    spare: u64,
}

impl Model for Platter {
    ghost use Rattle.std.specs.Prelude.{◌+◌, ◌≤◌, ◌<◌};
    ghost use Rattle.std.specs.Vec.{vec_len, vec_capacity};
    ghost use Rattle.tez_ports_mem.specs.Kept.{Kept, IsKept, HasRoom, stable_of};

    ghost Value = { Kept };

    ghost view = { λ p. record {
      disk = record {
        stable = stable_of p.shared p.tail.items p.content.items;
        pending = p.pending.items;
        read = p.content.items;
      };
      spare = p.spare;
    } };

    ghost invariant = { λ p.
        IsKept p.shared p.tail.items p.pending.items p.content.items
        × HasRoom p.spare (vec_len p.content) (vec_len p.pending)
        (vec_capacity p.content) (vec_capacity p.tail) (vec_capacity p.pending) };
}

impl Platter {
    pub(crate) fn new(content: Vec<u8>, alloc: Global) -> Self
        requires { vec_len content < 2 ^ 62 }
        ensures value { result ≡ record { disk = settled content.items; spare = 0 } }
        ensures sound { IsSound result.disk }
    {
        Platter {
            shared: content.len(),
            content,
            tail: Vec::new(alloc),
            pending: Vec::new(alloc),
            spare: 0,
        }
    }

    pub(crate) fn content(&self) -> &[u8]
        ensures { result.now ≡ self.now.disk.read }
    {
        self.content.as_slice()
    }

    pub(crate) fn read(&self, start: u64, into: &mut [u8])
        requires { start + length into.old ≤ length self.now.disk.read }
        ensures { into.new ≡ take (length into.old) (drop start self.now.disk.read) }
    {
        let start = start as usize;
        into.copy_from_slice(&self.content[start..start + into.len()]);
    }

    pub(crate) fn reserve(&mut self, units: u64) -> Result<(), AllocError>
        ensures disk { self.new.disk ≡ self.old.disk }
        ensures room { OnOk result (units ≤ self.new.spare) }
        ensures later { self.old.spare ≤ self.new.spare }
    {
        if units > self.spare {
            let more = units as usize;
            self.content.reserve(more)?;
            self.tail.reserve(self.content.len() + more)?;
            self.pending.reserve(more)?;
            self.spare = units;
        }
        Ok(())
    }

    /// Takes no memory. The time grows with what is pending.
    pub(crate) fn write(&mut self, start: u64, bytes: &[u8])
        requires start { start ≤ length self.old.disk.read }
        requires room { length bytes.now + 1 ≤ self.old.spare }
        requires limit { start + length bytes.now < 2 ^ 62 }
        ensures sound { IsSound self.new.disk }
        ensures value { self.new ≡ record {
          disk = writes start bytes.now self.old.disk;
          spare = self.old.spare - (length bytes.now + 1);
        } }
    {
        let first = start as usize;
        let len = bytes.len() as u64;
        save_in_room(&self.content, first, self.shared, &mut self.tail);
        self.shared = self.shared.min(first);
        overwrite_in_room(&mut self.content, first, bytes);
        push_front_in_room(&mut self.pending, (start, len));
        self.spare -= len + 1;
    }

    pub(crate) fn sync(&mut self)
        ensures sound { IsSound self.new.disk }
        ensures value { self.new ≡ record { disk = syncs self.old.disk; spare = self.old.spare } }
    {
        self.pending.clear();
        self.tail.clear();
        self.shared = self.content.len();
    }

    /// Takes no memory. The time grows with what is pending.
    pub(crate) fn cut(&mut self, pick: Picker)
        ensures after { self.new ≡ record { disk = settled (picked pick self.old.disk); spare = self.old.spare } }
        ensures sound { IsSound self.new.disk }
        ensures image { IsImage self.old.disk.stable self.old.disk.pending (picked pick self.old.disk) }
    {
        pick_image(
            pick,
            &mut self.content,
            self.shared,
            &self.tail,
            &self.pending,
        );
        self.pending.clear();
        self.tail.clear();
        self.shared = self.content.len();
    }
}

/// Leaves the image of a picker as the content.
fn pick_image(
    pick: Picker,
    content: &mut Vec<u8>,
    shared: usize,
    tail: &[u8],
    pending: &[(u64, u64)],
)
    requires { IsKept shared tail.now pending.now content.old.items }
    ensures items { content.new.items ≡ picked pick (record {
      stable = stable_of shared tail.now content.old.items;
      pending = pending.now;
      read = content.old.items;
    }) }
    ensures capacity { vec_capacity content.old ≤ vec_capacity content.new }
{
    match pick {
        Picker::Keep => {}
        Picker::Drop => {
            content.truncate(shared);
            let _ = content.extend_from_slice(tail);
        }
        Picker::Fill(byte) => fill_ranges(content, pending, byte),
    }
}

/// Puts the byte in place of all those in the ranges.
fn fill_ranges(content: &mut Vec<u8>, ranges: &[(u64, u64)], byte: u8)
    requires { greatest_end ranges.now ≤ vec_len content.old }
    ensures items { content.new.items ≡ filled byte ranges.now content.old.items }
    ensures len { vec_len content.new ≡ vec_len content.old }
    ensures capacity { vec_capacity content.old ≤ vec_capacity content.new }
{
    for range in ranges {
        fill_part(content, range.0 as usize, range.1 as usize, byte);
    }
}
