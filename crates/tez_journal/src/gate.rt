//! The last gate of a journal, apart from the disk on which the journal lies.
ghost use Rattle.std.specs.Prelude.{◌≡◌, ◌+◌, ◌<◌, ◌≤◌, ◌^◌, [], ◌∷◌, ◌++◌, ℕ, List, length, is_some, option_map, vec_capacity, IfOk, OnOk, OnErr, IsErrOf};
ghost use Rattle.tez_events.specs.declared.JournalRecord.{JournalRecord};
ghost use Rattle.tez_events.specs.Body.{IsBody};
ghost use Rattle.tez_ports.specs.Causes.{DeviceHasCause};
ghost use Rattle.tez_ports.specs.Content.{Told};
ghost use Rattle.tez_journal.specs.Text.{framed, IsGated, IsText};
ghost use Rattle.tez_journal.specs.Crash.{Leaves, IsEitherGated, IsLaid};
ghost use Rattle.tez_journal.specs.Gate.{room_at, HoldsAt, IsOpenAt, Survives, IsFull, Adds, AddsLast, AddsSynced, ReadsOneOf, LeavesOneOf};
ghost use Rattle.tez_journal.specs.Opening.{opens, IsSynced, IsNoText, KeepsTexts, KeepsImages, JournalHasCause};

use crate::fault::JournalFault;
use crate::opening::load;
use std::alloc::{AllocError, Global};
use tez_events::JournalRecord;
use tez_ports::{DeviceStop, JournalDisk};

/// The place of the last gate of a journal, in bytes from the start of its disk, and the block in which
/// an entry is put together. The disk is lent to each call, the same one to all of them, and nothing is
/// read from it after `open`. After an error of `append` or `append_synced` open the journal again.
#[derive(Drop)]
pub struct Gate {
    place: u64,
    block: Vec<u8>,
}

// The length, the body and a closed gate. Takes no memory.
fn fill(block: &mut Vec<u8>, body: &[u8])
    requires short { length body.now < 2 ^ 32 }
    requires room { length body.now + 5 ≤ vec_capacity block.old }
    ensures items { block.new.items ≡ framed body.now ++ 0 ∷ [] }
    ensures capacity { vec_capacity block.old ≤ vec_capacity block.new }
{
    block.clear();
    let len = (body.len() as u32).to_le_bytes();
    if block.extend_from_slice(&len).is_err() {
        prove!(false);
    }
    if block.extend_from_slice(body).is_err() {
        prove!(false);
    }
    if block.push(0).is_err() {
        prove!(false);
    }
}

impl Gate {
    /// Opens the journal of a disk and gives its records. A content of one byte or none becomes a
    /// journal of no records. It calls `size` once; then it reads a content of two bytes or more by one
    /// `read_at` into memory, and for a shorter one writes a gate and syncs. The time grows with the
    /// content.
    pub fn open<D: JournalDisk>(
        alloc: Global,
        disk: &mut D,
    ) -> Result<(Gate, Vec<JournalRecord>), JournalFault>
        ensures records { IfOk result (λ opened. Told (D.disk disk.old) (λ d. IsText d.read opened.1.items)) }
        ensures holds { IfOk result (λ opened. HoldsAt (D.disk disk.new) opened.0 opened.1.items) }
        ensures disk { OnOk result (D.disk disk.new ≡ option_map opens (D.disk disk.old)) }
        ensures survives { IfOk result (λ opened. Told (D.disk disk.old) IsSynced
            → Survives (D.disk disk.new) opened.0 opened.1.items opened.1.items) }
        ensures refused { IsErrOf result JournalFault.Refused → Told (D.disk disk.old) IsNoText }
        ensures err_same { OnErr result (Told (D.disk disk.old) (λ d. 1 < length d.read)
            → D.disk disk.new ≡ D.disk disk.old) }
        ensures err_read { OnErr result (KeepsTexts (D.disk disk.old) (D.disk disk.new)) }
        ensures err_images { OnErr result (KeepsImages (D.disk disk.old) (D.disk disk.new)) }
        ensures told { is_some (D.disk disk.new) ≡ is_some (D.disk disk.old) }
        ensures lent { D.lent disk.new ≡ D.lent disk.old }
        ensures cause { JournalHasCause (D.faults disk.old) (D.stops disk.old)
            (D.faults disk.new) (D.stops disk.new) result }
        ensures stays_faultless { D.is_faultless disk.old → D.is_faultless disk.new }
        ensures stays_sure { D.is_sure disk.old → D.is_sure disk.new }
        ensures faultless { D.is_faultless disk.old → IsErrOf result JournalFault.Failed → ⊥ }
        ensures never_stops { D.is_sure disk.old → IsErrOf result JournalFault.Stopped → ⊥ }
    {
        match load(alloc, disk) {
            Ok(text) => {
                let gate = Gate {
                    place: text.gate as u64,
                    block: Vec::new(alloc),
                };
                Ok((gate, text.records))
            }
            Err(fault) => Err(fault),
        }
    }

    /// Takes room for an append of a body of that many bytes, which is 8 units more. Other appends
    /// take their own from it.
    pub fn reserve<D: JournalDisk>(&mut self, disk: &mut D, body_len: u32) -> Result<(), AllocError>
        ensures room { OnOk result (body_len + 8 ≤ room_at (D.spare disk.new) self.new) }
        ensures later { room_at (D.spare disk.old) self.old ≤ room_at (D.spare disk.new) self.new }
        ensures same { D.disk disk.new ≡ D.disk disk.old }
        ensures sound { IsOpenAt (D.disk disk.old) self.old → IsOpenAt (D.disk disk.new) self.new }
        ensures holds { (rs : List JournalRecord) → HoldsAt (D.disk disk.old) self.old rs
            → HoldsAt (D.disk disk.new) self.new rs }
        ensures survives { (kept rs : List JournalRecord) → Survives (D.disk disk.old) self.old kept rs
            → Survives (D.disk disk.new) self.new kept rs }
        ensures lent { D.lent disk.new ≡ D.lent disk.old }
        ensures faults { D.faults disk.new ≡ D.faults disk.old }
        ensures stops { D.stops disk.new ≡ D.stops disk.old }
        ensures stays_faultless { D.is_faultless disk.old → D.is_faultless disk.new }
        ensures stays_sure { D.is_sure disk.old → D.is_sure disk.new }
    {
        let entry = body_len as usize + 5;
        self.block.clear();
        self.block.reserve(entry)?;
        disk.reserve(body_len as u64 + 8)
    }

    // Puts an entry and a closed gate behind the last gate, and syncs.
    fn lay<D: JournalDisk>(&mut self, disk: &mut D, body: &[u8]) -> Result<(), DeviceStop>
        requires record { IsBody body.now }
        requires sound { IsOpenAt (D.disk disk.old) self.old }
        requires room { length body.now + 8 ≤ room_at (D.spare disk.old) self.old }
        ensures laid { (rs : List JournalRecord) → HoldsAt (D.disk disk.old) self.old rs
            → OnOk result (Told (D.disk disk.new) (IsLaid rs body.now)) }
        ensures err { (rs : List JournalRecord) → HoldsAt (D.disk disk.old) self.old rs
            → OnErr result (Told (D.disk disk.new) (λ d. IsGated d.read rs)) }
        ensures err_images { (kept rs : List JournalRecord) → HoldsAt (D.disk disk.old) self.old rs
            → Survives (D.disk disk.old) self.old kept rs
            → OnErr result (Told (D.disk disk.new) (Leaves (IsEitherGated kept rs))) }
        ensures place { self.new.place ≡ self.old.place }
        ensures inside { OnOk result (self.old.place + length body.now + 6 < 2 ^ 62) }
        ensures spare { D.spare disk.old ≤ D.spare disk.new + length body.now + 6 }
        ensures block { vec_capacity self.old.block ≤ vec_capacity self.new.block }
        ensures told { is_some (D.disk disk.new) ≡ is_some (D.disk disk.old) }
        ensures lent { D.lent disk.new ≡ D.lent disk.old }
        ensures cause { DeviceHasCause (D.faults disk.old) (D.stops disk.old)
            (D.faults disk.new) (D.stops disk.new) result }
        ensures stays_faultless { D.is_faultless disk.old → D.is_faultless disk.new }
        ensures stays_sure { D.is_sure disk.old → D.is_sure disk.new }
        ensures faultless { D.is_faultless disk.old → IsErrOf result DeviceStop.Failed
            → 2 ^ 62 ≤ self.old.place + length body.now + 6 }
        ensures never_stops { D.is_sure disk.old → IsErrOf result DeviceStop.Stopped → ⊥ }
    {
        fill(&mut self.block, body);
        disk.write_at(self.place + 1, &self.block)?;
        disk.sync()
    }

    /// Adds a record behind those that are there, by its body. At Ok a read gives it, and all before
    /// it are synced; a cut of the power may lose this one alone, whole. Takes no memory. It calls
    /// `write_at`, `sync` and `write_at`.
    pub fn append<D: JournalDisk>(&mut self, disk: &mut D, body: &[u8]) -> Result<(), DeviceStop>
        requires record { IsBody body.now }
        requires sound { IsOpenAt (D.disk disk.old) self.old }
        requires room { length body.now + 8 ≤ room_at (D.spare disk.old) self.old }
        ensures sound { OnOk result (IsOpenAt (D.disk disk.new) self.new) }
        ensures holds { OnOk result (Adds body.now (D.disk disk.old) self.old (D.disk disk.new) self.new) }
        ensures survives { OnOk result (AddsLast body.now (D.disk disk.old) self.old (D.disk disk.new) self.new) }
        ensures err_read { OnErr result (ReadsOneOf body.now (D.disk disk.old) self.old (D.disk disk.new)) }
        ensures err_images { OnErr result (LeavesOneOf body.now (D.disk disk.old) self.old (D.disk disk.new)) }
        ensures room { room_at (D.spare disk.old) self.old ≤ room_at (D.spare disk.new) self.new + length body.now + 8 }
        ensures told { is_some (D.disk disk.new) ≡ is_some (D.disk disk.old) }
        ensures lent { D.lent disk.new ≡ D.lent disk.old }
        ensures cause { DeviceHasCause (D.faults disk.old) (D.stops disk.old)
            (D.faults disk.new) (D.stops disk.new) result }
        ensures stays_faultless { D.is_faultless disk.old → D.is_faultless disk.new }
        ensures stays_sure { D.is_sure disk.old → D.is_sure disk.new }
        ensures faultless { D.is_faultless disk.old → IsErrOf result DeviceStop.Failed
            → (rs : List JournalRecord) → HoldsAt (D.disk disk.old) self.old rs → IsFull rs body.now }
        ensures never_stops { D.is_sure disk.old → IsErrOf result DeviceStop.Stopped → ⊥ }
    {
        match self.lay(disk, body) {
            Ok(()) => {}
            Err(stop) => return Err(stop),
        }
        disk.write_at(self.place, &[1])?;
        self.place += body.len() as u64 + 5;
        Ok(())
    }

    /// Adds a record as `append` does, and syncs once more: at Ok no cut of the power loses it.
    /// Takes no memory.
    pub fn append_synced<D: JournalDisk>(
        &mut self,
        disk: &mut D,
        body: &[u8],
    ) -> Result<(), DeviceStop>
        requires record { IsBody body.now }
        requires sound { IsOpenAt (D.disk disk.old) self.old }
        requires room { length body.now + 8 ≤ room_at (D.spare disk.old) self.old }
        ensures sound { OnOk result (IsOpenAt (D.disk disk.new) self.new) }
        ensures holds { OnOk result (Adds body.now (D.disk disk.old) self.old (D.disk disk.new) self.new) }
        ensures synced { OnOk result (Told (D.disk disk.new) IsSynced) }
        ensures survives { OnOk result (AddsSynced body.now (D.disk disk.old) self.old (D.disk disk.new) self.new) }
        ensures err_read { OnErr result (ReadsOneOf body.now (D.disk disk.old) self.old (D.disk disk.new)) }
        ensures err_images { OnErr result (LeavesOneOf body.now (D.disk disk.old) self.old (D.disk disk.new)) }
        ensures room { room_at (D.spare disk.old) self.old ≤ room_at (D.spare disk.new) self.new + length body.now + 8 }
        ensures told { is_some (D.disk disk.new) ≡ is_some (D.disk disk.old) }
        ensures lent { D.lent disk.new ≡ D.lent disk.old }
        ensures cause { DeviceHasCause (D.faults disk.old) (D.stops disk.old)
            (D.faults disk.new) (D.stops disk.new) result }
        ensures stays_faultless { D.is_faultless disk.old → D.is_faultless disk.new }
        ensures stays_sure { D.is_sure disk.old → D.is_sure disk.new }
        ensures faultless { D.is_faultless disk.old → IsErrOf result DeviceStop.Failed
            → (rs : List JournalRecord) → HoldsAt (D.disk disk.old) self.old rs → IsFull rs body.now }
        ensures never_stops { D.is_sure disk.old → IsErrOf result DeviceStop.Stopped → ⊥ }
    {
        self.append(disk, body)?;
        disk.sync()
    }
}
