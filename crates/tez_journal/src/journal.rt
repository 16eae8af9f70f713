//! A journal over a disk of its own.
ghost use Rattle.std.specs.Prelude.{◌≡◌, ◌+◌, ◌<◌, ◌≤◌, ℕ, List, length, is_some, option_map, IfOk, IfErr, OnOk, OnErr, IsErrOf};
ghost use Rattle.tez_events.specs.declared.JournalRecord.{JournalRecord};
ghost use Rattle.tez_events.specs.Body.{IsBody};
ghost use Rattle.tez_ports.specs.Causes.{DeviceHasCause};
ghost use Rattle.tez_ports.specs.Content.{Told};
ghost use Rattle.tez_journal.specs.Text.{IsText};
ghost use Rattle.tez_journal.specs.Gate.{HoldsAt, IsOpenAt, Survives, IsFull, Adds, AddsLast, AddsSynced, ReadsOneOf, LeavesOneOf};
ghost use Rattle.tez_journal.specs.Journal.{disk_of, gate_of, room};
ghost use Rattle.tez_journal.specs.Opening.{opens, IsSynced, IsNoText, KeepsTexts, KeepsImages, disk_after, answer, JournalHasCause};

use crate::fault::JournalFault;
use crate::gate::Gate;
use std::alloc::{AllocError, Global};
use tez_events::JournalRecord;
use tez_ports::{DeviceStop, JournalDisk};

/// A journal on a disk. It keeps the place of its last gate, and never reads again while it runs.
/// After an error of `append` or `append_synced`, take the disk back and open it again.
#[derive(Drop)]
pub struct Journal<D: JournalDisk> {
    disk: D,
    gate: Gate,
}

impl<D: JournalDisk> Journal<D> {
    /// Opens the journal of a disk and gives its records, as `Gate::open` does. An error hands the disk
    /// back.
    pub fn open(
        alloc: Global,
        mut disk: D,
    ) -> Result<(Journal<D>, Vec<JournalRecord>), (D, JournalFault)>
        ensures records { IfOk result (λ opened. Told (D.disk disk) (λ d. IsText d.read opened.1.items)) }
        ensures holds { IfOk result (λ opened.
            HoldsAt (D.disk (disk_of opened.0)) (gate_of opened.0) opened.1.items) }
        ensures disk { IfOk result (λ opened. D.disk (disk_of opened.0) ≡ option_map opens (D.disk disk)) }
        ensures survives { IfOk result (λ opened. Told (D.disk disk) IsSynced
            → Survives (D.disk (disk_of opened.0)) (gate_of opened.0) opened.1.items opened.1.items) }
        ensures refused { IfErr result (λ e. e.1 ≡ JournalFault.Refused → Told (D.disk disk) IsNoText) }
        ensures err_same { IfErr result (λ e. Told (D.disk disk) (λ d. 1 < length d.read)
            → D.disk e.0 ≡ D.disk disk) }
        ensures err_read { IfErr result (λ e. KeepsTexts (D.disk disk) (D.disk e.0)) }
        ensures err_images { IfErr result (λ e. KeepsImages (D.disk disk) (D.disk e.0)) }
        ensures told { is_some (D.disk (disk_after result)) ≡ is_some (D.disk disk) }
        ensures lent { D.lent (disk_after result) ≡ D.lent disk }
        ensures cause { JournalHasCause (D.faults disk) (D.stops disk)
            (D.faults (disk_after result)) (D.stops (disk_after result)) (answer result) }
        ensures stays_faultless { D.is_faultless disk → D.is_faultless (disk_after result) }
        ensures stays_sure { D.is_sure disk → D.is_sure (disk_after result) }
        ensures faultless { D.is_faultless disk → IsErrOf (answer result) JournalFault.Failed → ⊥ }
        ensures never_stops { D.is_sure disk → IsErrOf (answer result) JournalFault.Stopped → ⊥ }
    {
        match Gate::open(alloc, &mut disk) {
            Ok((gate, records)) => Ok((Journal { disk, gate }, records)),
            Err(fault) => Err((disk, fault)),
        }
    }

    /// Takes room for an append of a body of that many bytes, which is 8 units more. Other appends
    /// take their own from it.
    pub fn reserve(&mut self, body_len: u32) -> Result<(), AllocError>
        ensures room { OnOk result (body_len + 8 ≤ room D.spare self.new) }
        ensures later { room D.spare self.old ≤ room D.spare self.new }
        ensures same { D.disk (disk_of self.new) ≡ D.disk (disk_of self.old) }
        ensures sound { IsOpenAt (D.disk (disk_of self.old)) (gate_of self.old)
            → IsOpenAt (D.disk (disk_of self.new)) (gate_of self.new) }
        ensures holds { (rs : List JournalRecord) → HoldsAt (D.disk (disk_of self.old)) (gate_of self.old) rs
            → HoldsAt (D.disk (disk_of self.new)) (gate_of self.new) rs }
        ensures survives { (kept rs : List JournalRecord)
            → Survives (D.disk (disk_of self.old)) (gate_of self.old) kept rs
            → Survives (D.disk (disk_of self.new)) (gate_of self.new) kept rs }
        ensures lent { D.lent (disk_of self.new) ≡ D.lent (disk_of self.old) }
        ensures faults { D.faults (disk_of self.new) ≡ D.faults (disk_of self.old) }
        ensures stops { D.stops (disk_of self.new) ≡ D.stops (disk_of self.old) }
        ensures stays_faultless { D.is_faultless (disk_of self.old) → D.is_faultless (disk_of self.new) }
        ensures stays_sure { D.is_sure (disk_of self.old) → D.is_sure (disk_of self.new) }
    {
        self.gate.reserve(&mut self.disk, body_len)
    }

    /// Adds a record behind those that are there, by its body. At Ok a read gives it, and all before
    /// it are synced; a cut of the power may lose this one alone, whole. Takes no memory. It calls
    /// `write_at`, `sync` and `write_at`.
    pub fn append(&mut self, body: &[u8]) -> Result<(), DeviceStop>
        requires record { IsBody body.now }
        requires sound { IsOpenAt (D.disk (disk_of self.old)) (gate_of self.old) }
        requires room { length body.now + 8 ≤ room D.spare self.old }
        ensures sound { OnOk result (IsOpenAt (D.disk (disk_of self.new)) (gate_of self.new)) }
        ensures holds { OnOk result (Adds body.now (D.disk (disk_of self.old)) (gate_of self.old)
            (D.disk (disk_of self.new)) (gate_of self.new)) }
        ensures survives { OnOk result (AddsLast body.now (D.disk (disk_of self.old)) (gate_of self.old)
            (D.disk (disk_of self.new)) (gate_of self.new)) }
        ensures err_read { OnErr result (ReadsOneOf body.now (D.disk (disk_of self.old)) (gate_of self.old)
            (D.disk (disk_of self.new))) }
        ensures err_images { OnErr result (LeavesOneOf body.now (D.disk (disk_of self.old)) (gate_of self.old)
            (D.disk (disk_of self.new))) }
        ensures room { room D.spare self.old ≤ room D.spare self.new + length body.now + 8 }
        ensures told { is_some (D.disk (disk_of self.new)) ≡ is_some (D.disk (disk_of self.old)) }
        ensures lent { D.lent (disk_of self.new) ≡ D.lent (disk_of self.old) }
        ensures cause { DeviceHasCause (D.faults (disk_of self.old)) (D.stops (disk_of self.old))
            (D.faults (disk_of self.new)) (D.stops (disk_of self.new)) result }
        ensures stays_faultless { D.is_faultless (disk_of self.old) → D.is_faultless (disk_of self.new) }
        ensures stays_sure { D.is_sure (disk_of self.old) → D.is_sure (disk_of self.new) }
        ensures faultless { D.is_faultless (disk_of self.old) → IsErrOf result DeviceStop.Failed
            → (rs : List JournalRecord) → HoldsAt (D.disk (disk_of self.old)) (gate_of self.old) rs
            → IsFull rs body.now }
        ensures never_stops { D.is_sure (disk_of self.old) → IsErrOf result DeviceStop.Stopped → ⊥ }
    {
        self.gate.append(&mut self.disk, body)
    }

    /// Adds a record as `append` does, and syncs once more: at Ok no cut of the power loses it.
    /// Takes no memory.
    pub fn append_synced(&mut self, body: &[u8]) -> Result<(), DeviceStop>
        requires record { IsBody body.now }
        requires sound { IsOpenAt (D.disk (disk_of self.old)) (gate_of self.old) }
        requires room { length body.now + 8 ≤ room D.spare self.old }
        ensures sound { OnOk result (IsOpenAt (D.disk (disk_of self.new)) (gate_of self.new)) }
        ensures holds { OnOk result (Adds body.now (D.disk (disk_of self.old)) (gate_of self.old)
            (D.disk (disk_of self.new)) (gate_of self.new)) }
        ensures synced { OnOk result (Told (D.disk (disk_of self.new)) IsSynced) }
        ensures survives { OnOk result (AddsSynced body.now (D.disk (disk_of self.old)) (gate_of self.old)
            (D.disk (disk_of self.new)) (gate_of self.new)) }
        ensures err_read { OnErr result (ReadsOneOf body.now (D.disk (disk_of self.old)) (gate_of self.old)
            (D.disk (disk_of self.new))) }
        ensures err_images { OnErr result (LeavesOneOf body.now (D.disk (disk_of self.old)) (gate_of self.old)
            (D.disk (disk_of self.new))) }
        ensures room { room D.spare self.old ≤ room D.spare self.new + length body.now + 8 }
        ensures told { is_some (D.disk (disk_of self.new)) ≡ is_some (D.disk (disk_of self.old)) }
        ensures lent { D.lent (disk_of self.new) ≡ D.lent (disk_of self.old) }
        ensures cause { DeviceHasCause (D.faults (disk_of self.old)) (D.stops (disk_of self.old))
            (D.faults (disk_of self.new)) (D.stops (disk_of self.new)) result }
        ensures stays_faultless { D.is_faultless (disk_of self.old) → D.is_faultless (disk_of self.new) }
        ensures stays_sure { D.is_sure (disk_of self.old) → D.is_sure (disk_of self.new) }
        ensures faultless { D.is_faultless (disk_of self.old) → IsErrOf result DeviceStop.Failed
            → (rs : List JournalRecord) → HoldsAt (D.disk (disk_of self.old)) (gate_of self.old) rs
            → IsFull rs body.now }
        ensures never_stops { D.is_sure (disk_of self.old) → IsErrOf result DeviceStop.Stopped → ⊥ }
    {
        self.gate.append_synced(&mut self.disk, body)
    }

    /// The disk, with all that was appended.
    pub fn into_disk(self) -> D
        ensures { result ≡ disk_of self }
    {
        let Journal { disk, gate: _ } = self;
        disk
    }
}
