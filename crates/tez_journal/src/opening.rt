//! What opening a journal does to its disk.
ghost use Rattle.std.specs.Prelude.{◌≡◌, ◌≢◌, ◌<◌, ◌≤◌, ◌^◌, [], ◌∷◌, ℕ, List, length, is_some, option_map, IfOk, OnOk, OnErr, IsErrOf};
ghost use Rattle.tez_events.specs.declared.JournalRecord.{JournalRecord};
ghost use Rattle.tez_ports.specs.Content.{Told};
ghost use Rattle.tez_ports.specs.Image.{settled};
ghost use Rattle.tez_journal.specs.Text.{IsText};
ghost use Rattle.tez_journal.specs.Crash.{EndsAt, Leaves, IsSafe};
ghost use Rattle.tez_journal.specs.Opening.{opens, IsSynced, IsNoText, KeepsTexts, KeepsImages, JournalHasCause};

use crate::fault::{JournalFault, fault_of};
use crate::text::{Text, read_text};
use std::alloc::Global;
use tez_ports::JournalDisk;

// A closed gate alone, synced.
fn begin<D: JournalDisk>(disk: &mut D) -> Result<(), JournalFault>
    requires { Told (D.disk disk.old) (λ d. length d.read ≤ 1) }
    ensures ok { OnOk result (D.disk disk.new ≡ option_map (λ _. settled (0 ∷ [])) (D.disk disk.old)) }
    ensures err { OnErr result (Told (D.disk disk.new) (λ d. length d.read ≤ 1)) }
    ensures err_images { OnErr result (Told (D.disk disk.old) IsSynced
        → Told (D.disk disk.new) (Leaves (λ image. length image ≤ 1))) }
    ensures told { is_some (D.disk disk.new) ≡ is_some (D.disk disk.old) }
    ensures cause { JournalHasCause (D.faults disk.old) (D.stops disk.old)
        (D.faults disk.new) (D.stops disk.new) result }
    ensures lent { D.lent disk.new ≡ D.lent disk.old }
    ensures stays_faultless { D.is_faultless disk.old → D.is_faultless disk.new }
    ensures stays_sure { D.is_sure disk.old → D.is_sure disk.new }
    ensures faultless { D.is_faultless disk.old → IsErrOf result JournalFault.Failed → ⊥ }
    ensures never_stops { D.is_sure disk.old → IsErrOf result JournalFault.Stopped → ⊥ }
    ensures no_refusal { IsErrOf result JournalFault.Refused → ⊥ }
{
    if disk.reserve(2).is_err() {
        return Err(JournalFault::NoMemory);
    }
    match disk.write_at(0, &[0]) {
        Ok(()) => {}
        Err(stop) => return Err(fault_of(stop)),
    }
    match disk.sync() {
        Ok(()) => Ok(()),
        Err(stop) => Err(fault_of(stop)),
    }
}

// The journal in the whole content.
fn read<D: JournalDisk>(alloc: Global, disk: &mut D, size: u64) -> Result<Text, JournalFault>
    requires size { Told (D.disk disk.old) (λ d. size ≡ length d.read) }
    requires long { 1 < size }
    ensures records { IfOk result (λ t. Told (D.disk disk.old) (λ d. EndsAt t.gate t.records.items d.read)) }
    ensures small { IfOk result (λ t. t.gate < 2 ^ 63) }
    ensures refused { IsErrOf result JournalFault.Refused → Told (D.disk disk.old) IsNoText }
    ensures same { D.disk disk.new ≡ D.disk disk.old }
    ensures cause { JournalHasCause (D.faults disk.old) (D.stops disk.old)
        (D.faults disk.new) (D.stops disk.new) result }
    ensures lent { D.lent disk.new ≡ D.lent disk.old }
    ensures stays_faultless { D.is_faultless disk.old → D.is_faultless disk.new }
    ensures stays_sure { D.is_sure disk.old → D.is_sure disk.new }
    ensures faultless { D.is_faultless disk.old → IsErrOf result JournalFault.Failed → ⊥ }
    ensures never_stops { D.is_sure disk.old → IsErrOf result JournalFault.Stopped → ⊥ }
{
    let Ok(mut bytes) = vec![in alloc; 0u8; size as usize] else {
        return Err(JournalFault::NoMemory);
    };
    match disk.read_at(0, &mut bytes) {
        Ok(()) => {}
        Err(stop) => return Err(fault_of(stop)),
    }
    match read_text(alloc, &bytes) {
        Ok(Some(text)) => Ok(text),
        Ok(None) => Err(JournalFault::Refused),
        Err(_) => Err(JournalFault::NoMemory),
    }
}

// A journal of no records.
fn blank(alloc: Global) -> Text
    ensures records { result.records.items ≡ [] }
    ensures gate { result.gate ≡ 0 }
{
    Text {
        records: Vec::new(alloc),
        gate: 0,
    }
}

/// Reads the journal of a disk. A content of one byte or none becomes one of no records.
pub fn load<D: JournalDisk>(alloc: Global, disk: &mut D) -> Result<Text, JournalFault>
    ensures records { IfOk result (λ t. Told (D.disk disk.old) (λ d. IsText d.read t.records.items)) }
    ensures holds { IfOk result (λ t. Told (D.disk disk.new) (λ d. EndsAt t.gate t.records.items d.read)) }
    ensures small { IfOk result (λ t. t.gate < 2 ^ 63) }
    ensures disk { OnOk result (D.disk disk.new ≡ option_map opens (D.disk disk.old)) }
    ensures survives { IfOk result (λ t. Told (D.disk disk.old) IsSynced
        → Told (D.disk disk.new) (IsSafe t.gate t.records.items t.records.items)) }
    ensures refused { IsErrOf result JournalFault.Refused → Told (D.disk disk.old) IsNoText }
    ensures err_same { OnErr result (Told (D.disk disk.old) (λ d. 1 < length d.read)
        → D.disk disk.new ≡ D.disk disk.old) }
    ensures err_read { OnErr result (KeepsTexts (D.disk disk.old) (D.disk disk.new)) }
    ensures err_images { OnErr result (KeepsImages (D.disk disk.old) (D.disk disk.new)) }
    ensures told { is_some (D.disk disk.new) ≡ is_some (D.disk disk.old) }
    ensures cause { JournalHasCause (D.faults disk.old) (D.stops disk.old)
        (D.faults disk.new) (D.stops disk.new) result }
    ensures lent { D.lent disk.new ≡ D.lent disk.old }
    ensures stays_faultless { D.is_faultless disk.old → D.is_faultless disk.new }
    ensures stays_sure { D.is_sure disk.old → D.is_sure disk.new }
    ensures faultless { D.is_faultless disk.old → IsErrOf result JournalFault.Failed → ⊥ }
    ensures never_stops { D.is_sure disk.old → IsErrOf result JournalFault.Stopped → ⊥ }
{
    let size = match disk.size() {
        Ok(size) => size,
        Err(stop) => return Err(fault_of(stop)),
    };
    if size > 1 {
        return read(alloc, disk, size);
    }
    match begin(disk) {
        Ok(()) => Ok(blank(alloc)),
        Err(fault) => Err(fault),
    }
}
