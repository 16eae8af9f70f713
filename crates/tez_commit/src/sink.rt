// The text of a sink, from what attempts staged to the bytes that are put aside.
ghost use Rattle.std.specs.Prelude.{◌≡◌, ◌⊎◌, ◌++◌, length, option_map, IsSome, IfOk, OnOk, OnErr, IsErrOf};
ghost use Rattle.tez_record.specs.Line.{lines};
ghost use Rattle.tez_record.specs.Bag.{text};
ghost use Rattle.tez_ports.specs.Causes.{StoreHasCause};
ghost use Rattle.tez_ports.specs.Content.{Told, IsEither, LacksStaged, staged_at};
ghost use Rattle.tez_commit.specs.Merge.{AreStaged, LacksOne, merged, prepares, staged_bytes, staged_records};

use std::alloc::Global;
use tez_ids::AttemptId;
use tez_ports::{OutputStore, StoreFault};
use tez_record::{Records, lines_of};

/// How many records and how many bytes the text of a sink has.
#[derive(Clone, Copy, Debug, PartialEq, Eq)]
pub struct Prepared {
    pub records: u64,
    pub bytes: u64,
}

/// Adds the records of a text, or nothing.
fn add(records: &mut Records, bytes: Vec<u8>) -> Result<(), StoreFault>
    ensures added { OnOk result (records.new ≡ records.old ++ lines bytes.items) }
    ensures no_memory { OnErr result (IsErrOf result StoreFault.NoMemory) }
{
    let Ok(more) = lines_of(bytes) else {
        return Err(StoreFault::NoMemory);
    };
    match records.append(&more) {
        Ok(()) => Ok(()),
        Err(_) => Err(StoreFault::NoMemory),
    }
}

/// Adds the records that an attempt staged.
fn load_onto<S: OutputStore>(
    alloc: Global,
    store: &mut S,
    attempt: AttemptId,
    records: &mut Records,
) -> Result<(), StoreFault>
    ensures staged { OnOk result (Told (S.store store.old) (λ s. IsSome (staged_at attempt s.staged))) }
    ensures added { OnOk result
        (Told (S.store store.old) (λ s. records.new ≡ records.old ++ lines (staged_bytes s.staged attempt))) }
    ensures same { S.store store.new ≡ S.store store.old }
    ensures lent { S.lent store.new ≡ S.lent store.old }
    ensures cause { StoreHasCause (S.faults store.old) (S.stops store.old)
        (S.faults store.new) (S.stops store.new) result }
    ensures stays_faultless { S.is_faultless store.old → S.is_faultless store.new }
    ensures stays_sure { S.is_sure store.old → S.is_sure store.new }
    ensures faultless { S.is_faultless store.old → IsErrOf result StoreFault.Failed
        → Told (S.store store.old) (LacksStaged attempt) }
    ensures sure { S.is_sure store.old → OnErr result
        (IsErrOf result StoreFault.NoMemory ⊎ Told (S.store store.old) (LacksStaged attempt)) }
    ensures never_stops { S.is_sure store.old → IsErrOf result StoreFault.Stopped → ⊥ }
{
    match store.load(alloc, attempt) {
        Ok(bytes) => add(records, bytes),
        Err(fault) => Err(fault),
    }
}

/// The records that these attempts staged, one attempt after another.
fn gather<S: OutputStore>(
    alloc: Global,
    store: &mut S,
    winners: &[AttemptId],
) -> Result<Records, StoreFault>
    ensures staged { OnOk result (Told (S.store store.old) (λ s. AreStaged s.staged winners.now)) }
    ensures records { IfOk result (λ rs. Told (S.store store.old) (λ s. rs ≡ staged_records s.staged winners.now)) }
    ensures same { S.store store.new ≡ S.store store.old }
    ensures lent { S.lent store.new ≡ S.lent store.old }
    ensures cause { StoreHasCause (S.faults store.old) (S.stops store.old)
        (S.faults store.new) (S.stops store.new) result }
    ensures stays_faultless { S.is_faultless store.old → S.is_faultless store.new }
    ensures stays_sure { S.is_sure store.old → S.is_sure store.new }
    ensures faultless { S.is_faultless store.old → IsErrOf result StoreFault.Failed
        → Told (S.store store.old) (LacksOne winners.now) }
    ensures sure { S.is_sure store.old → OnErr result
        (IsErrOf result StoreFault.NoMemory ⊎ Told (S.store store.old) (LacksOne winners.now)) }
    ensures never_stops { S.is_sure store.old → IsErrOf result StoreFault.Stopped → ⊥ }
{
    let mut records = Records::new(alloc);
    for winner in winners {
        match load_onto(alloc, store, *winner, &mut records) {
            Ok(()) => {}
            Err(fault) => return Err(fault),
        }
    }
    Ok(records)
}

/// The records that these attempts staged, in byte order.
fn merge<S: OutputStore>(
    alloc: Global,
    store: &mut S,
    winners: &[AttemptId],
) -> Result<Records, StoreFault>
    ensures staged { OnOk result (Told (S.store store.old) (λ s. AreStaged s.staged winners.now)) }
    ensures merged { IfOk result (λ rs. Told (S.store store.old) (λ s. rs ≡ merged s.staged winners.now)) }
    ensures same { S.store store.new ≡ S.store store.old }
    ensures lent { S.lent store.new ≡ S.lent store.old }
    ensures cause { StoreHasCause (S.faults store.old) (S.stops store.old)
        (S.faults store.new) (S.stops store.new) result }
    ensures stays_faultless { S.is_faultless store.old → S.is_faultless store.new }
    ensures stays_sure { S.is_sure store.old → S.is_sure store.new }
    ensures faultless { S.is_faultless store.old → IsErrOf result StoreFault.Failed
        → Told (S.store store.old) (LacksOne winners.now) }
    ensures sure { S.is_sure store.old → OnErr result
        (IsErrOf result StoreFault.NoMemory ⊎ Told (S.store store.old) (LacksOne winners.now)) }
    ensures never_stops { S.is_sure store.old → IsErrOf result StoreFault.Stopped → ⊥ }
{
    let records = match gather(alloc, store, winners) {
        Ok(records) => records,
        Err(fault) => return Err(fault),
    };
    match records.sorted(alloc) {
        Ok(sorted) => Ok(sorted),
        Err(_) => Err(StoreFault::NoMemory),
    }
}

fn counts(records: &Records) -> Prepared
    ensures records { result.records ≡ length records.now }
    ensures bytes { result.bytes ≡ length (text records.now) }
{
    Prepared {
        records: records.len() as u64,
        bytes: records.text().len() as u64,
    }
}

/// Puts aside under a name, in place of what was put aside before, the text of all records that
/// these attempts staged, in byte order, and counts them. A staged text is read as its lines. An
/// attempt that is not staged is Failed. For n records it takes n log n comparisons and memory for
/// two copies of the text and 32 bytes a record beside what the store takes.
pub fn prepare<S: OutputStore>(
    alloc: Global,
    store: &mut S,
    winners: &[AttemptId],
    name: &str,
) -> Result<Prepared, StoreFault>
    ensures staged { OnOk result (Told (S.store store.old) (λ s. AreStaged s.staged winners.now)) }
    ensures ok { OnOk result (S.store store.new ≡ option_map (prepares winners.now name.now) (S.store store.old)) }
    ensures records { IfOk result
        (λ p. Told (S.store store.old) (λ s. p.records ≡ length (merged s.staged winners.now))) }
    ensures bytes { IfOk result
        (λ p. Told (S.store store.old) (λ s. p.bytes ≡ length (text (merged s.staged winners.now)))) }
    ensures err { OnErr result (IsEither (prepares winners.now name.now) (S.store store.old) (S.store store.new)) }
    ensures no_memory { IsErrOf result StoreFault.NoMemory → S.store store.new ≡ S.store store.old }
    ensures lent { S.lent store.new ≡ S.lent store.old }
    ensures cause { StoreHasCause (S.faults store.old) (S.stops store.old)
        (S.faults store.new) (S.stops store.new) result }
    ensures stays_faultless { S.is_faultless store.old → S.is_faultless store.new }
    ensures stays_sure { S.is_sure store.old → S.is_sure store.new }
    ensures faultless { S.is_faultless store.old → IsErrOf result StoreFault.Failed
        → Told (S.store store.old) (LacksOne winners.now) }
    ensures sure { S.is_sure store.old → OnErr result
        (IsErrOf result StoreFault.NoMemory ⊎ Told (S.store store.old) (LacksOne winners.now)) }
    ensures never_stops { S.is_sure store.old → IsErrOf result StoreFault.Stopped → ⊥ }
{
    let merged = match merge(alloc, store, winners) {
        Ok(merged) => merged,
        Err(fault) => return Err(fault),
    };
    match store.ready(name, merged.text()) {
        Ok(()) => Ok(counts(&merged)),
        Err(fault) => Err(fault),
    }
}
