//! The master's answer to an event, and its settling.
ghost use Rattle.std.specs.Prelude.{◌≡◌, ◌≤◌, ◌++◌, ◌<◌, ◌+◌, not, true, length, Some, None, IsSome, IfOk, OnOk};
ghost use Rattle.tez_history.specs.History.{extend};
ghost use Rattle.tez_history.specs.Steps.{entries_of};
ghost use Rattle.tez_master_model.specs.Enabled.{enabled_in, why_not};
ghost use Rattle.tez_master_view.specs.View.{master_view};
ghost use Rattle.tez_entries.specs.Records.{records_of};
ghost use Rattle.tez_master.specs.Master.{Step, Took, settled_by, is_ignored, IsIgnoredFor, entries_told, records_told, spent_told, spent_in, HasNumbers};
ghost use Rattle.tez_master_model.specs.Steady.{IsSteady};
ghost use Rattle.tez_world_invariant.specs.Keeping.{most_entries};
ghost use Rattle.tez_steps.specs.Holds.{parts_of, Holds, notes_of};
ghost use Rattle.tez_steps.specs.Parts.{SameParts, SameLog, IsAsked};

use crate::running::Running;
use std::alloc::{AllocError, Global};
use tez_conf::Conf;
use tez_events::CoreEvent;
use tez_log::Log;
use tez_master::Handled;
use tez_meaning::Job;

/// A trace of so many entries is not written on. Far more than memory holds.
const MOST_ENTRIES: usize = 1 << 61;

/// Asks the master about an event, and makes room for what it adds.
pub(crate) fn ask(
    alloc: Global,
    job: &Job,
    conf: &Conf,
    running: &mut Running,
    log: &mut Log,
    e: &CoreEvent,
) -> Result<Handled, AllocError>
    requires holds { Holds job.now conf.now (parts_of running.old) log.old.past }
    ensures parts { SameParts running.old running.new }
    ensures log { SameLog log.old log.new }
    ensures notes { notes_of running.new ≡ notes_of running.old }
    ensures taken { IfOk result (λ h. is_ignored h
        ≡ not (enabled_in (master_view job.now.plan conf.now log.old.past) e.now)) }
    ensures why { IfOk result (λ h. IsIgnoredFor h (why_not (master_view job.now.plan conf.now log.old.past) e.now)) }
    ensures asked { enabled_in (master_view job.now.plan conf.now log.old.past) e.now ≡ true
        → IfOk result (λ h. IsAsked (Took e.now)
        (entries_of job.now.plan conf.now log.old.past e.now) h running.new log.new) }
    ensures records { enabled_in (master_view job.now.plan conf.now log.old.past) e.now ≡ true
        → IfOk result (λ h. records_told h ≡ records_of (entries_of job.now.plan conf.now log.old.past e.now)) }
    ensures spent { enabled_in (master_view job.now.plan conf.now log.old.past) e.now ≡ true
        → IfOk result (λ h. spent_told h ≡ spent_in running.old.master.state e.now) }
    ensures numbers { HasNumbers running.new.master.state }
    ensures steady { IsSteady running.new.master.state }
{
    let _plan = job.plan();
    let _values = conf.values();
    let handled = running.master.handle(alloc, e)?;
    make_room(log, &handled)?;
    Ok(handled)
}

/// Makes room for what an answer tells.
pub(crate) fn make_room(log: &mut Log, handled: &Handled) -> Result<(), AllocError>
    ensures log { SameLog log.old log.new }
    ensures entries { OnOk result (length (entries_told handled.now) ≤ log.new.entry_room) }
    ensures records { OnOk result (length (records_told handled.now) ≤ log.new.record_room) }
    ensures short { OnOk result (length log.new.past + length (entries_told handled.now) < most_entries) }
{
    let (entries, records) = match handled {
        Handled::Done(effects) => (effects.entries.len(), effects.records.len()),
        Handled::Single(_, _) => (1, 1),
        Handled::Ignored(_) => (0, 0),
    };
    if log.len() >= MOST_ENTRIES || entries >= MOST_ENTRIES - log.len() {
        return Err(AllocError);
    }
    log.reserve(entries, records)
}

/// Puts the master's answer into effect, and writes it down. Takes no memory.
pub(crate) fn settle(running: &mut Running, log: &mut Log, handled: Handled)
    requires pending { IsSome running.old.master.pending }
    requires numbers { HasNumbers running.old.master.state }
    requires steady { IsSteady running.old.master.state }
    requires entries { length (entries_told handled) ≤ log.old.entry_room }
    requires records { length (records_told handled) ≤ log.old.record_room }
    ensures master { (s : Step) → running.old.master.pending ≡ Some s
        → running.new.master ≡ record { state = settled_by running.old.master.state s; pending = None } }
    ensures seats { running.new.seats ≡ running.old.seats }
    ensures shelves { running.new.shelves ≡ running.old.shelves }
    ensures texts { running.new.texts.items ≡ running.old.texts.items }
    ensures sums { running.new.sums.items ≡ running.old.sums.items }
    ensures past { log.new.past ≡ extend log.old.past (entries_told handled) }
    ensures noted { log.new.records ≡ log.old.records ++ records_told handled }
{
    running.master.settle();
    write_down(log, handled);
}

/// Writes an answer down. Takes no memory.
pub(crate) fn write_down(log: &mut Log, handled: Handled)
    requires entries { length (entries_told handled) ≤ log.old.entry_room }
    requires records { length (records_told handled) ≤ log.old.record_room }
    ensures past { log.new.past ≡ extend log.old.past (entries_told handled) }
    ensures noted { log.new.records ≡ log.old.records ++ records_told handled }
{
    match handled {
        Handled::Done(effects) => {
            log.write_all(effects.entries.as_slice());
            log.note_all(effects.records);
        }
        Handled::Single(entry, record) => {
            log.write(entry);
            if let Some(record) = record {
                log.note(record);
            }
        }
        Handled::Ignored(_) => {}
    }
}
