//! Answers that take memory.
ghost use Rattle.std.specs.Prelude.{◌≡◌, ◌++◌, true, map, Some, IfOk, OnOk};
ghost use Rattle.tez_events.specs.declared.CoreEvent.{CoreEvent};
ghost use Rattle.tez_events.specs.declared.Entry.{Entry};
ghost use Rattle.tez_history.specs.Steps.{done_entries};
ghost use Rattle.tez_master_model.specs.Enabled.{enabled_in, why_in};
ghost use Rattle.tez_master_model.specs.Entries.{entries_in};
ghost use Rattle.tez_master_model.specs.Bytes.{bytes_of};
ghost use Rattle.tez_entries.specs.Ranges.{CanTell};
ghost use Rattle.tez_entries.specs.Records.{records_of};
ghost use Rattle.tez_master.specs.Master.{Took, ordered_in, spent_in, IsReadyFor, step_of, made_line};

use crate::handled::Effects;
use crate::pending::Pending;
use std::alloc::{AllocError, Global};
use tez_core::Core;
use tez_entries::{entries, records};
use tez_events::{CoreEvent, Entry};
use tez_ids::{AttemptId, EdgeId, TaskId};
use tez_master_model::Why;

/// What an event has for effects which may come.
pub(crate) fn effects(alloc: Global, m: &Core, e: &CoreEvent) -> Result<Effects, AllocError>
    requires { CanTell m.now e.now }
    ensures entries { IfOk result (λ x. x.entries.items ≡ entries_in m.now e.now) }
    ensures records { IfOk result (λ x. x.records.items ≡ records_of (entries_in m.now e.now)) }
    ensures ordered { IfOk result (λ x. x.ordered ≡ ordered_in e.now) }
    ensures spent { IfOk result (λ x. x.spent ≡ spent_in m.now e.now) }
{
    let entries = entries(alloc, m, e)?;
    let records = records(alloc, entries.as_slice())?;
    Ok(Effects {
        entries,
        records,
        ordered: ordered_by(e),
        spent: spent_by(m, e),
    })
}

fn ordered_by(e: &CoreEvent) -> Option<AttemptId>
    ensures { result ≡ ordered_in e.now }
{
    match *e {
        CoreEvent::Send(a) => Some(a),
        _ => None,
    }
}

// The task that an event spends.
fn spent_by(m: &Core, e: &CoreEvent) -> Option<TaskId>
    ensures { result ≡ spent_in m.now e.now }
{
    match *e {
        CoreEvent::Fail(a) => spent_at(m, a),
        _ => None,
    }
}

fn spent_at(m: &Core, a: AttemptId) -> Option<TaskId>
    ensures { result ≡ spent_in m.now (CoreEvent.Fail a) }
{
    if m.is_last(a.task) {
        Some(a.task)
    } else {
        None
    }
}

/// What settling an event takes.
pub(crate) fn prepare(alloc: Global, m: &Core, e: &CoreEvent) -> Result<Pending, AllocError>
    requires { enabled_in m.now e.now ≡ true }
    ensures ready { IfOk result (IsReadyFor m.now) }
    ensures step { IfOk result (λ x. step_of x ≡ Took e.now) }
{
    match *e {
        CoreEvent::Configure(v) => Ok(Pending::Configure(v, m.prepare_configure(alloc, v)?)),
        CoreEvent::Place(a, place) => Ok(Pending::Place(a, place, m.prepare_place(alloc, a)?)),
        other => Ok(Pending::Event(other)),
    }
}

/// The entries of an attempt that succeeds.
#[tactic(auto, using(crate::proofs::Reports::report_lines))]
pub(crate) fn success(
    alloc: Global,
    a: AttemptId,
    made: &[(EdgeId, u64)],
) -> Result<Vec<Entry>, AllocError>
    ensures { IfOk result (λ es. es.items ≡ done_entries a (map bytes_of made.now)) }
{
    let mut entries = Vec::new(alloc);
    entries.push(Entry::Succeeded(a))?;
    add_made(&mut entries, a, made)?;
    Ok(entries)
}

fn add_made(
    entries: &mut Vec<Entry>,
    a: AttemptId,
    made: &[(EdgeId, u64)],
) -> Result<(), AllocError>
    ensures { OnOk result (entries.new.items ≡ entries.old.items ++ map (made_line a) made.now) }
{
    for m in made {
        entries.push(made_line(a, *m))?;
    }
    Ok(())
}

fn made_line(a: AttemptId, m: (EdgeId, u64)) -> Entry
    ensures { result ≡ made_line a m }
{
    Entry::Made(a, m.0, m.1)
}

/// Why the report of an attempt is ignored that is not processing.
pub(crate) fn why_ignored(m: &Core, a: AttemptId) -> Why
    ensures { (w : Why) → why_in m.now a ≡ Some w → result ≡ w }
{
    match m.why(a) {
        Some(why) => why,
        None => Why::NotEnabled,
    }
}
