// The run of a job, driven to its end.
ghost use Rattle.std.specs.Prelude.{◌≡◌, ◌≢◌, OnErr, IfOk, IfSome, None};
ghost use Rattle.tez_ports.specs.Content.{Named, Told};
ghost use Rattle.tez_steps.specs.Step.{Over, SinksStand};
ghost use Rattle.tez_am.specs.Drive.{RunGoesOn, HasEnded, IsEndOf, IsNoFail, IsSure, moment};

use std::alloc::{AllocError, Global};
use tez_orders::work;
use tez_ports::OutputStore;
use tez_world::{Event, JobRun, Took, Verdict};

/// The event that is next: the report of an order that is out, which is worked at once, or else the
/// run's own.
fn coming(alloc: Global, run: &mut JobRun) -> Option<Event>
    ensures job { run.new.job ≡ run.old.job }
    ensures conf { run.new.conf ≡ run.old.conf }
    ensures phase { run.new.phase ≡ run.old.phase }
    ensures past { run.new.past ≡ run.old.past }
    ensures notes { run.new.notes ≡ run.old.notes }
    ensures no_fail { IfSome result IsNoFail }
{
    match run.take_order() {
        Some(order) => Some(Event::Report(work(alloc, order))),
        None => run.next(),
    }
}

fn end_of(took: Took) -> Option<Verdict>
    ensures { IsEndOf took result }
{
    match took {
        Took::Changed | Took::Ignored(_) => None,
        Took::Ended(verdict) => Some(verdict),
    }
}

/// One turn, which gives the verdict where it is the last. Where memory is refused, or nothing is left
/// to do, there is none.
fn turn<S: OutputStore>(
    alloc: Global,
    run: &mut JobRun,
    store: &mut S,
) -> Result<Option<Verdict>, AllocError>
    requires { run.old.phase ≢ Over }
    ensures conf { run.new.conf ≡ run.old.conf }
    ensures goes_on { IfOk result (λ end. end ≡ None
        → RunGoesOn (moment S.store S.faults S.stops run.old store.old)
        (moment S.store S.faults S.stops run.new store.new)) }
    ensures ended { IfOk result
        (λ end. IfSome end
        (HasEnded (moment S.store S.faults S.stops run.old store.old)
        (moment S.store S.faults S.stops run.new store.new))) }
    ensures refused { OnErr result
        (RunGoesOn (moment S.store S.faults S.stops run.old store.old)
        (moment S.store S.faults S.stops run.new store.new)) }
    ensures lent { S.lent store.new ≡ S.lent store.old }
    ensures stays_sure { S.is_sure store.old → S.is_sure store.new }
    ensures sure { (before : Named) → S.is_sure store.old
        → Told (S.store store.old) (SinksStand run.old.job before run.old.past run.old.notes)
        → IfOk result (λ end. IfSome end IsSure) }
{
    let Some(event) = coming(alloc, run) else {
        return Err(AllocError);
    };
    match run.step(alloc, store, event) {
        Ok(took) => Ok(end_of(took)),
        Err(refused) => Err(refused),
    }
}

/// Turns until the run ends, unless memory is refused.
pub fn drive<S: OutputStore>(
    alloc: Global,
    run: &mut JobRun,
    store: &mut S,
) -> Result<Verdict, AllocError>
    requires { run.old.phase ≢ Over }
    ensures conf { run.new.conf ≡ run.old.conf }
    ensures ended { IfOk result
        (HasEnded (moment S.store S.faults S.stops run.old store.old)
        (moment S.store S.faults S.stops run.new store.new)) }
    ensures refused { OnErr result
        (RunGoesOn (moment S.store S.faults S.stops run.old store.old)
        (moment S.store S.faults S.stops run.new store.new)) }
    ensures lent { S.lent store.new ≡ S.lent store.old }
    ensures sure { (before : Named) → S.is_sure store.old
        → Told (S.store store.old) (SinksStand run.old.job before run.old.past run.old.notes) → IfOk result IsSure }
{
    for _turn in 0..u64::MAX {
        match turn(alloc, run, store) {
            Ok(None) => {}
            Ok(Some(verdict)) => return Ok(verdict),
            Err(refused) => return Err(refused),
        }
    }
    Err(AllocError)
}
