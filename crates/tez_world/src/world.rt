//! The world of a job.
ghost use Rattle.std.specs.Prelude.{◌≡◌, ◌≢◌, ◌≤◌, ◌↔◌, reverse, [], None, true, is_some, IfOk, IfErr, OnErr, IsTrue};
ghost use Rattle.tez_ports.specs.Content.{Named, Told};
ghost use Rattle.tez_steps.specs.Step.{Up, Over, StepIs, SinksStand, StoreAfter, IsIgnored, FaultIs, IsNoFault};
ghost use Rattle.tez_world.specs.World.{new_run, next_in, tail_of};
ghost use Rattle.tez_progress.specs.Laws.{IsIdle};
ghost use Rattle.tez_world.specs.Driving.{IsDriven, IsStopped, StoreDriven, StoreStopped, FaultsAre, AreNoFaults};
ghost use Rattle.tez_world.specs.Lawful.{IsTrace, IsGoing};

use crate::job_run::{JobRun, Mode, is_ended};
use std::alloc::{AllocError, Global};
use std::marker::Model;
use tez_conf::Conf;
use tez_events::Trace;
use tez_meaning::Job;
use tez_orders::Order;
use tez_ports::{JournalDisk, OutputStore};
use tez_steps::{Event, Took};

/// A run of a job with its devices. One event is handled to its end by `step`. The disk is not called.
#[derive(Drop)]
pub struct World<D, S> {
    run: JobRun,
    disk: D,
    store: S,
}

impl<D, S> Model for World<D, S> {
    ghost use Rattle.tez_world.specs.World.{WorldParts};

    ghost Value = { WorldParts D S };

    ghost view = { λ w. record { run = w.run; disk = w.disk; store = w.store } };
}

impl<D: JournalDisk, S: OutputStore> World<D, S> {
    /// The world of a job before its first master: the trace is empty, and no device is called.
    pub fn open(
        alloc: Global,
        job: Job,
        conf: Conf,
        mode: Mode,
        disk: D,
        store: S,
    ) -> Result<World<D, S>, (D, S)>
        ensures world { IfOk result (λ w. w ≡ record { run = new_run job conf; disk = disk; store = store }) }
        ensures handed_back { IfErr result (λ back. back ≡ (disk, store)) }
    {
        Ok(World {
            run: JobRun::open(alloc, job, conf, mode),
            disk,
            store,
        })
    }

    /// Handles one event. What may not come is ignored, and changes nothing; where memory is refused
    /// the event is dropped, and nothing changes but what was put aside in the store.
    pub fn step(&mut self, alloc: Global, e: Event) -> Result<Took, AllocError>
        ensures job { self.new.run.job ≡ self.old.run.job }
        ensures conf { self.new.run.conf ≡ self.old.run.conf }
        ensures disk { self.new.disk ≡ self.old.disk }
        // What was answered, and the history after it.
        ensures step { IfOk result (λ took. StepIs self.old.run.job self.old.run.conf
            self.old.run.phase self.old.run.past e took self.new.run.phase self.new.run.past) }
        ensures ignored { IfOk result (λ took. IsIgnored took → (self.new.run ≡ self.old.run)
            × (self.new.store ≡ self.old.store)) }
        ensures refused { OnErr result (self.new.run ≡ self.old.run) }
        // The store stays right, whatever had been published before.
        ensures store { (before : Named) → self.old.run.phase ≢ Over
            → Told (S.store self.old.store) (SinksStand self.old.run.job before self.old.run.past self.old.run.notes)
            → IfOk result (λ took. Told (S.store self.new.store)
            (StoreAfter self.old.run.job before took self.new.run.past self.new.run.notes)) }
        ensures store_refused { (before : Named) → self.old.run.phase ≢ Over
            → Told (S.store self.old.store) (SinksStand self.old.run.job before self.old.run.past self.old.run.notes)
            → OnErr result (Told (S.store self.new.store)
            (SinksStand self.old.run.job before self.new.run.past self.new.run.notes)) }
        // The end at a device comes where that device failed or was stopped, and never at a sure one.
        ensures later { (S.faults self.old.store ≤ S.faults self.new.store)
            × (S.stops self.old.store ≤ S.stops self.new.store) }
        ensures fault { IfOk result
            (FaultIs (S.faults self.old.store) (S.stops self.old.store) (S.faults self.new.store)
            (S.stops self.new.store)) }
        ensures lent { S.lent self.new.store ≡ S.lent self.old.store }
        ensures lent_disk { D.lent self.new.disk ≡ D.lent self.old.disk }
        ensures stays_sure { S.is_sure self.old.store → S.is_sure self.new.store }
        ensures sure { (before : Named) → S.is_sure self.old.store
            → Told (S.store self.old.store) (SinksStand self.old.run.job before self.old.run.past self.old.run.notes)
            → IfOk result IsNoFault }
        // Whatever came, the trace is lawful, and while a master is up it goes on.
        ensures trace { IsTrace self.new.run.job self.new.run.conf self.new.run.past }
        ensures goes_on { self.new.run.phase ≡ Up → IsGoing self.new.run.job.plan self.new.run.conf self.new.run.past }
    {
        let took = self.run.step(alloc, &mut self.store, e);
        self.run.is_lawful();
        took
    }

    /// The next event of the master's own, or that one begins. None after the end, and where there is
    /// nothing to do but to wait for reports: a run that is not over is never stuck.
    pub fn next(&self) -> Option<Event>
        ensures next { result ≡ next_in self.now.run.job self.now.run.conf self.now.run.phase self.now.run.past }
        ensures goes_on { self.now.run.phase ≢ Over → IsIdle self.now.run.past → is_some result ≡ true }
    {
        self.run.is_lawful();
        self.run.next()
    }

    /// Steps by these events, in their order, until they or the world end. Each step is as `step` has
    /// it, and so is the store after the last one. Where memory is short, some first of the steps were
    /// taken. Whatever came and in whatever order, the trace is lawful, and a master that is up goes
    /// on.
    pub fn drive(&mut self, alloc: Global, events: Vec<Event>) -> Result<Vec<Took>, AllocError>
        ensures job { self.new.run.job ≡ self.old.run.job }
        ensures conf { self.new.run.conf ≡ self.old.run.conf }
        ensures disk { self.new.disk ≡ self.old.disk }
        ensures steps { IfOk result (λ tooks. IsDriven self.old.run.job self.old.run.conf
            self.old.run.phase self.old.run.past events.items tooks.items self.new.run.phase self.new.run.past) }
        ensures refused { OnErr result (IsStopped self.old.run.job self.old.run.conf
            self.old.run.phase self.old.run.past events.items self.new.run.phase self.new.run.past) }
        ensures store { (before : Named) → self.old.run.phase ≢ Over
            → Told (S.store self.old.store) (SinksStand self.old.run.job before self.old.run.past self.old.run.notes)
            → IfOk result (λ tooks. Told (S.store self.new.store)
            (StoreDriven self.old.run.job before tooks.items self.new.run.past self.new.run.notes)) }
        ensures store_refused { (before : Named) → self.old.run.phase ≢ Over
            → Told (S.store self.old.store) (SinksStand self.old.run.job before self.old.run.past self.old.run.notes)
            → OnErr result (Told (S.store self.new.store)
            (StoreStopped self.old.run.job before self.new.run.past self.new.run.notes)) }
        ensures trace { IsTrace self.new.run.job self.new.run.conf self.new.run.past }
        ensures goes_on { self.new.run.phase ≡ Up → IsGoing self.new.run.job.plan self.new.run.conf self.new.run.past }
        // An end at a device comes where that device failed or was stopped, and never at a sure one.
        ensures later { (S.faults self.old.store ≤ S.faults self.new.store)
            × (S.stops self.old.store ≤ S.stops self.new.store) }
        ensures fault { IfOk result
            (λ tooks. FaultsAre (S.faults self.old.store) (S.stops self.old.store) (S.faults self.new.store)
            (S.stops self.new.store) tooks.items) }
        ensures lent { S.lent self.new.store ≡ S.lent self.old.store }
        ensures lent_disk { D.lent self.new.disk ≡ D.lent self.old.disk }
        ensures stays_sure { S.is_sure self.old.store → S.is_sure self.new.store }
        ensures sure { (before : Named) → self.old.run.phase ≢ Over → S.is_sure self.old.store
            → Told (S.store self.old.store) (SinksStand self.old.run.job before self.old.run.past self.old.run.notes)
            → IfOk result (λ tooks. AreNoFaults tooks.items) }
    {
        self.run.is_lawful();
        let mut tooks = Vec::with_capacity(alloc, events.len())?;
        for e in events {
            let took = self.step(alloc, e)?;
            let ended = is_ended(&took);
            tooks.push(took)?;
            if ended {
                return Ok(tooks);
            }
        }
        Ok(tooks)
    }

    /// The first order that is out and was not taken, in the order in which they went out. Takes no
    /// memory.
    pub fn take_order(&mut self) -> Option<Order>
        ensures none { result ≡ None ↔ self.old.run.queue ≡ [] }
        ensures taken { self.new
            ≡ record self.old { run = record self.old.run { queue = tail_of self.old.run.queue } } }
    {
        self.run.take_order()
    }

    /// Whatever came and in whatever order, the trace is lawful, and while a master is up it goes on.
    pub fn is_lawful(&self)
        ensures trace { IsTrace self.now.run.job self.now.run.conf self.now.run.past }
        ensures goes_on { self.now.run.phase ≡ Up → IsGoing self.now.run.job.plan self.now.run.conf self.now.run.past }
    {
        self.run.is_lawful();
    }

    pub fn trace(&self) -> &Trace
        ensures { reverse result.now.entries ≡ self.now.run.past }
    {
        self.run.trace()
    }

    /// Whether a master is up.
    pub fn is_up(&self) -> bool
        ensures { IsTrue result ↔ (self.now.run.phase ≡ Up) }
    {
        self.run.is_up()
    }

    /// Gives back the devices, and the trace.
    pub fn close(self) -> (D, S, Trace)
        ensures disk { result.0 ≡ self.disk }
        ensures store { result.1 ≡ self.store }
        ensures trace { reverse result.2.entries ≡ self.run.past }
    {
        (self.disk, self.store, self.run.into_trace())
    }
}
