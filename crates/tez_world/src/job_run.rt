//! A run of a job.
ghost use Rattle.std.specs.Prelude.{◌≡◌, ◌≢◌, ◌≤◌, ◌↔◌, reverse, [], None, is_some, IfOk, OnErr, IsTrue};
ghost use Rattle.std.specs.Option.{option_map};
ghost use Rattle.tez_ports.specs.Content.{Named, Store, Told};
ghost use Rattle.tez_world_invariant.specs.Store.{HasPublished};
ghost use Rattle.tez_steps.specs.Step.{Down, Up, Over, StepIs, SinksStand, StoreAfter, IsIgnored, FaultIs, IsNoFault};
ghost use Rattle.tez_world.specs.World.{new_run, next_in, tail_of};
ghost use Rattle.tez_world.specs.Lawful.{IsTrace, IsGoing};
ghost use Rattle.tez_world.specs.Taking.{is_ended, is_open};

use crate::opening::{Began, begin};
use std::alloc::{AllocError, Global};
use std::marker::Model;
use tez_conf::Conf;
use tez_events::{CoreEvent, Trace};
use tez_log::Log;
use tez_master_model::Why;
use tez_meaning::Job;
use tez_orders::Order;
use tez_ports::OutputStore;
use tez_steps::{Event, Running, Took, take};

/// Whether a world begins a job, or may go on with one.
#[derive(Clone, Copy, Debug, PartialEq, Eq)]
pub enum Mode {
    Run,
    Resume,
}

/// A job with its master, what is at the places and on the shelves, and its trace. The store is lent
/// to each step, and is to be the same one each time.
#[derive(Drop)]
pub struct JobRun {
    job: Job,
    conf: Conf,
    mode: Mode,
    log: Log,
    running: Option<Running>,
    over: bool,
}

impl Model for JobRun {
    ghost use Rattle.tez_world.specs.World.{RunParts};
    ghost use Rattle.tez_world.specs.Holds.{phase_of, queue_of, notes_from, IsWorld};

    ghost Value = { RunParts };

    ghost view = { λ r. record {
      job = r.job;
      conf = r.conf;
      phase = phase_of r.running r.over;
      past = r.log.past;
      queue = queue_of r.running;
      notes = notes_from r.running;
      records = r.log.records;
    } };

    ghost invariant = { λ r. IsWorld r.job r.conf r.running r.over r.log.past };
}

impl JobRun {
    /// The run of a job before its first master, with an empty trace. Takes no memory.
    pub fn open(alloc: Global, job: Job, conf: Conf, mode: Mode) -> JobRun
        ensures { result ≡ new_run job conf }
    {
        JobRun {
            job,
            conf,
            mode,
            log: Log::new(alloc),
            running: None,
            over: false,
        }
    }

    /// Handles one event. What may not come is ignored, and changes nothing; where memory is refused
    /// the event is dropped, and nothing changes but what was put aside in the store.
    pub fn step<S: OutputStore>(
        &mut self,
        alloc: Global,
        store: &mut S,
        e: Event,
    ) -> Result<Took, AllocError>
        ensures job { self.new.job ≡ self.old.job }
        ensures conf { self.new.conf ≡ self.old.conf }
        // What was answered, and the history after it.
        ensures step { IfOk result (λ took. StepIs self.old.job self.old.conf
            self.old.phase self.old.past e took self.new.phase self.new.past) }
        ensures ignored { IfOk result (λ took. IsIgnored took → (self.new ≡ self.old) × (store.new ≡ store.old)) }
        ensures refused { OnErr result (self.new ≡ self.old) }
        // The store stays right, whatever had been published before, and tells as it told.
        ensures store { (before : Named) → self.old.phase ≢ Over
            → Told (S.store store.old) (SinksStand self.old.job before self.old.past self.old.notes)
            → IfOk result (λ took. Told (S.store store.new)
            (StoreAfter self.old.job before took self.new.past self.new.notes)) }
        ensures store_refused { (before : Named) → self.old.phase ≢ Over
            → Told (S.store store.old) (SinksStand self.old.job before self.old.past self.old.notes)
            → OnErr result (Told (S.store store.new) (SinksStand self.old.job before self.new.past self.new.notes)) }
        ensures told { is_some (S.store store.new) ≡ is_some (S.store store.old) }
        // The end at a device comes where that device failed or was stopped, and never at a sure one.
        ensures later { (S.faults store.old ≤ S.faults store.new) × (S.stops store.old ≤ S.stops store.new) }
        ensures fault { IfOk result
            (FaultIs (S.faults store.old) (S.stops store.old) (S.faults store.new) (S.stops store.new)) }
        ensures lent { S.lent store.new ≡ S.lent store.old }
        ensures stays_sure { S.is_sure store.old → S.is_sure store.new }
        ensures sure { (before : Named) → S.is_sure store.old
            → Told (S.store store.old) (SinksStand self.old.job before self.old.past self.old.notes)
            → IfOk result IsNoFault }
    {
        if self.over {
            return Ok(Took::Ignored(Why::Over));
        }
        let Some(running) = &mut self.running else {
            return self.begin(alloc, store, e);
        };
        let took = take(
            alloc,
            &self.job,
            &self.conf,
            running,
            &mut self.log,
            store,
            e,
        )?;
        self.over = is_ended(&took);
        Ok(took)
    }

    /// The first event of a run that is down.
    fn begin<S: OutputStore>(
        &mut self,
        alloc: Global,
        store: &mut S,
        e: Event,
    ) -> Result<Took, AllocError>
        requires down { self.old.phase ≡ Down }
        ensures job { self.new.job ≡ self.old.job }
        ensures conf { self.new.conf ≡ self.old.conf }
        ensures step { IfOk result (λ took. StepIs self.old.job self.old.conf
            self.old.phase self.old.past e took self.new.phase self.new.past) }
        ensures ignored { IfOk result (λ took. IsIgnored took → (self.new ≡ self.old) × (store.new ≡ store.old)) }
        ensures refused { OnErr result (self.new ≡ self.old) }
        ensures store { (before : Named)
            → Told (S.store store.old) (SinksStand self.old.job before self.old.past self.old.notes)
            → IfOk result (λ took. Told (S.store store.new)
            (StoreAfter self.old.job before took self.new.past self.new.notes)) }
        ensures store_refused { (before : Named)
            → Told (S.store store.old) (SinksStand self.old.job before self.old.past self.old.notes)
            → OnErr result (Told (S.store store.new) (SinksStand self.old.job before self.new.past self.new.notes)) }
        ensures told { is_some (S.store store.new) ≡ is_some (S.store store.old) }
        ensures later { (S.faults store.old ≤ S.faults store.new) × (S.stops store.old ≤ S.stops store.new) }
        ensures fault { IfOk result
            (FaultIs (S.faults store.old) (S.stops store.old) (S.faults store.new) (S.stops store.new)) }
        ensures lent { S.lent store.new ≡ S.lent store.old }
        ensures stays_sure { S.is_sure store.old → S.is_sure store.new }
        ensures sure { (before : Named) → S.is_sure store.old
            → Told (S.store store.old) (SinksStand self.old.job before self.old.past self.old.notes)
            → IfOk result IsNoFault }
    {
        if !is_open(&e) {
            return Ok(Took::Ignored(Why::Down));
        }
        match begin(alloc, &self.job, &self.conf, &mut self.log, store)? {
            Began::Up(running) => {
                self.running = Some(running);
                Ok(Took::Changed)
            }
            Began::Ended(verdict) => {
                self.over = true;
                Ok(Took::Ended(verdict))
            }
        }
    }

    /// The next event of the master's own, or that one begins. None after the end, and where there is
    /// nothing to do but to wait for reports.
    pub fn next(&self) -> Option<Event>
        ensures { result ≡ next_in self.now.job self.now.conf self.now.phase self.now.past }
    {
        if self.over {
            return None;
        }
        match &self.running {
            None => Some(Event::Core(CoreEvent::Open)),
            Some(running) => core_event(running.master.choice()),
        }
    }

    /// The first order that is out and was not taken, in the order in which they went out. Takes no
    /// memory.
    pub fn take_order(&mut self) -> Option<Order>
        ensures none { result ≡ None ↔ self.old.queue ≡ [] }
        ensures taken { self.new ≡ record self.old { queue = tail_of self.old.queue } }
    {
        match &mut self.running {
            Some(running) => running.seats.take(),
            None => None,
        }
    }

    /// Until the end comes, what was published is a first part of the sinks, each with its text.
    pub fn publishes_in_order(&self)
        ensures { (before : Named) (s : Store) → self.now.phase ≢ Over
            → SinksStand self.now.job before self.now.past self.now.notes s → HasPublished self.now.job before s }
    {
        let _mode = self.mode;
    }

    /// Whatever came and in whatever order, the trace is lawful, and while a master is up it goes on.
    pub fn is_lawful(&self)
        ensures trace { IsTrace self.now.job self.now.conf self.now.past }
        ensures goes_on { self.now.phase ≡ Up → IsGoing self.now.job.plan self.now.conf self.now.past }
    {
        let _mode = self.mode;
    }

    pub fn job(&self) -> &Job
        ensures { result.now ≡ self.now.job }
    {
        &self.job
    }

    /// Whether it begins the job, or may go on with one.
    pub fn mode(&self) -> Mode {
        self.mode
    }

    pub fn trace(&self) -> &Trace
        ensures { reverse result.now.entries ≡ self.now.past }
    {
        self.log.trace()
    }

    /// Whether a master is up.
    pub fn is_up(&self) -> bool
        ensures { IsTrue result ↔ (self.now.phase ≡ Up) }
    {
        !self.over && self.running.is_some()
    }

    pub fn into_trace(self) -> Trace
        ensures { reverse result.entries ≡ self.past }
    {
        self.log.into_trace()
    }
}

fn core_event(e: Option<CoreEvent>) -> Option<Event>
    ensures { result ≡ option_map Event.Core e }
{
    match e {
        Some(e) => Some(Event::Core(e)),
        None => None,
    }
}

/// Whether a run has ended by this answer.
pub(crate) fn is_ended(took: &Took) -> bool
    ensures { result ≡ is_ended took.now }
{
    match took {
        Took::Ended(_) => true,
        Took::Changed => false,
        Took::Ignored(_) => false,
    }
}

fn is_open(e: &Event) -> bool
    ensures { result ≡ is_open e.now }
{
    match e {
        Event::Core(CoreEvent::Open) => true,
        Event::Core(_) => false,
        Event::Report(_) => false,
    }
}
