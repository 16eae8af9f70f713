//! A master begins.
ghost use Rattle.std.specs.Prelude.{◌≡◌, ◌≤◌, ◌⊎◌, [], ◌∷◌, true, false, is_some, IfSome, IfOk, IsOk, OnOk, OnErr, length};
ghost use Rattle.std.specs.Option.{option_map, option_map_or};
ghost use Rattle.tez_ports.specs.Causes.{Rose};
ghost use Rattle.tez_ports.specs.Content.{Told, bytes_of};
ghost use Rattle.tez_events.specs.declared.Entry.TheVariants.{Opened};
ghost use Rattle.tez_history.specs.Shape.{has_sink};
ghost use Rattle.tez_pool.specs.Victim.{AreIn};
ghost use Rattle.tez_master_model.specs.Fresh.{fresh};
ghost use Rattle.tez_steps.specs.Step.{first_published};
ghost use Rattle.tez_world.specs.Begun.{HasRows, HasBegun, WasAsked, HasFault, IsNotFault};
ghost use Rattle.tez_steps.specs.Holds.{parts_of, Holds};
ghost use Rattle.tez_steps.specs.Parts.{SameLog};

use std::alloc::{AllocError, Global};
use tez_conf::Conf;
use tez_dag_json::dag_text;
use tez_events::{Entry, JournalRecord};
use tez_ids::{Bytes, Epoch, VertexId};
use tez_inflight::Seats;
use tez_log::Log;
use tez_master::Master;
use tez_meaning::Job;
use tez_plan::{Plan, VertexSpec};
use tez_pool::Pool;
use tez_ports::{DeviceStop, OutputStore};
use tez_shelves::Shelves;
use tez_standing::{Failures, Phase, Settings, Standing, Winners};
use tez_steps::{Device, Running, Verdict};

/// How a master began: it is up, or the world ended at once.
#[derive(Drop)]
pub(crate) enum Began {
    Up(Running),
    Ended(Verdict),
}

/// The first master begins, unless a sink was published before. All memory is taken before the
/// store is asked.
pub(crate) fn begin<S: OutputStore>(
    alloc: Global,
    job: &Job,
    conf: &Conf,
    log: &mut Log,
    store: &mut S,
) -> Result<Began, AllocError>
    requires first { log.old.past ≡ [] }
    ensures rows { IfOk result (HasRows job.now) }
    ensures began { IfOk result (λ began. HasBegun job.now conf.now began log.new.past) }
    ensures refused { OnErr result (SameLog log.old log.new) }
    ensures same { S.store store.new ≡ S.store store.old }
    ensures store { IfOk result (λ began. Told (S.store store.old) (λ s. WasAsked job.now s.publications began)) }
    ensures later { (S.faults store.old ≤ S.faults store.new) × (S.stops store.old ≤ S.stops store.new) }
    ensures fault { IfOk result
        (λ began. HasFault (S.faults store.old) (S.stops store.old) (S.faults store.new) (S.stops store.new) began) }
    ensures lent { S.lent store.new ≡ S.lent store.old }
    ensures stays_sure { S.is_sure store.old → S.is_sure store.new }
    ensures sure { S.is_sure store.old → IfOk result IsNotFault }
{
    let running = new_running(alloc, job, conf)?;
    let text = dag_text(alloc, job.plan(), conf)?;
    log.reserve(1, 3)?;
    match first_published(job, store) {
        Ok(None) => {
            write_opening(log, text);
            Ok(Began::Up(running))
        }
        Ok(Some(v)) => Ok(Began::Ended(Verdict::SinkExists(v))),
        Err(_) => Ok(Began::Ended(Verdict::DeviceFault(Device::Store))),
    }
}

/// Writes down that the job is submitted to a journal of version 2, and that its first master is open.
/// Takes no memory.
fn write_opening(log: &mut Log, text: Vec<u8>)
    requires entries { 1 ≤ log.old.entry_room }
    requires records { 3 ≤ log.old.record_room }
    ensures { log.new.past ≡ Opened (record { 0 = 1 }) ∷ log.old.past }
{
    log.note(JournalRecord::Submitted {
        text: Bytes::new(text),
    });
    log.note(JournalRecord::Version);
    log.note(JournalRecord::Opened { epoch: Epoch(1) });
    log.write(Entry::Opened(Epoch(1)));
}

/// The parts of a world whose first master has just begun.
fn new_running(alloc: Global, job: &Job, conf: &Conf) -> Result<Running, AllocError>
    ensures rows { IfOk result (λ r. length r.texts.items ≡ length job.now.plan.vertices) }
    ensures holds { IfOk result (λ r. Holds job.now conf.now (parts_of r) (Opened (record { 0 = 1 }) ∷ [])) }
{
    let values = conf.values();
    let pool = Pool::new(alloc, values.nodes, values.per_node, values.reuse)?;
    let plan = job.plan().copy(alloc)?;
    let places = values.nodes as u32 * values.per_node as u32;
    let texts = vec![in alloc; (0, 0); job.plan().vertices().len()]?;
    Ok(Running {
        master: first_master(alloc, plan, *conf, pool)?,
        seats: Seats::new(alloc, places)?,
        shelves: Shelves::new(alloc),
        texts,
        sums: Vec::new(alloc),
    })
}

/// The first master, which finds nothing.
fn first_master(alloc: Global, plan: Plan, conf: Conf, pool: Pool) -> Result<Master, AllocError>
    requires within { AreIn plan pool.places }
    requires places { pool.per_node ≡ conf.per_node }
    ensures { IfOk result (λ m. m.state ≡ fresh plan conf 1 pool) }
{
    let nothing = Standing {
        epoch: 0,
        version: 1,
        configured: Settings::new(Vec::new(alloc)),
        winners: Winners::new(Vec::new(alloc)),
        failures: Failures::new(Vec::new(alloc)),
        phase: Phase::Running,
    };
    match Master::fresh(alloc, plan, conf, Epoch(1), &nothing, &[], pool) {
        Ok(master) => Ok(master),
        Err(_) => Err(AllocError),
    }
}

/// The first vertex whose sink was published before.
fn first_published<S: OutputStore>(job: &Job, store: &mut S) -> Result<Option<VertexId>, DeviceStop>
    ensures found { IfOk result
        (λ found. Told (S.store store.old) (λ s. option_map (λ v. v.0) found
        ≡ first_published job.now.plan s.publications)) }
    ensures sink { IfOk result (λ found. IfSome found (λ v. has_sink job.now.plan v.0 ≡ true)) }
    ensures same { S.store store.new ≡ S.store store.old }
    ensures later { (S.faults store.old ≤ S.faults store.new) × (S.stops store.old ≤ S.stops store.new) }
    ensures fault { OnErr result (Rose (S.faults store.old) (S.faults store.new)
        ⊎ Rose (S.stops store.old) (S.stops store.new)) }
    ensures lent { S.lent store.new ≡ S.lent store.old }
    ensures stays_sure { S.is_sure store.old → S.is_sure store.new }
    ensures sure { S.is_sure store.old → IsOk result }
{
    let vertices = job.plan().vertices();
    for v in 0..vertices.len() {
        if is_found(store, &vertices[v])? {
            return Ok(Some(VertexId(v as u16)));
        }
    }
    Ok(None)
}

/// Whether a vertex has a sink that was published before.
fn is_found<S: OutputStore>(store: &mut S, vertex: &VertexSpec) -> Result<bool, DeviceStop>
    ensures found { IfOk result
        (λ found. Told (S.store store.old) (λ s. found
        ≡ option_map_or (λ name. is_some (bytes_of name s.publications)) vertex.now.sink false)) }
    ensures sink { IfOk result (λ found. found ≡ true → is_some vertex.now.sink ≡ true) }
    ensures same { S.store store.new ≡ S.store store.old }
    ensures later { (S.faults store.old ≤ S.faults store.new) × (S.stops store.old ≤ S.stops store.new) }
    ensures fault { OnErr result (Rose (S.faults store.old) (S.faults store.new)
        ⊎ Rose (S.stops store.old) (S.stops store.new)) }
    ensures steady { OnOk result ((S.faults store.new ≡ S.faults store.old) × (S.stops store.new ≡ S.stops store.old)) }
    ensures lent { S.lent store.new ≡ S.lent store.old }
    ensures stays_sure { S.is_sure store.old → S.is_sure store.new }
    ensures sure { S.is_sure store.old → IsOk result }
{
    match &vertex.sink {
        Some(name) => store.is_published(name.as_str()),
        None => Ok(false),
    }
}
