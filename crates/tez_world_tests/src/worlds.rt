//! Worlds over devices in memory, as the tests open and drive them. What they call is proved here once.
use std::alloc::{AllocError, Global};
use std::process::Abort;
use std::test::Fail;
use tez_dag_json::read_dag;
use tez_ids::{Bytes, Name};
use tez_meaning::{Job, has_sources};
use tez_orders::{Order, Report, work};
use tez_ports::OutputStore;
use tez_ports_mem::{Picker, SureDisk, SureStore};
use tez_record::contains;
use tez_trace::trace_text;
use tez_world::{Event, Mode, Took, Verdict, World};

pub const WC: &str =
    "{\"name\":\"wc\",\"vertices\":[{\"name\":\"split\",\"tasks\":2,\"source\":\"in.txt\",\"head\":{\"op\":\"each\"},\"steps\":[{\"op\":\"tokenise\"}]},{\"name\":\"total\",\"tasks\":2,\"head\":{\"op\":\"sum\",\"value\":1},\"sink\":\"out\"}],\"edges\":[{\"from\":\"split\",\"to\":\"total\",\"movement\":\"SCATTER_GATHER\",\"keys\":[0]}]}";

/// A file: its name and its text.
pub type File = (&'static str, &'static str);

pub const WORDS: [File; 1] = [("in.txt", "a b a\n")];

pub const COUNTS: &str = "a\t2\nb\t1\n";

fn sources(alloc: Global, files: &[File]) -> Result<Vec<(Name, Bytes)>, AllocError> {
    let mut sources = Vec::new(alloc);
    for (name, text) in files {
        sources.push((
            Name::copy_of(alloc, name)?,
            Bytes::new(text.as_bytes().to_vec(alloc)?),
        ))?;
    }
    Ok(sources)
}

pub fn world<S: OutputStore + Drop>(
    alloc: Global,
    dag: &str,
    files: &[File],
    store: S,
) -> Result<World<SureDisk, S>, Fail> {
    let (plan, conf) = read_dag(alloc, dag.as_bytes())?;
    let sources = sources(alloc, files)?;
    if !has_sources(&plan, &sources) {
        return Err(Fail::new("the DAG has another source"));
    }
    let disk = SureDisk::new(Vec::new(alloc), Picker::Keep, alloc);
    match World::open(alloc, Job::new(plan, sources), conf, Mode::Run, disk, store) {
        Ok(world) => Ok(world),
        Err(_) => Err(Fail::new("the world does not open")),
    }
}

pub fn sure_world(
    alloc: Global,
    dag: &str,
    files: &[File],
) -> Result<World<SureDisk, SureStore>, Fail> {
    world(alloc, dag, files, SureStore::new(alloc))
}

pub fn step<S: OutputStore>(
    alloc: Global,
    world: &mut World<SureDisk, S>,
    event: Event,
) -> Result<Took, AllocError> {
    world.step(alloc, event)
}

pub fn take_order<S: OutputStore>(world: &mut World<SureDisk, S>) -> Option<Order> {
    world.take_order()
}

pub fn report_of(alloc: Global, order: Order) -> Report {
    work(alloc, order)
}

/// The report of the next order, or else the master's own next event.
pub fn next<S: OutputStore>(alloc: Global, world: &mut World<SureDisk, S>) -> Option<Event> {
    match take_order(world) {
        Some(order) => Some(Event::Report(report_of(alloc, order))),
        None => world.next(),
    }
}

/// Drives a world to its end: orders are worked at once.
pub fn finish<S: OutputStore>(
    alloc: Global,
    world: &mut World<SureDisk, S>,
) -> Result<Verdict, Fail> {
    for _turn in 0..1000 {
        let Some(event) = next(alloc, world) else {
            return Err(Fail::new("nothing is next"));
        };
        if let Took::Ended(verdict) = step(alloc, world, event)? {
            return Ok(verdict);
        }
    }
    Err(Fail::new("no end"))
}

fn is_success(verdict: &Verdict, sum: (u64, u64)) -> bool {
    match verdict {
        Verdict::Succeeded(sums) => sums.len() == 1 && sums[0] == sum,
        _ => false,
    }
}

/// What a world has published under the name `out`, and the text of its trace.
fn closed(
    rt: &impl Abort,
    alloc: Global,
    world: World<SureDisk, SureStore>,
) -> Result<(Bytes, Vec<u8>), Fail> {
    let (_disk, store, trace) = world.close();
    assert_eq!(rt; store.publications().len(), 1);
    let (name, bytes) = &store.publications()[0];
    assert_eq!(rt; name.as_str(), "out");
    Ok((
        Bytes::new(bytes.as_slice().to_vec(alloc)?),
        trace_text(alloc, &trace)?,
    ))
}

/// Goes on to the end: success with this sink of so many records, and a trace that has these lines.
pub fn ends_with(
    rt: &impl Abort,
    alloc: Global,
    mut world: World<SureDisk, SureStore>,
    records: u64,
    sink: &str,
    lines: &str,
) -> Result<(), Fail> {
    let verdict = finish(alloc, &mut world)?;
    assert!(rt; is_success(&verdict, (records, sink.len() as u64)));
    let (bytes, text) = closed(rt, alloc, world)?;
    assert_eq!(rt; bytes.as_slice(), sink.as_bytes());
    assert!(rt; contains(&text, lines.as_bytes()));
    Ok(())
}
