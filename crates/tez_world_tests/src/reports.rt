//! Reports that come more than once, or early, and a store that fails.
use crate::worlds::{
    COUNTS, WC, WORDS, ends_with, finish, report_of, step, sure_world, take_order, world,
};
use std::alloc::{AllocError, Global};
use std::test::Fail;
use tez_master_model::Why;
use tez_orders::Order;
use tez_ports_mem::{MemStore, SureDisk, SureStore};
use tez_world::{Device, Event, Took, Verdict, World};

/// Four source tasks, a line each, and eight partitions that may be gathered by fewer tasks.
const SHRINKS: &str =
    "{\"name\":\"shrinks\",\"vertices\":[{\"name\":\"src\",\"tasks\":4,\"source\":\"in.txt\",\"head\":{\"op\":\"each\"}},{\"name\":\"agg\",\"tasks\":8,\"head\":{\"op\":\"count\"},\"sink\":\"out\"}],\"edges\":[{\"from\":\"src\",\"to\":\"agg\",\"movement\":\"SCATTER_GATHER\",\"keys\":[0]}],\"conf\":{\"auto_parallel\":true,\"desired_bytes\":10}}";

/// The first two lines have 6 and 24 bytes.
const SHRINKS_LINES: &str = "first\nsecond-has-many-letters\nc\nd\n";

/// Takes the master's own events until it waits for reports.
fn wait_for_reports(alloc: Global, world: &mut World<SureDisk, SureStore>) -> Result<(), Fail> {
    for _turn in 0..1000 {
        let Some(event) = world.next() else {
            return Ok(());
        };
        step(alloc, world, event)?;
    }
    Err(Fail::new("no end"))
}

/// Reports the first so many orders.
fn report(alloc: Global, world: &mut World<SureDisk, SureStore>, reports: u32) -> Result<(), Fail> {
    for _report in 0..reports {
        let Some(order) = take_order(world) else {
            return Err(Fail::new("no order is out"));
        };
        step(alloc, world, Event::Report(report_of(alloc, order)))?;
    }
    Ok(())
}

#[test]
fn the_first_reports_shrink_a_vertex(rt: HostRuntime) -> Result<(), Fail> {
    let alloc = rt.alloc();
    let sink = "c\t1\nd\t1\nfirst\t1\nsecond-has-many-letters\t1\n";
    for (reports, line) in [(1, "\nconfig 1 4 2\n"), (2, "\nconfig 1 8 1\n")] {
        let mut world = sure_world(alloc, SHRINKS, &[("in.txt", SHRINKS_LINES)])?;
        wait_for_reports(alloc, &mut world)?;
        report(alloc, &mut world, reports)?;
        wait_for_reports(alloc, &mut world)?;
        ends_with(&rt, alloc, world, 4, sink, line)?;
    }
    Ok(())
}

/// An order's report three times.
fn thrice(alloc: Global, order: Order) -> Result<Vec<Event>, AllocError> {
    let (again, once_more) = (order.copy(alloc)?, order.copy(alloc)?);
    let mut events = Vec::new(alloc);
    events.push(Event::Report(report_of(alloc, order)))?;
    events.push(Event::Report(report_of(alloc, again)))?;
    events.push(Event::Report(report_of(alloc, once_more)))?;
    Ok(events)
}

fn is_taken_once(tooks: &[Took]) -> bool {
    match tooks {
        [
            Took::Changed,
            Took::Ignored(Why::AttemptEnded),
            Took::Ignored(Why::AttemptEnded),
        ] => true,
        _ => false,
    }
}

fn drive(
    alloc: Global,
    world: &mut World<SureDisk, SureStore>,
    events: Vec<Event>,
) -> Result<Vec<Took>, AllocError> {
    world.drive(alloc, events)
}

#[test]
fn a_report_is_taken_once(rt: HostRuntime) -> Result<(), Fail> {
    let alloc = rt.alloc();
    let mut world = sure_world(alloc, WC, &WORDS)?;
    for _order in 0..2 {
        wait_for_reports(alloc, &mut world)?;
        let order = take_order(&mut world).expect(&rt, "an order");
        let tooks = drive(alloc, &mut world, thrice(alloc, order)?)?;
        assert!(rt; is_taken_once(&tooks));
    }
    ends_with(&rt, alloc, world, 2, COUNTS, "done 1.0.1.0\n")
}

#[test]
fn a_stage_that_fails_ends_the_run(rt: HostRuntime) -> Result<(), Fail> {
    let alloc = rt.alloc();
    let store = MemStore::new([2].to_vec(alloc)?, Vec::new(alloc), alloc);
    let mut world = world(alloc, WC, &WORDS, store)?;
    let verdict = finish(alloc, &mut world)?;
    assert!(rt; matches!(verdict, Verdict::DeviceFault(Device::Store)));
    let (_disk, store, _trace) = world.close();
    assert_eq!(rt; store.publications().len(), 0);
    Ok(())
}
