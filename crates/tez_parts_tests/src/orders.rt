//! Orders and reports, which go between threads.
use std::alloc::{AllocError, Global};
use tez_ids::{AttemptId, EdgeId, Epoch, TaskId, VertexId};
use tez_operators::{Inputs, Primary};
use tez_orders::{Cut, Order, Outcome, Report, is_order, work};
use tez_plan::{Columns, Head, Program, Steps};
use tez_record::{Records, lines};

fn attempt() -> AttemptId {
    AttemptId {
        epoch: Epoch(1),
        task: TaskId {
            vertex: VertexId(0),
            index: 2,
        },
        number: 0,
    }
}

// The records `b 1`, `a 1` and `a 1`, cut in two parts for edge 0 and whole for edge 1.
fn order(alloc: Global, parts: u32) -> Result<Option<Order>, AllocError> {
    let mut primary = Vec::new(alloc);
    primary.push((None, lines(alloc, b"b\t1\na\t1\na\t1\n")?))?;
    let inputs = Inputs {
        primary: Primary::new(primary),
        side: None,
    };
    let program = Program {
        head: Head::Each,
        steps: Steps::new(Vec::new(alloc)),
    };
    let keys = Vec::new(alloc);
    let cols = Columns::new(Vec::from_slice(alloc, &[0])?);
    let mut outs = Vec::new(alloc);
    outs.push((EdgeId(0), Cut::ByKey { cols, parts }))?;
    outs.push((EdgeId(1), Cut::Whole))?;
    if !is_order(&program, &keys, &inputs, &outs) {
        return Ok(None);
    }
    Ok(Some(Order::new(attempt(), 3, program, keys, inputs, outs)))
}

// Orders go to containers on other threads, and reports come back.
fn crosses_threads<T: Send>(value: T) -> T {
    value
}

fn is_same_as_its_copy(alloc: Global, order: &Order) -> Result<bool, AllocError> {
    let copy = crosses_threads(order.copy(alloc)?);
    Ok(order.same(&copy))
}

fn is_same_at(alloc: Global, order: &Order, place: u32) -> Result<bool, AllocError> {
    let moved = order.copy(alloc)?.at_place(place);
    Ok(order.same(&moved))
}

fn value_of(alloc: Global, report: &Report) -> Result<Option<Records>, AllocError> {
    match report.outcome() {
        Outcome::Done { value, .. } => Ok(Some(value.copy(alloc)?)),
        Outcome::Bad(_record) => Ok(None),
        Outcome::NoMemory => Ok(None),
    }
}

fn bytes_of(report: &Report) -> Option<u64> {
    match report.outcome() {
        Outcome::Done { pieces, .. } => pieces.bytes(EdgeId(0)),
        Outcome::Bad(_record) => None,
        Outcome::NoMemory => None,
    }
}

fn worked(alloc: Global, order: Order) -> Result<Report, AllocError> {
    crosses_threads(work(alloc, order)).at_place(7).copy(alloc)
}

#[test]
fn orders_and_their_copies(rt: HostRuntime) -> Result<(), AllocError> {
    let one = order(rt.alloc(), 2)?.expect(&rt, "parts that fit");
    assert!(rt; is_same_as_its_copy(rt.alloc(), &one)?);
    assert!(rt; !is_same_at(rt.alloc(), &one, 5)?);
    Ok(())
}

#[test]
fn work_gives_the_value_and_its_pieces(rt: HostRuntime) -> Result<(), AllocError> {
    let given = order(rt.alloc(), 2)?.expect(&rt, "parts that fit");
    let report = worked(rt.alloc(), given)?;
    let value = value_of(rt.alloc(), &report)?.expect(&rt, "a value");
    assert_eq!(rt; value.text(), b"a\t1\na\t1\nb\t1\n".as_slice());
    assert_eq!(rt; bytes_of(&report), Some(12));
    Ok(())
}
