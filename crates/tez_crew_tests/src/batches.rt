//! Orders in lists, worked by containers side by side.
use std::alloc::{AllocError, Global};
use std::collections::VecDeque;
use std::test::Fail;
use tez_batch::Batch;
use tez_crew::{CrewBook, with_crew};
use tez_ids::{AttemptId, Epoch, TaskId, VertexId};
use tez_operators::{Inputs, Primary};
use tez_orders::{Order, Outcome, is_order};
use tez_plan::{Head, Program, Steps};
use tez_ports_mem::{OpenGate, PairGate};
use tez_record::lines;

fn attempt(index: u32) -> AttemptId {
    AttemptId {
        epoch: Epoch(1),
        task: TaskId {
            vertex: VertexId(0),
            index,
        },
        number: 0,
    }
}

// Two records, for no edge.
fn order_of(alloc: Global, index: u32, place: u32) -> Result<Option<Order>, AllocError> {
    let mut primary = Vec::new(alloc);
    primary.push((None, lines(alloc, b"b\na\n")?))?;
    let inputs = Inputs {
        primary: Primary::new(primary),
        side: None,
    };
    let program = Program {
        head: Head::Each,
        steps: Steps::new(Vec::new(alloc)),
    };
    let (keys, outs) = (Vec::new(alloc), Vec::new(alloc));
    if !is_order(&program, &keys, &inputs, &outs) {
        return Ok(None);
    }
    Ok(Some(Order::new(attempt(index), place, program, keys, inputs, outs)))
}

// Orders for the attempts from 0, put to the places in turn.
fn batch_of(alloc: Global, places: u32, count: u32, waits: bool) -> Result<Batch, AllocError> {
    let mut orders = VecDeque::new(alloc);
    for index in 0..count {
        let place = index.checked_rem(places).unwrap_or(0);
        if let Some(order) = order_of(alloc, index, place)? {
            orders.push_back(order)?;
        }
    }
    Ok(Batch::new(alloc, orders, waits))
}

// The attempts that the book names, in order of their tasks.
fn named(alloc: Global, book: &CrewBook) -> Result<Vec<u32>, AllocError> {
    let mut indices = Vec::new(alloc);
    for place in 0..book.places() {
        for attempt in book.put(place) {
            indices.push(attempt.task.index)?;
        }
    }
    for attempt in book.own() {
        indices.push(attempt.task.index)?;
    }
    indices.sort()?;
    Ok(indices)
}

#[test]
fn one_container_and_no_report(rt: HostRuntime) -> Result<(), Fail> {
    let alloc = rt.alloc();
    let mut batch = batch_of(alloc, 1, 3, false)?;
    let book = with_crew(&rt, alloc, 1, &OpenGate {}, &mut batch)?;
    assert_eq!(rt; book.places(), 1);
    assert_eq!(rt;
        book.put(0),
        [attempt(0), attempt(1), attempt(2)].as_slice()
    );
    assert!(rt; book.taken(0) <= 3);
    assert!(rt; book.own().is_empty());
    Ok(())
}

#[test]
fn two_containers_meet_at_a_gate(rt: HostRuntime) -> Result<(), Fail> {
    let alloc = rt.alloc();
    let gate = PairGate::new(attempt(0), attempt(1));
    let mut batch = batch_of(alloc, 2, 2, true)?;
    let book = with_crew(&rt, alloc, 2, &gate, &mut batch)?;
    assert!(rt; !gate.ran_out());
    assert_eq!(rt; (book.taken(0), book.taken(1)), (1, 1));
    assert_eq!(rt; batch.reports.len(), 2);
    for report in &batch.reports {
        match report.outcome() {
            Outcome::Done { value, .. } => assert_eq!(rt; value.text(), b"a\nb\n".as_slice()),
            Outcome::Bad(_) | Outcome::NoMemory => assert!(rt; false, "no value"),
        }
    }
    Ok(())
}

// Which orders the containers work depends on the schedule; what is named, and that all reports of
// queued orders come, does not.
#[test]
fn many_orders_over_all_places(rt: HostRuntime) -> Result<(), Fail> {
    let alloc = rt.alloc();
    let mut batch = batch_of(alloc, 64, 10_000, true)?;
    let book = with_crew(&rt, alloc, 64, &OpenGate {}, &mut batch)?;
    let indices = named(alloc, &book)?;
    assert_eq!(rt; indices.len(), 10_000);
    for (i, index) in indices.iter().enumerate() {
        assert_eq!(rt; *index as usize, i);
    }
    for place in 0..64 {
        assert_eq!(rt; book.put(place).len() as u64, book.taken(place));
    }
    assert_eq!(rt; batch.reports.len(), batch.queued.len());
    Ok(())
}
