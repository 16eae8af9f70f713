//! What the records of a finished job tell.
use std::alloc::{AllocError, Global};
use tez_events::{JournalRecord, Sums};
use tez_ids::{AttemptId, Bytes, Epoch, Name, TaskId, VertexId};
use tez_plan::{Columns, EdgeSpec, Head, Movement, Plan, PlanFault, Steps, VertexSpec};
use tez_plan_checks::{are_in_ranges, plan_new};
use tez_standing::{Phase, standing};

/// Two tasks of a source feed two tasks of a sum by key.
fn plan_of(alloc: Global) -> Result<Result<Plan, PlanFault>, AllocError> {
    let mut vertices = Vec::new(alloc);
    vertices.push(VertexSpec {
        name: Name::copy_of(alloc, "split")?,
        tasks: 2,
        source: Some(Name::copy_of(alloc, "in.txt")?),
        head: Head::Each,
        steps: Steps::new(Vec::new(alloc)),
        sink: None,
    })?;
    vertices.push(VertexSpec {
        name: Name::copy_of(alloc, "total")?,
        tasks: 2,
        source: None,
        head: Head::Sum { value: 1 },
        steps: Steps::new(Vec::new(alloc)),
        sink: Some(Name::copy_of(alloc, "counts")?),
    })?;
    let mut edges = Vec::new(alloc);
    edges.push(EdgeSpec {
        source: Name::copy_of(alloc, "split")?,
        target: Name::copy_of(alloc, "total")?,
        movement: Movement::ScatterGather {
            keys: Columns::new(Vec::from_slice(alloc, &[0])?),
        },
    })?;
    let name = Name::copy_of(alloc, "wc")?;
    if !are_in_ranges(&name, &vertices, &edges) {
        return Ok(Err(PlanFault::NoMemory));
    }
    Ok(plan_new(alloc, name, vertices, edges))
}

fn attempt(epoch: u64, vertex: u16, index: u32) -> AttemptId {
    AttemptId {
        epoch: Epoch(epoch),
        task: TaskId {
            vertex: VertexId(vertex),
            index,
        },
        number: 0,
    }
}

fn opened(epoch: u64) -> JournalRecord {
    JournalRecord::Opened {
        epoch: Epoch(epoch),
    }
}

fn configured(vertex: u16, tasks: u32, base: u32) -> JournalRecord {
    JournalRecord::Configured {
        vertex: VertexId(vertex),
        tasks,
        base,
    }
}

fn won(epoch: u64, vertex: u16, index: u32) -> JournalRecord {
    JournalRecord::TaskSucceeded {
        attempt: attempt(epoch, vertex, index),
    }
}

/// A job that was submitted, with these records after that one.
fn journal<const N: usize>(
    alloc: Global,
    records: [JournalRecord; N],
) -> Result<Vec<JournalRecord>, AllocError> {
    let text = Bytes::new(Vec::from_slice(alloc, b"{}")?);
    let mut all = Vec::new(alloc);
    all.push(JournalRecord::Submitted { text })?;
    for record in Vec::from_array(alloc, records)? {
        all.push(record)?;
    }
    Ok(all)
}

#[test]
fn a_finished_job(rt: HostRuntime) {
    let alloc = rt.alloc();
    let plan = plan_of(alloc).expect(&rt, "memory").expect(&rt, "valid");
    let sums = Vec::from_slice(alloc, &[(1, 4)]).expect(&rt, "memory");
    let failed = JournalRecord::AttemptFailed {
        attempt: attempt(1, 0, 1),
    };
    let committed = JournalRecord::CommitStarted {
        sums: Sums::new(sums),
    };
    let rows = [
        opened(1),
        configured(0, 2, 1),
        won(1, 0, 0),
        failed,
        opened(2),
        won(2, 0, 1),
        configured(1, 1, 2),
        won(2, 1, 0),
        committed,
        JournalRecord::Finished,
    ];
    let records = journal(alloc, rows).expect(&rt, "memory");
    let found = standing(alloc, &plan, &records).expect(&rt, "legal");
    assert_eq!(rt; found.epoch, 2);
    let settings = [(VertexId(0), 2, 1), (VertexId(1), 1, 2)];
    assert_eq!(rt; found.configured.as_slice(), settings.as_slice());
    let winners = [attempt(1, 0, 0), attempt(2, 0, 1), attempt(2, 1, 0)];
    assert_eq!(rt; found.winners.as_slice(), winners.as_slice());
    let failures = [(attempt(1, 0, 1).task, 1)];
    assert_eq!(rt; found.failures.as_slice(), failures.as_slice());
    let sums = match &found.phase {
        Phase::Finished(sums) => sums.as_slice(),
        _ => &[],
    };
    assert_eq!(rt; sums, [(1, 4)].as_slice());
}
