//! A commit over a store whose calls fail and stop.
use std::alloc::Global;
use std::process::Abort;
use std::test::Fail;
use tez_commit::{Prepared, prepare, publish_next};
use tez_ids::{AttemptId, Bytes, Epoch, Name, TaskId, VertexId};
use tez_ports::{DeviceStop, OutputStore, StoreFault};
use tez_ports_mem::MemStore;

fn attempt(index: u32, number: u64) -> AttemptId {
    AttemptId {
        epoch: Epoch(1),
        task: TaskId {
            vertex: VertexId(0),
            index,
        },
        number,
    }
}

const MERGED: &str = "a\t1\nb\nb\nc\t2\n";

// Two tasks, the first of which has a second attempt.
fn stages(rt: &impl Abort, store: &mut impl OutputStore) {
    assert_eq!(rt; store.stage(attempt(0, 0), b"lost\n"), Ok(()));
    assert_eq!(rt; store.stage(attempt(0, 1), b"a\t1\nb\n"), Ok(()));
    assert_eq!(rt; store.stage(attempt(1, 0), b"b\nc\t2\n"), Ok(()));
}

fn shows(rt: &impl Abort, publications: &[(Name, Bytes)]) {
    assert_eq!(rt; publications.len(), 1);
    assert_eq!(rt; publications[0].0.as_str(), "out");
    assert_eq!(rt; publications[0].1.as_slice(), MERGED.as_bytes());
}

fn prepares(alloc: Global, store: &mut impl OutputStore) -> Result<Prepared, StoreFault> {
    prepare(alloc, store, &[attempt(1, 0), attempt(0, 1)], "out")
}

const COUNTS: Prepared = Prepared {
    records: 4,
    bytes: 12,
};

#[test]
fn each_call_may_fail_or_stop(rt: HostRuntime) -> Result<(), Fail> {
    let alloc = rt.alloc();
    let fail = [4u64, 9, 16].to_vec(alloc)?;
    let stop = [6u64, 12, 18].to_vec(alloc)?;
    let mut store = MemStore::new(fail, stop, alloc);
    stages(&rt, &mut store);
    let prepared = [
        Err(StoreFault::Failed),
        Err(StoreFault::Stopped),
        Err(StoreFault::Failed),
        Err(StoreFault::Stopped),
        Ok(COUNTS),
    ];
    for want in prepared {
        assert_eq!(rt; prepares(alloc, &mut store), want);
    }
    let published = [
        ("out", DeviceStop::Failed),
        ("none", DeviceStop::Failed),
        ("out", DeviceStop::Stopped),
    ];
    for (sink, want) in published {
        assert_eq!(rt; publish_next(&mut store, sink), Err(want));
    }
    shows(&rt, store.publications());
    Ok(())
}
