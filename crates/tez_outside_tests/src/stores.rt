//! Files and stores in memory, whose listed calls fail or stop.
use std::alloc::Global;
use std::test::Fail;
use tez_ids::{AttemptId, Bytes, Epoch, Name, TaskId, VertexId};
use tez_ports::{DeviceStop, InputFiles, OutputStore, ReadFault, StoreFault};
use tez_ports_mem::{MemFiles, MemStore};

fn entries(alloc: Global, texts: &[(&str, &str)]) -> Result<Vec<(Name, Bytes)>, Fail> {
    let mut entries = Vec::new(alloc);
    for text in texts {
        entries.push((
            Name::copy_of(alloc, text.0)?,
            Bytes::new(text.1.as_bytes().to_vec(alloc)?),
        ))?;
    }
    Ok(entries)
}

// What a read of at most so many bytes gives.
type Read = (&'static str, u64, Result<&'static str, ReadFault>);

#[test]
fn reads_files(rt: HostRuntime) -> Result<(), Fail> {
    let alloc = rt.alloc();
    let texts = [("a", "one"), ("b", ""), ("a", "two")];
    let rows: [Read; 6] = [
        ("a", 3, Ok("one")),
        ("a", 2, Err(ReadFault::TooLarge)),
        ("b", 0, Ok("")),
        ("c", 9, Err(ReadFault::Missing)),
        ("a", 3, Err(ReadFault::Failed)),
        ("a", 3, Ok("one")),
    ];
    let mut files = MemFiles::new(entries(alloc, &texts)?, [5u64].to_vec(alloc)?, alloc);
    for (name, most, want) in rows {
        match files.read(alloc, name, most) {
            Ok(bytes) => {
                assert_eq!(rt;
                    Some(bytes.as_slice()),
                    want.ok().map(|text| text.as_bytes())
                )
            }
            Err(fault) => assert_eq!(rt; Some(fault), want.err(), "{name}"),
        }
    }
    Ok(())
}

const ATTEMPT: AttemptId = AttemptId {
    epoch: Epoch(1),
    task: TaskId {
        vertex: VertexId(0),
        index: 0,
    },
    number: 0,
};

/// One call of a store for the attempt or the sink `s`.
#[derive(Clone, Copy)]
enum Call {
    Stage(&'static str),
    Ready(&'static str),
    Publish,
    Purge,
}

fn stop_of(fault: StoreFault) -> Option<DeviceStop> {
    match fault {
        StoreFault::Failed => Some(DeviceStop::Failed),
        StoreFault::Stopped => Some(DeviceStop::Stopped),
        StoreFault::NoMemory => None,
    }
}

fn make<S: OutputStore>(store: &mut S, call: Call) -> Option<DeviceStop> {
    match call {
        Call::Stage(text) => store
            .stage(ATTEMPT, text.as_bytes())
            .err()
            .and_then(stop_of),
        Call::Ready(text) => store.ready("s", text.as_bytes()).err().and_then(stop_of),
        Call::Publish => store.publish("s").err(),
        Call::Purge => store.purge().err(),
    }
}

fn loaded(alloc: Global, store: &mut impl OutputStore) -> Option<Bytes> {
    store.load(alloc, ATTEMPT).ok().map(Bytes::new)
}

#[test]
fn publishes_readied_sinks(rt: HostRuntime) -> Result<(), Fail> {
    let alloc = rt.alloc();
    let rows = [
        (Call::Stage("old"), None),
        (Call::Stage("new"), None),
        (Call::Ready("x"), None),
        (Call::Publish, Some(DeviceStop::Failed)),
        (Call::Ready("ab"), None),
        (Call::Publish, Some(DeviceStop::Stopped)),
        (Call::Publish, Some(DeviceStop::Failed)),
        (Call::Purge, Some(DeviceStop::Stopped)),
    ];
    let mut store = MemStore::new([4u64].to_vec(alloc)?, [6u64, 8].to_vec(alloc)?, alloc);
    for (call, want) in rows {
        assert_eq!(rt; make(&mut &mut store, call), want);
    }
    assert_eq!(rt; store.publications().len(), 1);
    assert_eq!(rt; store.publications()[0].1.as_slice(), b"ab".as_slice());
    Ok(())
}

#[test]
fn keeps_the_last_text_that_was_staged(rt: HostRuntime) -> Result<(), Fail> {
    let alloc = rt.alloc();
    let mut store = MemStore::new(Vec::new(alloc), Vec::new(alloc), alloc);
    for text in ["old", "new"] {
        assert_eq!(rt; make(&mut store, Call::Stage(text)), None);
        let bytes = loaded(alloc, &mut store).expect(&rt, "the text");
        assert_eq!(rt; bytes.as_slice(), text.as_bytes());
    }
    assert_eq!(rt; make(&mut store, Call::Purge), None);
    assert!(rt; loaded(alloc, &mut store).is_none());
    Ok(())
}
