//! Whole calls of the program over devices in memory whose calls fail.
use std::alloc::Global;
use std::process::Abort;
use std::test::Fail;
use tez_am::{Status, am_run, am_tool, exit_code};
use tez_events::Trace;
use tez_ids::{Bytes, Name};
use tez_ports_mem::{MemFiles, MemOut, MemStore, OpenGate, Picker, SureDisk};

const ONE: &str =
    "{\"name\":\"one\",\"vertices\":[{\"name\":\"only\",\"tasks\":1,\"source\":\"in.txt\",\"head\":{\"op\":\"each\"},\"steps\":[{\"op\":\"filter\",\"field\":0,\"test\":\"contains\",\"value\":\"b\"}],\"sink\":\"kept\"}]}";

/// The files of a run: the DAG file, and its source.
fn files(alloc: Global, fail: u64) -> Result<MemFiles, Fail> {
    let mut entries = Vec::new(alloc);
    for (name, text) in [("one.json", ONE), ("in.txt", "ab\nc\nb\n")] {
        entries.push((
            Name::copy_of(alloc, name)?,
            Bytes::new(text.as_bytes().to_vec(alloc)?),
        ))?;
    }
    Ok(MemFiles::new(entries, [fail].to_vec(alloc)?, alloc))
}

/// What the program does with the words.
fn call(
    alloc: Global,
    words: &[String],
    files: &mut MemFiles,
    store: &mut MemStore,
    out: &mut MemOut,
) -> Status {
    if let Some(status) = am_tool(alloc, words, files, out) {
        return status;
    }
    let mut disk = SureDisk::new(Vec::new(alloc), Picker::Keep, alloc);
    let mut trace = Trace::new(alloc);
    am_run(
        alloc,
        words,
        files,
        store,
        &mut disk,
        out,
        &OpenGate {},
        &mut trace,
    )
}

/// A command, which calls of its devices are to fail or to be stopped, each numbered from 1, or 0 for none,
/// and what comes of it: the exit number, the output, and how many sinks are published.
#[derive(Clone, Copy)]
struct Row {
    command: &'static str,
    read: u64,
    store: u64,
    stop: u64,
    write: u64,
    exit: u8,
    text: &'static str,
    sinks: usize,
}

fn tried(rt: &impl Abort, alloc: Global, row: &Row) -> Result<(), Fail> {
    let mut words = Vec::new(alloc);
    for word in [row.command, "one.json"] {
        words.push(String::from_str(alloc, word)?)?;
    }
    let mut files = files(alloc, row.read)?;
    let mut store = MemStore::new([row.store].to_vec(alloc)?, [row.stop].to_vec(alloc)?, alloc);
    let mut out = MemOut::new([row.write].to_vec(alloc)?, alloc);
    let status = call(alloc, &words, &mut files, &mut store, &mut out);
    assert_eq!(rt; exit_code(&status), row.exit, "{}", row.text);
    assert_eq!(rt; out.bytes(), row.text.as_bytes());
    assert_eq!(rt; store.publications().len(), row.sinks);
    Ok(())
}

#[test]
fn devices_that_fail(rt: HostRuntime) -> Result<(), Fail> {
    let fine = Row {
        command: "run",
        read: 0,
        store: 0,
        stop: 0,
        write: 0,
        exit: 0,
        text: "SUCCEEDED\nsink kept records 2 bytes 5\n",
        sinks: 1,
    };
    let unread = Row {
        exit: 6,
        sinks: 0,
        ..fine
    };
    let unstored = Row {
        exit: 12,
        text: "FAILED device store\n",
        sinks: 0,
        ..fine
    };
    let rows = [
        fine,
        Row {
            read: 1,
            text: "REFUSED input fault one.json\n",
            ..unread
        },
        Row {
            read: 2,
            text: "REFUSED input fault in.txt\n",
            ..unread
        },
        Row {
            command: "check",
            read: 1,
            text: "REFUSED input fault one.json\n",
            ..unread
        },
        Row {
            command: "meaning",
            read: 2,
            text: "REFUSED input fault in.txt\n",
            ..unread
        },
        Row {
            store: 1,
            ..unstored
        },
        Row {
            store: 2,
            ..unstored
        },
        Row {
            store: 3,
            ..unstored
        },
        // asked, staged, loaded, readied and published: the store took the call, and its answer was lost
        Row {
            stop: 5,
            sinks: 1,
            ..unstored
        },
        Row {
            write: 1,
            exit: 14,
            text: "",
            ..fine
        },
        Row {
            command: "check",
            write: 1,
            exit: 14,
            text: "",
            sinks: 0,
            ..fine
        },
    ];
    for row in rows.iter() {
        tried(&rt, rt.alloc(), row)?;
    }
    Ok(())
}
