//! The printed lines of a trace, and lines that are refused.
use std::alloc::Global;
use std::test::Fail;
use tez_events::{Entry, KillCause, StopCause, Trace};
use tez_ids::{AttemptId, ContainerId, Epoch, TaskId, VertexId};
use tez_trace::{TraceFault, read_trace, trace_text};

fn attempt(epoch: u64, vertex: u16, index: u32, number: u64) -> AttemptId {
    AttemptId {
        epoch: Epoch(epoch),
        task: TaskId {
            vertex: VertexId(vertex),
            index,
        },
        number,
    }
}

/// The text of the entries is their lines, then `end`, and reads back.
fn prints(alloc: Global, rows: &[(Entry, &str)]) -> Result<bool, Fail> {
    let mut trace = Trace::new(alloc);
    let mut text = String::new(alloc);
    for (entry, line) in rows {
        trace.reserve(1)?;
        trace.push(*entry);
        text.push_str(line)?;
        text.push_str("\n")?;
    }
    text.push_str("end\n")?;
    Ok(
        trace_text(alloc, &trace)?.as_slice() == text.as_bytes()
            && reads(alloc, text.as_bytes(), trace.entries()),
    )
}

/// The text is that of these entries.
fn reads(alloc: Global, text: &[u8], entries: &[Entry]) -> bool {
    match read_trace(alloc, text) {
        Ok(trace) => trace.entries() == entries,
        Err(_) => false,
    }
}

/// The line at which a text is refused, 0 where it is read.
fn refused_line(alloc: Global, text: &[u8]) -> Option<u64> {
    match read_trace(alloc, text) {
        Ok(_) => Some(0),
        Err(TraceFault::Line { line }) => Some(line),
        Err(TraceFault::NoMemory) => None,
    }
}

/// Each text is refused at its line.
fn refuses(alloc: Global, rows: &[(&str, u64)]) -> bool {
    for (text, line) in rows {
        if refused_line(alloc, text.as_bytes()) != Some(*line) {
            return false;
        }
    }
    true
}

/// The kinds of entries that few runs have, with the greatest numbers.
#[test]
fn lines_of_entries(rt: HostRuntime) -> Result<(), Fail> {
    let rows: [(Entry, &str); 12] = [
        (
            Entry::Opened(Epoch(18446744073709551615)),
            "open 18446744073709551615",
        ),
        (Entry::Over, "over"),
        (
            Entry::Stands(VertexId(65535), 4294967295, 4294967295),
            "stands 65535 4294967295 4294967295",
        ),
        (
            Entry::Carried(
                TaskId {
                    vertex: VertexId(3),
                    index: 7,
                },
                2,
            ),
            "carried 3.7 2",
        ),
        (Entry::Kept(attempt(1, 2, 3, 4)), "kept 1.2.3.4"),
        (Entry::Failed(attempt(1, 2, 3, 4)), "fail 1.2.3.4"),
        (
            Entry::Killed(attempt(1, 2, 3, 4), KillCause::Node),
            "kill 1.2.3.4 node",
        ),
        (
            Entry::NodeLost(65535, 18446744073709551615),
            "nodelost 65535 18446744073709551615",
        ),
        (
            Entry::Placed(
                attempt(1, 2, 3, 4),
                ContainerId(340282366920938463463374607431768211455),
                4294967295,
            ),
            "place 1.2.3.4 340282366920938463463374607431768211455 4294967295",
        ),
        (Entry::Stopped(StopCause::Script), "stop script"),
        (Entry::Stopped(StopCause::Disk), "stop disk"),
        (Entry::Stopped(StopCause::Store), "stop store"),
    ];
    assert!(rt; prints(rt.alloc(), rows.as_slice())?);
    Ok(())
}

/// One vertex with one task, whole, and without its end.
#[test]
fn ends_of_texts(rt: HostRuntime) -> Result<(), Fail> {
    let rows = [
        (
            "open 1\nconfig 0 1 1\nqueue 1.0.0.0\nplace 1.0.0.0 0 0\norder 1.0.0.0\ndone 1.0.0.0\nready 0\ncommit\npublish 0\nfinish\npurge\nend\n",
            0,
        ),
        (
            "open 1\nconfig 0 1 1\nqueue 1.0.0.0\nplace 1.0.0.0 0 0\norder 1.0.0.0\ndone 1.0.0.0\nready 0\ncommit\npublish 0\nfinish\npurge\n",
            12,
        ),
        ("", 1),
        ("end", 1),
        ("end\n", 0),
        ("end\nno entry\n", 0),
        ("over\nend", 2),
        ("over\n\nend\n", 2),
        ("over\nend \n", 2),
    ];
    assert!(rt; refuses(rt.alloc(), rows.as_slice()));
    Ok(())
}

/// Lines that are nearly those of entries.
#[test]
fn refused_lines(rt: HostRuntime) -> Result<(), Fail> {
    let rows = [
        ("open 01\n", 1),
        ("open +1\n", 1),
        ("open \n", 1),
        ("open 1\r\n", 1),
        ("open 18446744073709551616\n", 1),
        ("ready 65536\n", 1),
        ("nodelost 65536 0\n", 1),
        ("stands 1 4294967296 1\n", 1),
        (
            "place 1.0.0.0 340282366920938463463374607431768211456 0\n",
            1,
        ),
        ("queue 1.0.0\n", 1),
        ("queue 1.0.0.0.0\n", 1),
        ("queue  1.0.0.0\n", 1),
        ("queue 1.0.0.0 \n", 1),
        ("kill 1.0.0.0\n", 1),
        ("stop tape\n", 1),
        ("Over\n", 1),
    ];
    assert!(rt; refuses(rt.alloc(), rows.as_slice()));
    Ok(())
}
