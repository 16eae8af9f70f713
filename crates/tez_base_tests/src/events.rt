//! Bodies of the journal's records.
use std::alloc::{AllocError, Global};
use tez_events::{JournalRecord, Sums, decode, encode};
use tez_ids::{AttemptId, Bytes, Epoch, TaskId, VertexId};

// Whether the bytes decode, and encode to themselves again.
fn is_body(alloc: Global, bytes: &[u8]) -> Result<bool, AllocError> {
    match decode(alloc, bytes)? {
        Some(record) => Ok(encode(alloc, &record)?.as_slice() == bytes),
        None => Ok(false),
    }
}

#[test]
fn records_and_bodies(rt: HostRuntime) -> Result<(), AllocError> {
    let alloc = rt.alloc();
    let attempt = AttemptId {
        epoch: Epoch(1),
        task: TaskId {
            vertex: VertexId(0),
            index: 2,
        },
        number: 3,
    };
    let text = Bytes::new(Vec::from_slice(alloc, b"{}")?);
    let sums = Sums::new(Vec::from_slice(alloc, &[(2, 258)])?);
    let rows: [(JournalRecord, &[u8]); 9] = [
        (JournalRecord::Submitted { text }, &[1, 123, 125]),
        (
            JournalRecord::Opened { epoch: Epoch(258) },
            &[2, 2, 1, 0, 0, 0, 0, 0, 0],
        ),
        (
            JournalRecord::Configured {
                vertex: VertexId(1),
                tasks: 4,
                base: 2,
            },
            &[3, 1, 0, 4, 0, 0, 0, 2, 0, 0, 0],
        ),
        (
            JournalRecord::TaskSucceeded { attempt },
            &[
                4, 1, 0, 0, 0, 0, 0, 0, 0, 0, 0, 2, 0, 0, 0, 3, 0, 0, 0, 0, 0, 0, 0,
            ],
        ),
        (
            JournalRecord::AttemptFailed { attempt },
            &[
                5, 1, 0, 0, 0, 0, 0, 0, 0, 0, 0, 2, 0, 0, 0, 3, 0, 0, 0, 0, 0, 0, 0,
            ],
        ),
        (
            JournalRecord::CommitStarted { sums },
            &[6, 1, 0, 2, 0, 0, 0, 0, 0, 0, 0, 2, 1, 0, 0, 0, 0, 0, 0],
        ),
        (JournalRecord::Finished, &[7]),
        (JournalRecord::Version, &[8, 2]),
        (
            JournalRecord::SinkPublished {
                vertex: VertexId(258),
            },
            &[9, 2, 1],
        ),
    ];
    for (record, bytes) in &rows {
        let written = encode(alloc, record)?;
        assert!(rt; written.as_slice() == *bytes);
        assert!(rt; is_body(alloc, bytes)?);
    }
    Ok(())
}

#[test]
fn other_bytes_are_no_bodies(rt: HostRuntime) -> Result<(), AllocError> {
    let others: [&[u8]; 8] = [
        &[],
        &[0],
        &[8],
        &[7, 7],
        &[2, 1],
        &[6, 1, 0],
        &[8, 1],
        &[9, 1],
    ];
    for bytes in &others {
        assert!(rt; !is_body(rt.alloc(), bytes)?);
    }
    Ok(())
}
