ghost use Rattle.std.specs.Prelude.{◌≡◌, ◌≢◌, ◌+◌, ◌*◌, ◌^◌, ◌<◌, ◌≤◌, [], ◌∷◌, ◌++◌, length, IfOk, OnOk, take, drop, MatchOption, All, Some};
ghost use Rattle.std.specs.List.{flat_map};
ghost use Rattle.std.specs.Int.{w16, w32, w64, to_le_bytes};
ghost use Rattle.tez_ids.specs.Fixed.{fixed, FitsFixed};
ghost use Rattle.tez_events.specs.Body.{body, HasBody, FitsRecord, FitsPair, AreBytes, Reads, pair_bytes, sums_bytes};

use crate::{JournalRecord, Sums};
use std::alloc::{AllocError, Global};
use tez_ids::{AttemptId, Bytes, Epoch, VertexId, read_fixed, u16_at, u32_at, u64_at, write_fixed};

const SUBMITTED: u8 = 1;

const OPENED: u8 = 2;

const CONFIGURED: u8 = 3;

const TASK_SUCCEEDED: u8 = 4;

const ATTEMPT_FAILED: u8 = 5;

const COMMIT_STARTED: u8 = 6;

const FINISHED: u8 = 7;

const VERSION: u8 = 8;

const SINK_PUBLISHED: u8 = 9;

// The one version that a record tells.
const SECOND: u8 = 2;

/// The body of a record. It begins with a byte that tells the kind.
pub fn encode(alloc: Global, r: &JournalRecord) -> Result<Vec<u8>, AllocError>
    requires { HasBody r.now }
    ensures bytes { IfOk result (λ bytes. bytes.items ≡ body r.now) }
    ensures fits { IfOk result (λ bytes. FitsRecord r.now) }
{
    match r {
        JournalRecord::Submitted { text } => tagged(alloc, SUBMITTED, text.as_slice()),
        JournalRecord::Opened { epoch } => tagged(alloc, OPENED, &epoch.0.to_le_bytes()),
        JournalRecord::Configured {
            vertex,
            tasks,
            base,
        } => configured_bytes(alloc, *vertex, *tasks, *base),
        JournalRecord::TaskSucceeded { attempt } => {
            attempt_bytes(alloc, TASK_SUCCEEDED, *attempt)
        }
        JournalRecord::AttemptFailed { attempt } => {
            attempt_bytes(alloc, ATTEMPT_FAILED, *attempt)
        }
        JournalRecord::CommitStarted { sums } => commit_bytes(alloc, sums.as_slice()),
        JournalRecord::Finished => tagged(alloc, FINISHED, &[]),
        JournalRecord::Version => tagged(alloc, VERSION, &[SECOND]),
        JournalRecord::SinkPublished { vertex } => {
            tagged(alloc, SINK_PUBLISHED, &vertex.0.to_le_bytes())
        }
    }
}

fn tagged(alloc: Global, tag: u8, rest: &[u8]) -> Result<Vec<u8>, AllocError>
    ensures bytes { IfOk result (λ bytes. bytes.items ≡ tag ∷ rest.now) }
    ensures fits { AreBytes rest.now }
{
    let mut bytes = Vec::new(alloc);
    bytes.push(tag)?;
    bytes.extend_from_slice(rest)?;
    Ok(bytes)
}

fn configured_bytes(
    alloc: Global,
    vertex: VertexId,
    tasks: u32,
    base: u32,
) -> Result<Vec<u8>, AllocError>
    ensures bytes { IfOk result (λ bytes. bytes.items ≡ 3 ∷ (to_le_bytes w16 vertex.0 ++ to_le_bytes w32 tasks ++ to_le_bytes w32 base)) }
    ensures fits { (vertex.0 < 2 ^ 16) × (tasks < 2 ^ 32) × (base < 2 ^ 32) }
{
    let mut bytes = tagged(alloc, CONFIGURED, &vertex.0.to_le_bytes())?;
    bytes.extend_from_slice(&tasks.to_le_bytes())?;
    bytes.extend_from_slice(&base.to_le_bytes())?;
    Ok(bytes)
}

fn attempt_bytes(alloc: Global, tag: u8, attempt: AttemptId) -> Result<Vec<u8>, AllocError>
    ensures bytes { IfOk result (λ bytes. bytes.items ≡ tag ∷ fixed attempt) }
    ensures fits { FitsFixed attempt }
{
    let mut bytes = [0; 22];
    write_fixed(attempt, &mut bytes);
    tagged(alloc, tag, &bytes)
}

fn commit_bytes(alloc: Global, sums: &[(u64, u64)]) -> Result<Vec<u8>, AllocError>
    requires { length sums.now < 2 ^ 16 }
    ensures bytes { IfOk result (λ bytes. bytes.items ≡ 6 ∷ sums_bytes sums.now) }
    ensures fits { IfOk result (λ bytes. All FitsPair sums.now) }
{
    let count = sums.len() as u16;
    let mut bytes = tagged(alloc, COMMIT_STARTED, &count.to_le_bytes())?;
    for pair in sums {
        push_pair(&mut bytes, *pair)?;
    }
    Ok(bytes)
}

fn push_pair(bytes: &mut Vec<u8>, pair: (u64, u64)) -> Result<(), AllocError>
    ensures bytes { OnOk result (bytes.new.items ≡ bytes.old.items ++ pair_bytes pair) }
    ensures fits { FitsPair pair }
{
    bytes.extend_from_slice(&pair.0.to_le_bytes())?;
    bytes.extend_from_slice(&pair.1.to_le_bytes())?;
    Ok(())
}

/// The record whose body these bytes are, None where they are the body of no record.
pub fn decode(alloc: Global, bytes: &[u8]) -> Result<Option<JournalRecord>, AllocError>
    ensures reads { IfOk result (Reads bytes.now) }
    ensures inverse { (r : JournalRecord) → FitsRecord r → bytes.now ≡ body r → IfOk result (λ found. found ≡ Some r) }
{
    let Some((tag, rest)) = bytes.split_first() else {
        return Ok(None);
    };
    match *tag {
        SUBMITTED => submitted(alloc, rest),
        OPENED => Ok(opened(rest)),
        CONFIGURED => Ok(configured(rest)),
        TASK_SUCCEEDED => Ok(task_succeeded(rest)),
        ATTEMPT_FAILED => Ok(attempt_failed(rest)),
        COMMIT_STARTED => commit_started(alloc, rest),
        FINISHED => Ok(finished(rest)),
        VERSION => Ok(version(rest)),
        SINK_PUBLISHED => Ok(sink_published(rest)),
        _ => Ok(None),
    }
}

fn submitted(alloc: Global, rest: &[u8]) -> Result<Option<JournalRecord>, AllocError>
    ensures { IfOk result (Reads (1 ∷ rest.now)) }
{
    if rest.len() >= 1 << 23 {
        return Ok(None);
    }
    let text = Bytes::new(Vec::from_slice(alloc, rest)?);
    Ok(Some(JournalRecord::Submitted { text }))
}

fn opened(rest: &[u8]) -> Option<JournalRecord>
    ensures { Reads (2 ∷ rest.now) result }
{
    if rest.len() != 8 {
        return None;
    }
    Some(JournalRecord::Opened {
        epoch: Epoch(u64_at(rest, 0)),
    })
}

fn configured(rest: &[u8]) -> Option<JournalRecord>
    ensures { Reads (3 ∷ rest.now) result }
{
    if rest.len() != 10 {
        return None;
    }
    Some(JournalRecord::Configured {
        vertex: VertexId(u16_at(rest, 0)),
        tasks: u32_at(rest, 2),
        base: u32_at(rest, 6),
    })
}

fn task_succeeded(rest: &[u8]) -> Option<JournalRecord>
    ensures { Reads (4 ∷ rest.now) result }
{
    let attempt = attempt_of(rest)?;
    Some(JournalRecord::TaskSucceeded { attempt })
}

fn attempt_failed(rest: &[u8]) -> Option<JournalRecord>
    ensures { Reads (5 ∷ rest.now) result }
{
    let attempt = attempt_of(rest)?;
    Some(JournalRecord::AttemptFailed { attempt })
}

fn attempt_of(rest: &[u8]) -> Option<AttemptId>
    ensures { MatchOption result (length rest.now ≢ 22) (λ a. FitsFixed a × (fixed a ≡ rest.now)) }
{
    if rest.len() != 22 {
        return None;
    }
    let mut bytes = [0; 22];
    bytes.copy_from_slice(rest);
    Some(read_fixed(&bytes))
}

fn commit_started(alloc: Global, rest: &[u8]) -> Result<Option<JournalRecord>, AllocError>
    ensures { IfOk result (Reads (6 ∷ rest.now)) }
{
    if rest.len() < 2 {
        return Ok(None);
    }
    let count = u16_at(rest, 0) as usize;
    let pairs = &rest[2..];
    if pairs.len() != 16 * count {
        return Ok(None);
    }
    let sums = Sums::new(pairs_of(alloc, pairs, count)?);
    Ok(Some(JournalRecord::CommitStarted { sums }))
}

fn pairs_of(alloc: Global, bytes: &[u8], count: usize) -> Result<Vec<(u64, u64)>, AllocError>
    requires few { count < 2 ^ 16 }
    requires whole { length bytes.now ≡ 16 * count }
    ensures len { IfOk result (λ pairs. length pairs.items ≡ count) }
    ensures fits { IfOk result (λ pairs. All FitsPair pairs.items) }
    ensures bytes { IfOk result (λ pairs. flat_map pair_bytes pairs.items ≡ bytes.now) }
{
    let mut pairs = Vec::with_capacity(alloc, count)?;
    for i in 0..count {
        pairs.push(pair_at(bytes, 16 * i))?;
    }
    Ok(pairs)
}

fn pair_at(bytes: &[u8], at: usize) -> (u64, u64)
    requires { at + 16 ≤ length bytes.now }
    ensures fits { FitsPair result }
    ensures bytes { pair_bytes result ≡ take 16 (drop at bytes.now) }
{
    (u64_at(bytes, at), u64_at(bytes, at + 8))
}

fn finished(rest: &[u8]) -> Option<JournalRecord>
    ensures { Reads (7 ∷ rest.now) result }
{
    if !rest.is_empty() {
        return None;
    }
    Some(JournalRecord::Finished)
}

fn version(rest: &[u8]) -> Option<JournalRecord>
    ensures { Reads (8 ∷ rest.now) result }
{
    if rest.len() != 1 || rest[0] != SECOND {
        return None;
    }
    Some(JournalRecord::Version)
}

fn sink_published(rest: &[u8]) -> Option<JournalRecord>
    ensures { Reads (9 ∷ rest.now) result }
{
    if rest.len() != 2 {
        return None;
    }
    Some(JournalRecord::SinkPublished {
        vertex: VertexId(u16_at(rest, 0)),
    })
}

/// The body of the record that a sink is published. Takes no memory.
pub fn sink_published_body(vertex: VertexId) -> [u8; 3]
    ensures { result ≡ body (JournalRecord.SinkPublished vertex) }
{
    let [low, high] = vertex.0.to_le_bytes();
    [SINK_PUBLISHED, low, high]
}
