// The lines of entries, read back.
ghost use Rattle.std.specs.Prelude.{◌≡◌, ◌⊎◌, ◌+◌, ℕ, List, IfOk, IsErrOf, MatchResult, length};
ghost use Rattle.tez_events.specs.declared.Entry.{Entry};
ghost use Rattle.tez_trace.specs.declared.read.TraceFault.TheVariants.{Line, NoMemory};
ghost use Rattle.tez_trace.specs.Reading.{HasText, IsLineOf, IsRefusedAt};
ghost use Rattle.tez_trace.specs.Said.{after, at, before, cause_of, long, of_attempt, of_end, of_job, of_vertex};
ghost use Rattle.tez_trace.specs.Said.{of_work, piece, read_entry, read_task, short, split, stop_of, upto, wide, word};

use crate::write::push_entry;
use memchr::memchr;
use std::alloc::{AllocError, Global};
use tez_events::{Entry, KillCause, StopCause, Trace};
use tez_ids::{AttemptId, ContainerId, EdgeId, Epoch, TaskId, VertexId};
use thiserror::Error;

/// Why bytes were not read as the text of a trace.
#[derive(Clone, Copy, Debug, PartialEq, Eq, Error)]
pub enum TraceFault {
    /// This line, counted from 1, is that of no entry and not `end`, or it is not there.
    #[error("line {line}")]
    Line { line: u64 },
    #[error("no memory")]
    NoMemory,
}

/// The trace whose text the bytes begin with. What follows the line `end` is not read. Linear in the
/// bytes.
pub fn read_trace(alloc: Global, bytes: &[u8]) -> Result<Trace, TraceFault>
    ensures text { IfOk result (λ t. HasText bytes.now t.entries) }
    ensures refused { (n : ℕ) → IsErrOf result (Line n) → IsRefusedAt bytes.now n }
    ensures whole { (es : List Entry) → HasText bytes.now es → MatchResult result (λ t. t.entries ≡ es) (λ f. f ≡ NoMemory) }
    ensures line { (n : ℕ) → IsRefusedAt bytes.now n → MatchResult result (λ t. ⊥) (λ f. (f ≡ Line n) ⊎ (f ≡ NoMemory)) }
{
    read_lines(alloc, bytes)
}

fn read_lines(alloc: Global, bytes: &[u8]) -> Result<Trace, TraceFault>
    ensures text { IfOk result (λ t. HasText bytes.now t.entries) }
    ensures refused { (n : ℕ) → IsErrOf result (Line n) → IsRefusedAt bytes.now n }
{
    let mut trace = Trace::new(alloc);
    let mut buffer = String::new(alloc);
    let mut rest = bytes;
    while let Some(end) = memchr(b'\n', rest) {
        let line = &rest[..end];
        if line == b"end".as_slice() {
            return Ok(trace);
        }
        match entry_at(&mut buffer, line) {
            Err(_) => return Err(TraceFault::NoMemory),
            Ok(None) => return Err(refused(&trace)),
            Ok(Some(entry)) => {
                if trace.reserve(1).is_err() {
                    return Err(TraceFault::NoMemory);
                }
                trace.push(entry);
            }
        }
        rest = &rest[end + 1..];
    }
    Err(refused(&trace))
}

/// The line after those that were read.
fn refused(trace: &Trace) -> TraceFault
    ensures { result ≡ Line (length trace.now.entries + 1) }
{
    let entries = trace.entries();
    TraceFault::Line {
        line: entries.len() as u64 + 1,
    }
}

/// The entry whose line this is. The line of what was read from it is written into the buffer and has
/// to be the same: so nothing that is written in another way is taken, as a number with a leading zero.
fn entry_at(buffer: &mut String, line: &[u8]) -> Result<Option<Entry>, AllocError>
    ensures { IfOk result (IsLineOf line.now) }
{
    let Some(entry) = said(line) else {
        return Ok(None);
    };
    buffer.clear();
    push_entry(buffer, entry)?;
    if buffer.as_bytes() == line {
        Ok(Some(entry))
    } else {
        Ok(None)
    }
}

/// What a line says, if it is the line of an entry, and else any entry or none.
fn said(line: &[u8]) -> Option<Entry>
    ensures { result ≡ read_entry line.now }
{
    let (first, words) = cut(line, b' ');
    if let Some(entry) = of_attempt(first, words) {
        return Some(entry);
    }
    if let Some(entry) = of_vertex(first, words) {
        return Some(entry);
    }
    if let Some(entry) = of_work(first, words) {
        return Some(entry);
    }
    of_job(first, words)
}

/// An entry that is about an attempt alone.
fn of_attempt(first: &[u8], words: &[u8]) -> Option<Entry>
    ensures { result ≡ of_attempt first.now (split 32 words.now) }
{
    let a = attempt_at(words, 0);
    if first == b"kept".as_slice() {
        return Some(Entry::Kept(a));
    }
    if first == b"queue".as_slice() {
        return Some(Entry::Queued(a));
    }
    if first == b"order".as_slice() {
        return Some(Entry::Ordered(a));
    }
    if first == b"done".as_slice() {
        return Some(Entry::Succeeded(a));
    }
    if first == b"fail".as_slice() {
        return Some(Entry::Failed(a));
    }
    if first == b"outputlost".as_slice() {
        return Some(Entry::OutputLost(a));
    }
    if first == b"rerun".as_slice() {
        return Some(Entry::Rerun(a));
    }
    None
}

/// An entry that is about a vertex.
fn of_vertex(first: &[u8], words: &[u8]) -> Option<Entry>
    ensures { result ≡ of_vertex first.now (split 32 words.now) }
{
    let v = VertexId(short_at(words, b' ', 0));
    if first == b"ready".as_slice() {
        return Some(Entry::Ready(v));
    }
    if first == b"ask".as_slice() {
        return Some(Entry::Asked(v));
    }
    if first == b"settled".as_slice() {
        return Some(Entry::Settled(v));
    }
    if first == b"publish".as_slice() {
        return Some(Entry::Published(v));
    }
    let tasks = word_at(words, b' ', 1);
    let base = word_at(words, b' ', 2);
    if first == b"stands".as_slice() {
        return Some(Entry::Stands(v, tasks, base));
    }
    if first == b"config".as_slice() {
        return Some(Entry::Configured(v, tasks, base));
    }
    None
}

/// An entry that says what happens to an attempt.
fn of_work(first: &[u8], words: &[u8]) -> Option<Entry>
    ensures { result ≡ of_work first.now (split 32 words.now) }
{
    let a = attempt_at(words, 0);
    if first == b"place".as_slice() {
        let id = ContainerId(wide_at(words, b' ', 1));
        return Some(Entry::Placed(a, id, word_at(words, b' ', 2)));
    }
    let edge = EdgeId(short_at(words, b' ', 1));
    if first == b"made".as_slice() {
        return Some(Entry::Made(a, edge, long_at(words, b' ', 2)));
    }
    if first == b"kill".as_slice() {
        return Some(Entry::Killed(a, cause_of(piece(words, b' ', 1))));
    }
    let input = word_at(words, b' ', 2);
    let source = attempt_at(words, 3);
    if first == b"fetch".as_slice() {
        return Some(Entry::Fetched(a, edge, input, source));
    }
    if first == b"readerror".as_slice() {
        return Some(Entry::ReadError(a, edge, input, source));
    }
    if first == b"inputfailed".as_slice() {
        return Some(Entry::InputFailed(a, edge, input, source));
    }
    None
}

/// An entry that is about the job, its masters or a node.
fn of_job(first: &[u8], words: &[u8]) -> Option<Entry>
    ensures { result ≡ of_job first.now (split 32 words.now) }
{
    if first == b"open".as_slice() {
        return Some(Entry::Opened(Epoch(long_at(words, b' ', 0))));
    }
    if first == b"over".as_slice() {
        return Some(Entry::Over);
    }
    if first == b"carried".as_slice() {
        return Some(Entry::Carried(task_at(words, 0), long_at(words, b' ', 1)));
    }
    if first == b"committing".as_slice() {
        return Some(Entry::Committing(long_at(words, b' ', 0)));
    }
    if first == b"nodelost".as_slice() {
        let slot = short_at(words, b' ', 0);
        return Some(Entry::NodeLost(slot, long_at(words, b' ', 1)));
    }
    if first == b"stop".as_slice() {
        return Some(Entry::Stopped(stop_of(piece(words, b' ', 0))));
    }
    of_end(first)
}

/// An entry of the job's end.
fn of_end(first: &[u8]) -> Option<Entry>
    ensures { result ≡ of_end first.now }
{
    if first == b"commit".as_slice() {
        return Some(Entry::CommitStarted);
    }
    if first == b"finish".as_slice() {
        return Some(Entry::Finished);
    }
    if first == b"purge".as_slice() {
        return Some(Entry::Purged);
    }
    None
}

fn cause_of(text: &[u8]) -> KillCause
    ensures { result ≡ cause_of text.now }
{
    if text == b"node".as_slice() {
        KillCause::Node
    } else {
        KillCause::Preempt
    }
}

fn stop_of(text: &[u8]) -> StopCause
    ensures { result ≡ stop_of text.now }
{
    if text == b"script".as_slice() {
        StopCause::Script
    } else if text == b"disk".as_slice() {
        StopCause::Disk
    } else {
        StopCause::Store
    }
}

/// The attempt in the word at a place.
fn attempt_at(words: &[u8], i: usize) -> AttemptId
    ensures { result ≡ at (split 32 words.now) i }
{
    let text = piece(words, b' ', i);
    AttemptId {
        epoch: Epoch(long_at(text, b'.', 0)),
        task: TaskId {
            vertex: VertexId(short_at(text, b'.', 1)),
            index: word_at(text, b'.', 2),
        },
        number: long_at(text, b'.', 3),
    }
}

/// The task in the word at a place.
fn task_at(words: &[u8], i: usize) -> TaskId
    ensures { result ≡ read_task (piece (split 32 words.now) i) }
{
    let text = piece(words, b' ', i);
    TaskId {
        vertex: VertexId(short_at(text, b'.', 0)),
        index: word_at(text, b'.', 1),
    }
}

fn short_at(text: &[u8], separator: u8, i: usize) -> u16
    ensures { result ≡ short (split separator text.now) i }
{
    upto(piece(text, separator, i), u128::from(u16::MAX)) as u16
}

fn word_at(text: &[u8], separator: u8, i: usize) -> u32
    ensures { result ≡ word (split separator text.now) i }
{
    upto(piece(text, separator, i), u128::from(u32::MAX)) as u32
}

fn long_at(text: &[u8], separator: u8, i: usize) -> u64
    ensures { result ≡ long (split separator text.now) i }
{
    upto(piece(text, separator, i), u128::from(u64::MAX)) as u64
}

fn wide_at(text: &[u8], separator: u8, i: usize) -> u128
    ensures { result ≡ wide (split separator text.now) i }
{
    upto(piece(text, separator, i), u128::MAX)
}

/// The number that decimal digits write, or the limit where it is greater.
fn upto(digits: &[u8], most: u128) -> u128
    ensures { result ≡ upto most digits.now }
{
    let mut value = 0u128;
    for byte in digits {
        let digit = u128::from(byte.saturating_sub(b'0'));
        value = value.saturating_mul(10).saturating_add(digit).min(most);
    }
    value
}

/// The piece at a place, counted from 0, between separators. It is empty where there is none.
fn piece(text: &[u8], separator: u8, i: usize) -> &[u8]
    ensures { result.now ≡ piece (split separator text.now) i }
{
    let mut rest = text;
    for _passed in 0..i {
        rest = cut(rest, separator).1;
    }
    cut(rest, separator).0
}

/// What stands before the first separator, or all, and what follows it, or nothing.
fn cut(text: &[u8], separator: u8) -> (&[u8], &[u8])
    ensures before { result.0.now ≡ before separator text.now }
    ensures after { result.1.now ≡ after separator text.now }
{
    match memchr(separator, text) {
        None => (text, &[]),
        Some(at) => (&text[..at], &text[at + 1..]),
    }
}
