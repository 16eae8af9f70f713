ghost use Rattle.std.specs.Prelude.{◌≡◌, ◌≢◌, ◌<◌, ◌^◌, Some, true, false, length, slice_get, IfOk, IfSome, MatchOption};
ghost use Rattle.tez_journal.specs.Reading.{ReadsText, ReadsGated, ReadsEntry, IsFramed, IsNotFramed};

use std::alloc::{AllocError, Global};
use tez_events::{JournalRecord, decode};
use tez_ids::u32_at;

/// The records of a journal, and the place of its last gate, behind which the next entry goes.
#[derive(Drop)]
pub struct Text {
    pub records: Vec<JournalRecord>,
    pub gate: usize,
}

/// A record and the length of its entry in bytes.
#[derive(Drop)]
pub struct Entry {
    pub record: JournalRecord,
    pub len: usize,
}

/// The records of a journal, or None where the bytes are no journal.
#[tactic(auto, using(crate::proofs::TextLemmas::text_from_gated, crate::proofs::TextLemmas::text_of_none))]
pub fn read_text(alloc: Global, bytes: &[u8]) -> Result<Option<Text>, AllocError>
    ensures { IfOk result (ReadsText bytes.now) }
{
    if bytes.len() <= 1 {
        return Ok(Some(Text {
            records: Vec::new(alloc),
            gate: 0,
        }));
    }
    let found = read_gated(alloc, bytes)?;
    Ok(found)
}

fn read_gated(alloc: Global, bytes: &[u8]) -> Result<Option<Text>, AllocError>
    requires { 0 < length bytes.now }
    ensures { IfOk result (ReadsGated bytes.now) }
{
    let mut records = Vec::new(alloc);
    let mut rest = bytes;
    while is_open(rest) {
        match read_entry(alloc, rest)? {
            Some(entry) => {
                records.push(entry.record)?;
                rest = &rest[entry.len..];
            }
            None => return Ok(None),
        }
    }
    let gate = bytes.len() - rest.len();
    Ok(Some(Text { records, gate }))
}

// Whether the gate at the front is open.
fn is_open(rest: &[u8]) -> bool
    requires { 0 < length rest.now }
    ensures open { result ≡ true → slice_get rest.now 0 ≡ Some 1 }
    ensures closed { result ≡ false → slice_get rest.now 0 ≢ Some 1 }
{
    rest[0] == 1
}

// The entry at the front of the bytes, with a byte behind it.
fn read_entry(alloc: Global, bytes: &[u8]) -> Result<Option<Entry>, AllocError>
    requires { slice_get bytes.now 0 ≡ Some 1 }
    ensures { IfOk result (ReadsEntry bytes.now) }
{
    let Some(body) = body_of(bytes) else {
        return Ok(None);
    };
    match decode(alloc, body)? {
        Some(record) => Ok(Some(Entry {
            record,
            len: 5 + body.len(),
        })),
        None => Ok(None),
    }
}

// The body of the entry at the front.
#[tactic(auto, using(crate::proofs::EntryLemmas::not_short, crate::proofs::EntryLemmas::not_cut, crate::proofs::EntryLemmas::is_framed))]
fn body_of(bytes: &[u8]) -> Option<&[u8]>
    ensures frame { MatchOption result (IsNotFramed bytes.now) (λ b. IsFramed bytes.now b.now) }
    ensures short { IfSome result (λ b. length b.now < 2 ^ 32) }
{
    if bytes.len() < 5 {
        return None;
    }
    let len = u32_at(bytes, 1) as usize;
    let rest = &bytes[5..];
    if rest.len() <= len {
        return None;
    }
    Some(&rest[..len])
}
