// Bytes as a text of lines.
ghost use Rattle.std.specs.Prelude.{◌≡◌, ℕ, List, [], ◌∷◌, ◌++◌, if◌then◌else◌, is_ok, OnOk, MatchOption, length, take};
ghost use Rattle.tez_record.specs.Line.{lines};
ghost use Rattle.tez_record.specs.Field.{key};
ghost use Rattle.tez_record.specs.Block.{IsText};

use crate::fields::push_key;
use memchr::memchr;
use std::alloc::AllocError;

/// Adds a line and a line feed, or nothing.
pub fn push_line(text: &mut Vec<u8>, line: &[u8]) -> Result<(), AllocError>
    ensures { text.new.items ≡ (if is_ok result then text.old.items ++ (line.now ++ 10 ∷ []) else text.old.items) }
{
    text.try_reserve(line.len() + 1)?;
    text.extend_from_slice(line)?;
    text.push(b'\n')?;
    Ok(())
}

/// Adds two fields as a line, with a tab between them, or nothing.
pub fn push_fields_line(text: &mut Vec<u8>, left: &[u8], right: &[u8]) -> Result<(), AllocError>
    ensures { text.new.items ≡ (if is_ok result then text.old.items ++ ((left.now ++ 9 ∷ right.now) ++ 10 ∷ []) else text.old.items) }
{
    text.try_reserve((left.len() + right.len() + 1).saturating_add(1))?;
    text.extend_from_slice(left)?;
    text.push(b'\t')?;
    text.extend_from_slice(right)?;
    text.push(b'\n')?;
    Ok(())
}

/// Adds the key of a record as a line, or nothing.
pub fn push_key_line(text: &mut Vec<u8>, r: &[u8], cols: &[u16]) -> Result<(), AllocError>
    ensures { text.new.items ≡ (if is_ok result then text.old.items ++ (key cols.now r.now ++ 10 ∷ []) else text.old.items) }
{
    let start = text.len();
    let pushed = push_key_end(text, r, cols);
    if pushed.is_err() {
        text.truncate(start);
    }
    pushed
}

fn push_key_end(text: &mut Vec<u8>, r: &[u8], cols: &[u16]) -> Result<(), AllocError>
    ensures ok { OnOk result (text.new.items ≡ text.old.items ++ (key cols.now r.now ++ 10 ∷ [])) }
    ensures start { take (length text.old.items) text.new.items ≡ text.old.items }
{
    push_key(text, r, cols)?;
    text.push(b'\n')?;
    Ok(())
}

/// Adds a line feed where a last line lacks it.
pub fn push_end(bytes: &mut Vec<u8>) -> Result<(), AllocError>
    ensures { OnOk result (IsText bytes.new.items × (lines bytes.new.items ≡ lines bytes.old.items)) }
{
    let n = bytes.len();
    if n == 0 {
        return Ok(());
    }
    if bytes[n - 1] == b'\n' {
        return Ok(());
    }
    bytes.push(b'\n')?;
    Ok(())
}

/// The first line of a text, and what is after it.
pub fn first_line(bytes: &[u8]) -> Option<(&[u8], &[u8])>
    ensures { MatchOption result (lines bytes.now ≡ []) (λ cut. lines bytes.now ≡ cut.0.now ∷ lines cut.1.now) }
{
    if bytes.is_empty() {
        return None;
    }
    match memchr(b'\n', bytes) {
        None => Some((bytes, &[])),
        Some(at) => Some((&bytes[..at], &bytes[at + 1..])),
    }
}
