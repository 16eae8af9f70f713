// Fields, numbers and keys of a record.
ghost use Rattle.std.specs.Prelude.{◌≡◌, ◌<◌, ◌^◌, ◌++◌, ◌∷◌, [], if◌then◌else◌, is_ok, IfOk, IfSome, OnOk, MatchOption, length, take};
ghost use Rattle.tez_record.specs.Field.{digits_value, field, fields, key, number, number_of};

use memchr::memchr;
use std::alloc::{AllocError, Global};

const MOST_DIGITS: usize = 18;

/// Field `i` of a record, numbered from 0: the pieces between tabs. A field that is not there is
/// the empty text. Takes no memory; linear in what comes before the field's end.
pub fn field(r: &[u8], i: u16) -> &[u8]
    ensures { result.now ≡ field r.now i }
{
    let mut rest = r;
    for _skipped in 0..i {
        match after_tab(rest) {
            None => return &[],
            Some(after) => rest = after,
        }
    }
    before_tab(rest)
}

/// What is after the first tab.
fn after_tab(r: &[u8]) -> Option<&[u8]>
    ensures { MatchOption result (fields r.now ≡ r.now ∷ []) (λ rest. fields r.now ≡ field r.now 0 ∷ fields rest.now) }
{
    match memchr(b'\t', r) {
        None => None,
        Some(at) => Some(&r[at + 1..]),
    }
}

/// What is before the first tab, or all.
fn before_tab(r: &[u8]) -> &[u8]
    ensures { result.now ≡ field r.now 0 }
{
    match memchr(b'\t', r) {
        None => r,
        Some(at) => &r[..at],
    }
}

/// The number in field `i` of a record, and none exactly where the field is no number. Takes no
/// memory; cost as `field`.
pub fn number(r: &[u8], i: u16) -> Option<i64>
    ensures { result ≡ number r.now i }
{
    number_of(field(r, i))
}

/// The number that a text is: an optional `-` and 1 to 18 digits, and nothing else. Leading zeros
/// count as digits, and `-0` is 0.
pub fn number_of(text: &[u8]) -> Option<i64>
    ensures { result ≡ number_of text.now }
{
    match text.split_first() {
        Some((b'-', digits)) => Some(-(digits_value(digits)? as i64)),
        _ => Some(digits_value(text)? as i64),
    }
}

fn digits_value(text: &[u8]) -> Option<u64>
    ensures value { result ≡ digits_value text.now }
    ensures small { IfSome result (λ n. n < 10 ^ 18) }
{
    if text.is_empty() {
        return None;
    }
    if text.len() > MOST_DIGITS {
        return None;
    }
    let mut value = 0u64;
    for digit in text {
        if !digit.is_ascii_digit() {
            return None;
        }
        value = value * 10 + u64::from(*digit - b'0');
    }
    Some(value)
}

/// The key of a record: its fields at these columns in this order, with tabs between them. Of no
/// columns it is the empty text. Linear in the record for each column.
pub fn key(alloc: Global, r: &[u8], cols: &[u16]) -> Result<Vec<u8>, AllocError>
    ensures { IfOk result (λ bytes. bytes.items ≡ key cols.now r.now) }
{
    let mut bytes = Vec::new(alloc);
    push_key(&mut bytes, r, cols)?;
    Ok(bytes)
}

/// Adds the key of a record to a buffer, or nothing where memory is refused. A buffer that is
/// cleared and filled again for each record takes memory for the longest key alone.
pub fn push_key(buffer: &mut Vec<u8>, r: &[u8], cols: &[u16]) -> Result<(), AllocError>
    ensures { buffer.new.items ≡ (if is_ok result then buffer.old.items ++ key cols.now r.now else buffer.old.items) }
{
    let start = buffer.len();
    let pushed = push_fields(buffer, r, cols);
    if pushed.is_err() {
        buffer.truncate(start);
    }
    pushed
}

fn push_fields(buffer: &mut Vec<u8>, r: &[u8], cols: &[u16]) -> Result<(), AllocError>
    ensures ok { OnOk result (buffer.new.items ≡ buffer.old.items ++ key cols.now r.now) }
    ensures start { take (length buffer.old.items) buffer.new.items ≡ buffer.old.items }
{
    for (n, col) in cols.iter().enumerate() {
        if n > 0 {
            buffer.push(b'\t')?;
        }
        buffer.extend_from_slice(field(r, *col))?;
    }
    Ok(())
}
