// The words of a record.
ghost use Rattle.std.specs.Prelude.{◌≡◌, ◌++◌, ◌∷◌, [], MatchOption, IfSome, OnOk, ◌<◌, length};
ghost use Rattle.std.specs.List.{position, slice_split};
ghost use Rattle.tez_record.specs.Line.{IsRecord};
ghost use Rattle.tez_plan.specs.declared.parts.Step.TheVariants.{Tokenise};
ghost use Rattle.tez_values.specs.Steps.{step_rows};
ghost use Rattle.tez_plain.specs.Words.{IsFirstCut, counted, parts_words};

use std::alloc::AllocError;
use tez_record::Records;

/// Adds each word of a record with the count 1. Linear in the record.
pub fn push_words(rows: &mut Records, line: &[u8]) -> Result<(), AllocError>
    requires { IsRecord line.now }
    ensures { OnOk result (rows.new ≡ rows.old ++ step_rows Tokenise line.now) }
{
    let mut rest = line;
    while let Some((word, after)) = first_word(rest) {
        push_word(rows, word)?;
        rest = after;
    }
    push_word(rows, rest)
}

/// The bytes before the first that parts words, and those after it.
fn first_word(bytes: &[u8]) -> Option<(&[u8], &[u8])>
    requires { IsRecord bytes.now }
    ensures { MatchOption result (slice_split parts_words bytes.now ≡ bytes.now ∷ []) (λ cut. IsFirstCut bytes.now cut.0.now cut.1.now) }
{
    match word_end(bytes) {
        None => None,
        Some(end) => Some((&bytes[..end], &bytes[end + 1..])),
    }
}

/// The first byte that parts words.
fn word_end(bytes: &[u8]) -> Option<usize>
    ensures value { result ≡ position parts_words bytes.now }
    ensures bound { IfSome result (λ end. end < length bytes.now) }
{
    bytes.iter().position(|byte| parts_words(*byte))
}

fn parts_words(byte: u8) -> bool
    ensures { result ≡ parts_words byte }
{
    byte == b' ' || byte == b'\t'
}

/// Adds a piece of a record with the count 1, unless it is empty.
fn push_word(rows: &mut Records, piece: &[u8]) -> Result<(), AllocError>
    requires { IsRecord piece.now }
    ensures { OnOk result (rows.new ≡ rows.old ++ counted (piece.now ∷ [])) }
{
    if piece.is_empty() {
        return Ok(());
    }
    rows.push_joined(piece, b"1")
}
