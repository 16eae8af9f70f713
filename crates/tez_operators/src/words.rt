// The words of a record.
ghost use Rattle.std.specs.Prelude.{◌≡◌, ◌++◌, ◌∷◌, [], OnOk};
ghost use Rattle.tez_record.specs.Line.{IsRecord};
ghost use Rattle.tez_plan.specs.declared.parts.Step.TheVariants.{Tokenise};
ghost use Rattle.tez_values.specs.Steps.{step_rows};
ghost use Rattle.tez_operators.specs.Words.{counted};

use memchr::memchr2;
use std::alloc::AllocError;
use tez_record::Records;

/// Adds each word of a record with the count 1.
pub fn push_words(rows: &mut Records, line: &[u8]) -> Result<(), AllocError>
    requires { IsRecord line.now }
    ensures { OnOk result (rows.new ≡ rows.old ++ step_rows Tokenise line.now) }
{
    let mut rest = line;
    while let Some(at) = memchr2(b' ', b'\t', rest) {
        push_word(rows, &rest[..at])?;
        rest = &rest[at + 1..];
    }
    push_word(rows, rest)?;
    Ok(())
}

/// Adds a piece of a record with the count 1, unless it is empty.
fn push_word(rows: &mut Records, piece: &[u8]) -> Result<(), AllocError>
    requires { IsRecord piece.now }
    ensures { OnOk result (rows.new ≡ rows.old ++ counted (piece.now ∷ [])) }
{
    if piece.is_empty() {
        return Ok(());
    }
    rows.push_joined(piece, b"1")
}
