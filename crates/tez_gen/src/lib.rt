//! Text that two numbers make: lines of three words, for a job of any size without a file.
#![tactic(auto)]

ghost use Rattle.std.specs.Prelude.{◌≡◌, ◌≤◌, ◌*◌, ◌++◌, OnOk, IfOk, length, string_bytes};
ghost use Rattle.tez_gen.specs.Generate.{line_after, next, text_after, third, word_of};

use std::alloc::{AllocError, Global};
use std::fmt;

const FACTOR: u128 = 1103515245;

const SUMMAND: u128 = 12345;

const STATES: u128 = 2147483648;

/// The state after a state.
#[tactic(auto, unfolding(crate::specs::Generate::next))]
fn next(x: u64) -> u64
    ensures { result ≡ next x }
{
    ((u128::from(x) * FACTOR + SUMMAND) % STATES) as u64
}

/// Adds the word of a state.
#[tactic(auto, unfolding(crate::specs::Generate::word_of))]
fn push_word(text: &mut String, x: u64) -> Result<(), AllocError>
    ensures { OnOk result (string_bytes text.new ≡ string_bytes text.old ++ word_of x) }
{
    write!(text, "w{}", x / 65536 % 1000)
}

/// Adds the line after a state, and gives the state of its last word.
#[tactic(auto, unfolding(crate::specs::Generate::line_after, crate::specs::Generate::third))]
fn push_line(text: &mut String, x: u64) -> Result<u64, AllocError>
    ensures line { OnOk result (string_bytes text.new ≡ string_bytes text.old ++ line_after x) }
    ensures state { IfOk result (λ y. y ≡ third x) }
{
    let first = next(x);
    let second = next(first);
    let last = next(second);
    push_word(text, first)?;
    text.push_str(" ")?;
    push_word(text, second)?;
    text.push_str(" ")?;
    push_word(text, last)?;
    text.push_str("\n")?;
    Ok(last)
}

/// So many lines of words that follow from the seed, the same ones at every call; more lines of a seed
/// begin with the fewer. The states are those of the public generator of pseudo-random numbers with
/// factor 1103515245 and summand 12345 modulo 2^31. Takes time linear in the text.
pub fn generate(alloc: Global, seed: u64, lines: u32) -> Result<Vec<u8>, AllocError>
    ensures text { IfOk result (λ text. text.items ≡ text_after seed lines) }
    ensures short { IfOk result (λ text. length text.items ≤ 15 * lines) }
{
    let mut text = String::new(alloc);
    let mut x = seed;
    for _line in 0..lines {
        x = push_line(&mut text, x)?;
    }
    Ok(text.into_bytes())
}
