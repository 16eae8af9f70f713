//! Sets of numbers below a bound, kept as runs of numbers that follow one another.
//!
//! Contracts see such a set as a list of truth values. Numbers that come in order keep one run.
#![tactic(auto)]

mod edit;
mod set;

pub use set::Runs;
