//! Sets of numbers below a bound that tell the least of them at once, and change without memory.
//!
//! The nodes are those of a complete binary tree in one list, with the numbers as its leaves: each
//! node names the least number of the set below it, as the winner of a tournament.
#![tactic(auto)]

mod tree;

pub use tree::Tournament;
