//! What a master goes by, and what it makes of each event, of what a new master finds, and of its
//! own choice: tables on one state, made of the tables of its parts. They know no history, and no
//! law stands on them here, so the code of a master stands on this crate alone.
//!
//! It has no code but the reasons why events are ignored.
#![tactic(auto)]

mod why;

pub use why::Why;
