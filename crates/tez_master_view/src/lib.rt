//! What a master has to be after a history, and the laws that its answers, its steps and its choice,
//! as the tables of a master say them, are what the history says.
//!
//! It has no code, but a function for each law, whose contract is the law.
#![tactic(auto)]

mod answers;
mod choosing;
mod settling;
mod steady;

pub use answers::{
    master_adds_the_entries, master_asks, master_takes_what_is_enabled, master_tells_why,
};
pub use choosing::master_chooses;
pub use settling::{asks_settle, events_settle, masters_go_on, reports_settle};
pub use steady::{masters_are_steady, pieces_are_told};
