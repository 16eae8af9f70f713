//! The script of a run: what is to fail, to be lost, and where a master stops.
#![tactic(auto)]

mod fault;
mod line;
mod parse;
mod read;
mod script;
mod words;

pub use fault::ScriptFault;
pub use line::{ScriptLine, Stop, When};
pub use read::{one_answer_is_due, read_script};
pub use script::Script;
