//! The words of a command line: what they may be, and what they ask for.
//!
//! The first word is the command, and the command says what may follow it. A line of words is one
//! command, or faulty; then the usage text is the answer.
#![tactic(auto)]

mod command;
mod digits;
mod options;
mod read;
mod text;

pub use command::{Amount, Command, Options};
pub use read::{is_run_line, read_command};
pub use text::usage;
