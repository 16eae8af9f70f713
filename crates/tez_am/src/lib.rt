//! The calls of the program, a run or a tool, from the words to the status and the text.
#![tactic(auto)]

mod accept;
mod answer;
mod check;
mod drive;
mod failure;
mod input;
mod mean;
mod run;
mod say;
mod sources;
mod status;
mod text;
mod tool;
mod top;
mod words;

pub use status::{Status, exit_code};
pub use tez_world::Device;
pub use tool::am_tool;
pub use top::am_run;
