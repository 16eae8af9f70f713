//! The configuration of a run, whose type keeps each value in its range.
#![tactic(auto)]

mod conf;
mod values;

pub use conf::{Conf, defaults};
pub use values::{ConfFault, ConfValues};
