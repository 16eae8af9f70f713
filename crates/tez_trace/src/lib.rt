//! The text of a trace, written and read: a line for each entry, and the line `end`.
//!
//! Which traces a run may leave is a matter of their rules, which stand with the model of a run.
#![tactic(auto)]

mod law;
mod read;
mod write;

pub use law::{each_text_is_read_or_refused, refused_text_has_no_trace, text_has_one_trace};
pub use read::{TraceFault, read_trace};
pub use write::trace_text;
