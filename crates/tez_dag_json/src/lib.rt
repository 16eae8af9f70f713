//! The JSON form of a plan and its configuration.
#![tactic(auto)]

mod conf;
mod document;
mod edge;
mod fault;
mod head;
mod kinds;
mod list;
mod named;
mod path;
mod read;
mod step;
mod vertex;
mod words;
mod write;

pub use fault::DagFault;
pub use named::word_and_place;
pub use read::{form_has_its_faults, one_answer_is_due, read_dag};
pub use write::dag_text;
