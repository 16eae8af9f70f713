//! The master of a run: what it answers to each event, and its own next event. It has no devices.
#![tactic(auto)]

mod answers;
mod handled;
mod master;
mod pending;
mod reads;
mod settling;
mod single;

pub use handled::{Effects, Handled};
pub use master::Master;
pub use tez_core::Kept;
