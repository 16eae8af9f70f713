//! A dispatcher for a list of orders: it puts them one a turn, in order, and takes their reports.
#![tactic(auto)]

mod batch;

pub use batch::Batch;
