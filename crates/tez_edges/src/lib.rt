//! Edge managers: which output of which source task is which input of which consumer task.
//!
//! Contracts see a manager as its table. Each output of a one-to-one or scatter-gather edge is one
//! input of exactly one consumer; each output of a broadcast edge is one input of every consumer.
#![tactic(auto)]

mod any;
mod broadcast;
mod manager;
mod one_to_one;
mod scatter_gather;

pub use any::Manager;
pub use broadcast::Broadcast;
pub use manager::EdgeManager;
pub use one_to_one::OneToOne;
pub use scatter_gather::ScatterGather;
