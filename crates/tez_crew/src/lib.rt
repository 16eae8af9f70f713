//! Containers: threads that take orders, each from a queue of its own, and give their reports into
//! one event queue. `with_crew` starts them for a dispatcher, which puts orders and takes reports.
#![tactic(auto)]

mod book;
mod calls;
mod container;
mod crew;
mod desk;
mod dispatch;
mod event_queue;
mod order_queue;
mod place_handle;
mod readers;
mod start;

pub use book::CrewBook;
pub use calls::PutAnswer;
pub use crew::with_crew;
pub use desk::Desk;
pub use dispatch::{Dispatch, Turn};
