//! The router: who has made the inputs of each task, and who waits for them.
//!
//! It keeps one announcement for each source task, its winner. An edge manager's table then says
//! which of the outputs are which inputs, so nothing is written for a consumer when a source
//! finishes. For each attempt that waits it keeps, as runs of numbers, which inputs it has fetched.
#![tactic(auto)]

mod admission;
mod admitted;
mod fetches;
mod link;
mod notice;
mod notices;
mod order;
mod planned;
mod reroute;
mod router;
mod winners;

pub use admission::Admission;
pub use fetches::Fetch;
pub use notice::Notice;
pub use router::Router;
