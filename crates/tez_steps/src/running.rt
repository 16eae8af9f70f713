//! The parts of a master that is up.
use tez_inflight::Seats;
use tez_master::Master;
use tez_shelves::Shelves;

/// A master that is up, what is at the places and on the shelves, and the records and bytes of each sink by
/// vertex as it was last put aside, and of all sinks once the commit has started.
#[derive(Drop)]
pub struct Running {
    pub master: Master,
    pub seats: Seats,
    pub shelves: Shelves,
    pub texts: Vec<(u64, u64)>,
    pub sums: Vec<(u64, u64)>,
}
