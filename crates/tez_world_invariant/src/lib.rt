//! What holds of a world whose master is up, and the laws that each event and report keeps it so:
//! its parts are what its history says, its store is as it is to be, and the end of the job is its
//! success.
//!
//! It has no code, but a function for each law, whose contract is the law.
#![tactic(auto)]

mod begin;
mod commit;
mod inputs;
mod losses;
mod numbers;
mod places;
mod plain;
mod reports;
mod store;
mod taking;

pub use begin::{first_master_begins, stores_are_found_clear};
pub use commit::{
    commit_has_the_sums, published_sinks_are_named, purge_tells_success, sinks_are_readied,
};
pub use inputs::{input_is_fetched, shelves_have_the_piece};
pub use losses::{node_is_lost, output_is_lost};
pub use numbers::{numbers_stay_small, parts_are_steady};
pub use places::{
    attempt_fails, attempt_gives_way, attempt_is_sent, attempt_takes_place, order_is_due,
};
pub use plain::{event_keeps, quiet_event_keeps};
pub use reports::{
    order_of_attempt_is_out, outcome_is_of_the_attempt, report_is_taken, spent_task_failed_often,
};
pub use store::{
    events_leave_the_store, publications_come_in_order, reports_are_staged, sinks_are_stored,
};
pub use taking::{events_are_taken, spent_is_told};
