//! What the store of the outputs holds after a history, and the result of a run: each sink is
//! published once, with exactly what its vertex makes.
//!
//! It has no code, but a function for each law, whose contract is the law.
#![tactic(auto)]

mod commit;
mod result;
mod staging;

pub use commit::{
    published_sinks_are_readied, purges_are_right, sinks_are_prepared, sinks_are_published,
};
pub use result::{
    attempts_blame_the_job, results_are_whole, runs_are_good, sums_of_sinks, tasks_were_staged,
};
pub use staging::{
    answers_leave_the_store, events_leave_the_store, first_masters_take_up_no_commit,
    masters_stay_well, reports_are_staged, stores_begin,
};
