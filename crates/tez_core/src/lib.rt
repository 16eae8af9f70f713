//! The parts of a master together: what they tell, which events they may take, and what each event
//! makes of them. It knows no history.
#![tactic(auto)]

mod changes;
mod choosing;
mod configure;
mod depths;
mod enabled;
mod flags;
mod fresh;
mod kept_winner;
mod locations;
mod lost;
mod new_tasks;
mod parts;
mod prepared;
mod reads;
mod restoring;
mod sinks;
mod tasks;
mod telling;

pub use kept_winner::Kept;
pub use parts::Core;
pub use prepared::NewConfig;
