//! What a journal's records tell a master that goes on from them, if they are legal.
#![tactic(auto)]

ghost use Rattle.std.specs.Prelude.{◌≡◌, ℕ, List};
ghost use Rattle.tez_plan.specs.Dag.{Dag};
ghost use Rattle.tez_events.specs.declared.JournalRecord.{JournalRecord};
ghost use Rattle.tez_standing.specs.Standing.{IsLegal, IsFirstIllegal};

mod lists;
mod progress;
mod reading;
mod rows;
mod rules;
mod state;

pub use lists::{Failures, Settings, Winners};
pub use reading::standing;
pub use state::{Phase, Setting, Standing, StandingFault};

/// At most one record is the first that is not legal, and a legal list has none.
pub fn first_illegal_is_one()
    ensures one { (p : Dag) (rs : List JournalRecord) (m n : ℕ) → IsFirstIllegal p rs m → IsFirstIllegal p rs n → m ≡ n }
    ensures none { (p : Dag) (rs : List JournalRecord) (n : ℕ) → IsLegal p rs → ¬ IsFirstIllegal p rs n }
{}
