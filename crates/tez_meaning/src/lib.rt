//! What a plan means: the bag of each vertex over the bytes of the source files, in the order of
//! the vertices and on whole bags, and the program that works it out.
#![tactic(auto)]

mod evaluate;
mod fault;
mod job;
mod reads;

ghost use Rattle.std.specs.Prelude.{◌≡◌, ◌<◌, ℕ, [], length};
ghost use Rattle.tez_plan.specs.Faults.{IsValid};
ghost use Rattle.tez_meaning.specs.Jobs.{Job, Files};
ghost use Rattle.tez_meaning.specs.Published.{IsPublishedOnce, IsPublishedAtMostOnce};
ghost use Rattle.tez_meaning.specs.Value.{value, value_from};

pub use evaluate::meaning;
pub use fault::MeaningFault;
pub use job::{Job, has_sources};
pub use reads::leads_ahead;

/// A vertex makes what its program makes of what its sources make.
pub fn values_come_from_sources()
    ensures { (job : Job) (v : ℕ) → IsValid job.plan → v < length job.plan.vertices → value job v ≡ value_from job v (value job) }
{}

/// What is published once is published at most once, and so is nothing.
pub fn once_is_at_most_once()
    ensures once { (job : Job) (publications : Files) → IsPublishedOnce job publications → IsPublishedAtMostOnce job publications }
    ensures nothing { (job : Job) → IsPublishedAtMostOnce job [] }
{}
