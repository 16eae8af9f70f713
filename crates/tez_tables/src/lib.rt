//! Edge tables: which output of which source task is which input of which consumer task.
//!
//! It has no code, but the definitions of the three tables and their laws: each output of a
//! one-to-one or scatter-gather table is one input of exactly one consumer, and each output of a
//! broadcast table is one input of every consumer.
#![tactic(auto)]

ghost use Rattle.std.specs.Prelude.{ℕ, ◌<◌};
ghost use Rattle.tez_tables.specs.Table.{HasOneConsumer, ReachesEachConsumer, StaysInside, one_to_one, broadcast, scatter_gather};

/// Each output goes to the one consumer of its number.
pub fn one_to_one_has_one_consumer()
    ensures covered { (tasks : ℕ) → HasOneConsumer (one_to_one tasks) }
    ensures inside { (tasks : ℕ) → StaysInside (one_to_one tasks) }
{}

/// Each output goes to every consumer, once.
pub fn broadcast_has_each_consumer()
    ensures covered { (sources consumers : ℕ) → ReachesEachConsumer (broadcast sources consumers) }
    ensures inside { (sources consumers : ℕ) → StaysInside (broadcast sources consumers) }
{}

/// Each partition of each source goes to the one consumer whose range it is in, once.
pub fn scatter_gather_has_one_consumer()
    ensures covered { (sources parts base : ℕ) → 0 < base → HasOneConsumer (scatter_gather sources parts base) }
    ensures inside { (sources parts base : ℕ) → StaysInside (scatter_gather sources parts base) }
{}
