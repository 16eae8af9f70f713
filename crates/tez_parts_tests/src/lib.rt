//! Tests of the parts of a master and of the work on records: the pool, schedule managers, shelves, orders,
//! operators, what a journal tells, and the job of the drill. It has no code of its own.
#![tactic(auto)]

#[cfg(test)]
mod containers;
#[cfg(test)]
mod drills;
#[cfg(test)]
mod journals;
#[cfg(test)]
mod managers;
#[cfg(test)]
mod orders;
#[cfg(test)]
mod pieces;
#[cfg(test)]
mod programs;
