//! Tests of the devices, in memory and real, of the journal over them, and of the commit. It has no code of
//! its own.
#![tactic(auto)]

#[cfg(test)]
mod commits;
#[cfg(test)]
mod disks;
#[cfg(test)]
mod folders;
#[cfg(test)]
mod journals;
#[cfg(test)]
mod stores;
