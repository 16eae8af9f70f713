//! Tests of worlds over devices in memory: losses at chosen moments, reports that come early or again, and
//! what is published. It has no code of its own.
#![tactic(auto)]

#[cfg(test)]
mod losses;
#[cfg(test)]
mod reports;
#[cfg(test)]
mod worlds;
