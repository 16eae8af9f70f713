//! Tests of whole calls of the program over devices in memory: calls of a device that fail, and a device
//! that is lent in a wrapper. It has no code of its own.
#![tactic(auto)]

#[cfg(test)]
mod calls;
#[cfg(test)]
mod lent;
