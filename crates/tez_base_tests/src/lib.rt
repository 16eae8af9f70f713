//! Tests of the crates at the bottom: names, events, records, machines, formulas, managers and
//! generated text. It has no code of its own.
#![tactic(auto)]

#[cfg(test)]
mod attempts;
#[cfg(test)]
mod events;
#[cfg(test)]
mod generated;
#[cfg(test)]
mod managers;
#[cfg(test)]
mod numbers;
#[cfg(test)]
mod records;
#[cfg(test)]
mod traces;
