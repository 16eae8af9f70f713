//! Tests of containers on threads of their own. It has no code of its own.
#![tactic(auto)]

#[cfg(test)]
mod batches;
