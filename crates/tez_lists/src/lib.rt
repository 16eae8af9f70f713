//! Lemmas on lists that several layers cite: sums, ranges of numbers, tables by number, parts of
//! lists. It has no code: the lemmas stand in `proofs/`, the few words that they need in `specs/`.
#![tactic(auto)]
