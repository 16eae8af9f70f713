//! The model of a run: what a history tells, what may happen next, which entries that adds, and the
//! rules that a trace obeys.
//!
//! It has no code, but definitions. A history is the trace with its latest entry first, so that
//! every earlier moment is a tail of it.
#![tactic(auto)]
