//! The pool: the places of the nodes, who holds them, the numbers of their containers, and the
//! lives of the nodes.
#![tactic(auto)]

mod index;
mod place;
mod places;
mod pool;
mod victim;

pub use place::{Held, Place};
pub use pool::Pool;
