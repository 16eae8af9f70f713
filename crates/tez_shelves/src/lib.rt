//! The pieces that attempts made, on the shelves of the nodes where they ran.
#![tactic(auto)]

mod index;
mod marks;
mod pieces;
mod shelves;
mod slots;

pub use pieces::{Piece, Pieces, pieces_new};
pub use shelves::Shelves;
