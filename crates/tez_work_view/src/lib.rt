//! What a world holds after a history, beside its master: definitions, and the laws that each event
//! makes of it what the longer history says.
//!
//! It has no code, but a function for each law, whose contract is the law.
#![tactic(auto)]

mod gathering;
mod orders;
mod seats;
mod shelves;

pub use gathering::what_is_gathered_is_copied;
pub use orders::{fetch_finds_the_piece, orders_are_right, orders_are_there};
pub use seats::{
    attempt_is_seated, attempts_leave_seats, node_leaves_seats, order_is_at_seat,
    piece_is_gathered, seats_are_left, seats_begin_vacant,
};
pub use shelves::{
    node_loses_shelves, output_leaves_shelf, pieces_are_shelved, shelves_are_left,
    shelves_outlive_masters, shelves_tell,
};
