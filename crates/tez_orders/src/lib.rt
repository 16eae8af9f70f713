//! Orders for containers, and the reports on them: what a task's program is run on, how its value
//! is cut for the edges, and what came of it.
#![tactic(auto)]

ghost use Rattle.std.specs.Prelude.{◌≡◌, ◌<◌, ℕ, List, Some, IsTrue, length};
ghost use Rattle.std.specs.List.{filter};
ghost use Rattle.tez_ids.specs.declared.EdgeId.{EdgeId};
ghost use Rattle.tez_lists.specs.Numbers.{In};
ghost use Rattle.tez_record.specs.Bag.{sort, text};
ghost use Rattle.tez_partition.specs.Partition.{in_partition};
ghost use Rattle.tez_shelves.specs.Piece.{piece_at, bytes_on};
ghost use Rattle.tez_orders.specs.declared.cut.Cut.{Cut as AnyCut};
ghost use Rattle.tez_orders.specs.declared.cut.Cut.TheVariants.{Whole, ByKey};
ghost use Rattle.tez_orders.specs.Orders.{Outs};
ghost use Rattle.tez_orders.specs.Fit.{edges_differ, has_parts};
ghost use Rattle.tez_orders.specs.Outcomes.{pieces_of};

mod copies;
mod cut;
mod fit;
mod order;
mod report;
mod same;
mod worker;

pub use cut::Cut;
pub use fit::is_order;
pub use order::Order;
pub use report::{Outcome, Report};
pub use worker::work;

/// The pieces of a value, edge by edge. A whole cut has one piece with all records, numbered 0; a
/// cut by key has one for each part, with the records whose keys hash into it. Those of an edge
/// have together the bytes of the value's text.
pub fn pieces_by_edge()
    ensures whole { (outs : Outs) (value : List (List ℕ)) (e : EdgeId) → IsTrue (edges_differ outs) → In (e, Whole) outs → piece_at e 0 (pieces_of outs value) ≡ Some value }
    ensures part { (outs : Outs) (value : List (List ℕ)) (e : EdgeId) (cols : List ℕ) (parts p : ℕ) → IsTrue (edges_differ outs) → In (e, ByKey cols parts) outs → p < parts → piece_at e p (pieces_of outs value) ≡ Some (sort (filter (in_partition cols parts p) value)) }
    ensures bytes { (outs : Outs) (value : List (List ℕ)) (e : EdgeId) (cut : AnyCut) → IsTrue (edges_differ outs) → In (e, cut) outs → IsTrue (has_parts cut) → bytes_on e (pieces_of outs value) ≡ Some (length (text value)) }
{}
