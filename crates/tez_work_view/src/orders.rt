//! What is on shelves and in orders is what the history says of attempts.
ghost use Rattle.std.specs.Prelude.{◌≡◌, ℕ, List, true, Some, is_some};
ghost use Rattle.tez_ids.specs.declared.AttemptId.{AttemptId};
ghost use Rattle.tez_ids.specs.declared.NodeId.{NodeId};
ghost use Rattle.tez_lists.specs.Numbers.{In};
ghost use Rattle.tez_plan.specs.Dag.{edge};
ghost use Rattle.tez_plan.specs.Faults.{IsValid};
ghost use Rattle.tez_conf.specs.declared.values.ConfValues.{ConfValues};
ghost use Rattle.tez_history.specs.Shape.{Edge, edges_to};
ghost use Rattle.tez_history.specs.History.{Past, Runs, stage};
ghost use Rattle.tez_history.specs.Derived.{table_over};
ghost use Rattle.tez_history.specs.Steps.{winner_behind};
ghost use Rattle.tez_history.specs.Follows.{IsMade, IsPlaced};
ghost use Rattle.tez_orders.specs.Orders.{OrderParts};
ghost use Rattle.tez_orders.specs.Outcomes.{value_of, bad_of};
ghost use Rattle.tez_shelves.specs.Piece.{piece_at};
ghost use Rattle.tez_meaning.specs.Jobs.{Job};
ghost use Rattle.tez_contents.specs.Contents.{made, met_bad, piece_over};
ghost use Rattle.tez_work_view.specs.Holdings.{Pieces, order_view, shelf_view};

/// Where the winner behind an input has pieces on a shelf, the one of the output to which the input
/// leads is what the attempt copies.
pub fn fetch_finds_the_piece()
    ensures { (job : Job) (c : ConfValues) (past : Past) (a : AttemptId) (e : Edge) (i : ℕ) (w : AttemptId) (s : NodeId × Pieces) → In e (edges_to job.plan a.task.vertex.0) → winner_behind job.plan past a e.0 i ≡ Some w → shelf_view job c past w ≡ Some s → piece_at (edge e.0) ((table_over job.plan past e.1).leads a.task.index i).1 s.1 ≡ Some (piece_over job.plan past e.0 a.task.index i (made job w past)) }
{}

/// An attempt that waits at a place or is processing there has an order, since its vertex is one of
/// the plan.
pub fn orders_are_there()
    ensures { (job : Job) (c : ConfValues) (past : Past) (a : AttemptId) (p : ℕ) → IsMade job.plan c past → IsPlaced (stage a past) → is_some (order_view job past a p) ≡ true }
{}

/// The order of an attempt that is processing makes what the attempt makes, and meets a bad record
/// exactly where the attempt does.
pub fn orders_are_right()
    ensures value { (job : Job) (c : ConfValues) (past : Past) (a : AttemptId) (p : ℕ) (o : OrderParts) → IsValid job.plan → IsMade job.plan c past → stage a past ≡ Runs p → order_view job past a p ≡ Some o → value_of o ≡ made job a past }
    ensures bad { (job : Job) (c : ConfValues) (past : Past) (a : AttemptId) (p : ℕ) (o : OrderParts) → IsValid job.plan → IsMade job.plan c past → stage a past ≡ Runs p → order_view job past a p ≡ Some o → is_some (bad_of o) ≡ met_bad job a past }
{}
