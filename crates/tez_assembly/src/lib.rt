//! The order of an attempt: what the program of its vertex reads, and how its value is cut.
#![tactic(auto)]

ghost use Rattle.std.specs.Prelude.{◌≡◌, ℕ, List, Some, slice_get, length};
ghost use Rattle.std.specs.List.{enumerate_from};
ghost use Rattle.tez_ids.specs.declared.AttemptId.{AttemptId};
ghost use Rattle.tez_lists.specs.Numbers.{In};
ghost use Rattle.tez_record.specs.Bag.{text};
ghost use Rattle.tez_plan.specs.declared.parts.VertexSpec.{VertexSpec};
ghost use Rattle.tez_plan.specs.declared.parts.EdgeSpec.{EdgeSpec};
ghost use Rattle.tez_plan.specs.Dag.{Dag, from, to, edge, tasks_of as planned};
ghost use Rattle.tez_plan.specs.Faults.{IsValid};
ghost use Rattle.tez_plan.specs.Ranges.{IsInRanges};
ghost use Rattle.tez_values.specs.Program.{output, first_bad};
ghost use Rattle.tez_shelves.specs.Piece.{piece_at, bytes_on};
ghost use Rattle.tez_meaning.specs.Jobs.{Job};
ghost use Rattle.tez_history.specs.Shape.{Edge, edges_to};
ghost use Rattle.tez_orders.specs.Outcomes.{reads_of, value_of, bad_of, pieces_of};
ghost use Rattle.tez_contents.specs.Contents.{number_of, piece};
ghost use Rattle.tez_assembly.specs.Order.{Records, outs_for, order_for};
ghost use Rattle.tez_assembly.specs.Laws.{IsFitting, task_reads, SameBags, IsOutput};

mod edges;
mod prepared;
mod share;

pub use edges::edges_into_vertex;
pub use prepared::assemble;

/// The parts of the order of an attempt fit together.
pub fn orders_fit()
    ensures { (job : Job) (tasks : ℕ) (a : AttemptId) (place : ℕ) (copy : ℕ → Records) (s : VertexSpec) → IsInRanges job.plan → IsValid job.plan → slice_get job.plan.vertices a.task.vertex.0 ≡ Some s → IsFitting (order_for job tasks a place copy s) }
{}

/// What the program of an order reads is what the task of the attempt reads. So they make the same,
/// and have the same first bad record.
pub fn orders_read_what_tasks_read()
    ensures edges { (job : Job) (tasks : ℕ) (a : AttemptId) (place : ℕ) (copy : ℕ → Records) (of_edge : EdgeSpec → Records) (s : VertexSpec) → IsValid job.plan → slice_get job.plan.vertices a.task.vertex.0 ≡ Some s → ((e : Edge) → In e (edges_to job.plan a.task.vertex.0) → of_edge e.1 ≡ copy e.0) → reads_of (order_for job tasks a place copy s) ≡ task_reads job tasks a of_edge s }
    ensures reads { (job : Job) (tasks : ℕ) (a : AttemptId) (place : ℕ) (copy : ℕ → Records) (s : VertexSpec) → IsValid job.plan → slice_get job.plan.vertices a.task.vertex.0 ≡ Some s → reads_of (order_for job tasks a place copy s) ≡ task_reads job tasks a (λ e. copy (number_of job.plan e)) s }
    ensures value { (job : Job) (tasks : ℕ) (a : AttemptId) (place : ℕ) (copy : ℕ → Records) (s : VertexSpec) → IsValid job.plan → slice_get job.plan.vertices a.task.vertex.0 ≡ Some s → value_of (order_for job tasks a place copy s) ≡ output s.head s.steps (task_reads job tasks a (λ e. copy (number_of job.plan e)) s) }
    ensures bad { (job : Job) (tasks : ℕ) (a : AttemptId) (place : ℕ) (copy : ℕ → Records) (s : VertexSpec) → IsValid job.plan → slice_get job.plan.vertices a.task.vertex.0 ≡ Some s → bad_of (order_for job tasks a place copy s) ≡ first_bad s.head s.steps (task_reads job tasks a (λ e. copy (number_of job.plan e)) s) }
{}

/// The number of an edge is its own in a valid plan, as no two have the same ends.
pub fn edges_have_their_numbers()
    ensures { (g : Dag) (e : Edge) → IsValid g → In e (enumerate_from 0 g.edges) → number_of g e.1 ≡ e.0 }
{}

/// The value of an order and its first bad record depend on the bags that were gathered alone, and
/// not on the order of the records.
pub fn order_of_bags()
    ensures value { (job : Job) (tasks : ℕ) (a : AttemptId) (place : ℕ) (copy other : ℕ → Records) (s : VertexSpec) → SameBags copy other → value_of (order_for job tasks a place copy s) ≡ value_of (order_for job tasks a place other s) }
    ensures bad { (job : Job) (tasks : ℕ) (a : AttemptId) (place : ℕ) (copy other : ℕ → Records) (s : VertexSpec) → SameBags copy other → bad_of (order_for job tasks a place copy s) ≡ bad_of (order_for job tasks a place other s) }
{}

/// The value is cut as it goes over each edge out of the vertex: an output has the piece that is
/// due for it, and the outputs of an edge have together the bytes of the value's text.
pub fn pieces_are_cut()
    ensures pieces { (g : Dag) (v : ℕ) (e : Edge) (o : ℕ) (value : Records) → In e (enumerate_from 0 g.edges) → from g e.1 ≡ v → IsOutput e.1.movement (planned g (to g e.1)) o → piece_at (edge e.0) o (pieces_of (outs_for g v) value) ≡ Some (piece e.1.movement (planned g (to g e.1)) o value) }
    ensures bytes { (g : Dag) (v : ℕ) (e : Edge) (value : Records) → IsInRanges g → IsValid g → In e (enumerate_from 0 g.edges) → from g e.1 ≡ v → bytes_on (edge e.0) (pieces_of (outs_for g v) value) ≡ Some (length (text value)) }
{}
