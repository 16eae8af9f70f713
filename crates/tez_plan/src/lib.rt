//! Plans: vertices joined by edges, what is wrong with a plan, and the order of its vertices.
#![tactic(auto)]

ghost use Rattle.std.specs.Prelude.{◌≡◌, ◌<◌, ◌↔◌, ℕ, length, IsFalse, IsTrue};
ghost use Rattle.tez_plan.specs.Dag.{Dag};
ghost use Rattle.tez_plan.specs.Order.{among, depth, topo, IsLongest};
ghost use Rattle.tez_plan.specs.Faults.{AllKnown, IsBehindCycle, IsValid};

mod copies;
mod fault;
mod graph;
mod order;
mod parts;
mod plan;

pub use fault::PlanFault;
pub use graph::Graph;
pub use parts::{
    Columns, EdgeSpec, Head, MOST_TASKS, Movement, Program, Step, Steps, Test, VertexSpec,
};
pub use plan::{Plan, depth, topo};

/// The order of the vertices misses exactly those on a cycle or behind one.
pub fn order_misses_cycles()
    ensures missing { (p : Dag) (v : ℕ) → AllKnown p → v < length p.vertices → IsFalse (among (topo p) v) ↔ IsBehindCycle p v }
    ensures all { (p : Dag) (v : ℕ) → IsValid p → v < length p.vertices → IsTrue (among (topo p) v) }
{}

/// A vertex's depth is the length of the longest path to it.
pub fn depth_is_the_longest_path()
    ensures { (p : Dag) (v : ℕ) → IsValid p → v < length p.vertices → IsLongest p v (depth p v) }
{}
