//! The checks that make a plan valid: whether names, files and numbers are in their ranges, and
//! the first fault of a plan.
#![tactic(auto)]

ghost use Rattle.std.specs.Prelude.{◌≡◌, ◌≢◌, IfOk, IfErr, OnOk};
ghost use Rattle.tez_plan.specs.declared.fault.PlanFault.{PlanFault};
ghost use Rattle.tez_plan.specs.declared.fault.PlanFault.TheVariants.{NoMemory};
ghost use Rattle.tez_plan.specs.Dag.{Dag, dag_of};
ghost use Rattle.tez_plan.specs.Faults.{IsFirstFault, IsValid};
ghost use Rattle.tez_plan.specs.Ranges.{IsInRanges};

mod check;
mod faults;
mod ranges;

pub use ranges::{
    are_columns, are_in_ranges, edge_in_range, is_column, is_file, is_filter_text, is_name,
    is_number, is_sink, vertex_in_range,
};
use std::alloc::Global;
use tez_ids::Name;
use tez_plan::{EdgeSpec, Graph, Plan, PlanFault, VertexSpec};

/// The plan of this name, these vertices and these edges, or the first fault in the order of
/// `PlanFault`. Takes time in the square of the number of vertices and edges.
pub fn plan_new(
    alloc: Global,
    name: Name,
    vertices: Vec<VertexSpec>,
    edges: Vec<EdgeSpec>,
) -> Result<Plan, PlanFault>
    // `are_in_ranges` is the test of this.
    requires { IsInRanges (dag_of name vertices.items edges.items) }
    ensures plan { IfOk result (λ p. p ≡ dag_of name vertices.items edges.items) }
    ensures valid { OnOk result (IsValid (dag_of name vertices.items edges.items)) }
    ensures fault { IfErr result (λ f. f ≢ NoMemory → IsFirstFault (dag_of name vertices.items edges.items) f) }
{
    let graph = match Graph::new(alloc, name, vertices, edges) {
        Ok(graph) => graph,
        Err(fault) => return Err(fault),
    };
    let order = match faults::checked(&graph, alloc) {
        Ok(order) => order,
        Err(fault) => return Err(fault),
    };
    match Plan::of_graph(alloc, graph, order) {
        Ok(plan) => Ok(plan),
        Err(_) => Err(PlanFault::NoMemory),
    }
}

/// At most one fault is the first, and a valid plan has none.
pub fn first_fault_is_one()
    ensures one { (p : Dag) (f g : PlanFault) → IsFirstFault p f → IsFirstFault p g → f ≡ g }
    ensures none { (p : Dag) (f : PlanFault) → IsValid p → ¬ IsFirstFault p f }
{}
