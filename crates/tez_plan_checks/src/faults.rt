ghost use Rattle.std.specs.Prelude.{◌≡◌, ◌≢◌, ◌==◌, [], ◌<◌, ◌≤◌, ℕ, true, false, not, map, length, IfErr, IfOk, IfSome, OnOk};
ghost use Rattle.std.specs.List.{find, list_any, range_with_len};
ghost use Rattle.tez_plan.specs.declared.fault.PlanFault.TheVariants.{NoMemory, DuplicateEdge, DuplicateSink};
ghost use Rattle.tez_plan.specs.Dag.{dag_of, vertex, edge};
ghost use Rattle.tez_plan.specs.Order.{among, topo, vertex_numbers};
ghost use Rattle.tez_plan.specs.Faults.{IsFirstFault, IsNowhere, IsValid, Finds, Passes, no_primary, mixed_primary, head_inputs, key_differs, partitions_differ, leaf_without_sink, duplicate_sink};
ghost use Rattle.tez_plan.specs.Graph.{ends_again};

use crate::check::{
    head_inputs, key_differs, leaf_without_sink, mixed_primary, no_primary, partitions_differ,
    physical_inputs,
};
use indexmap::IndexSet;
use std::alloc::Global;
use tez_ids::{EdgeId, VertexId};
use tez_plan::{Graph, PlanFault, VertexSpec};

/// The order of the vertices, or the first fault after those that `Graph::new` refuses.
pub fn checked(graph: &Graph, alloc: Global) -> Result<Vec<VertexId>, PlanFault>
    requires { Passes 3 graph.now }
    ensures order { IfOk result (λ order. order.items ≡ map vertex (topo graph.now)) }
    ensures valid { OnOk result (IsValid graph.now) }
    ensures fault { IfErr result (λ f. f ≢ NoMemory → IsFirstFault graph.now f) }
{
    if let Err(fault) = check_pairs(graph, alloc) {
        return Err(fault);
    }
    let Ok(order) = graph.order(alloc) else {
        return Err(PlanFault::NoMemory);
    };
    if let Err(fault) = check_cycles(graph, &order) {
        return Err(fault);
    }
    if let Err(fault) = check_parts(graph, alloc) {
        return Err(fault);
    }
    Ok(order)
}

/// The checks of the vertices and edges of a plan without a cycle.
fn check_parts(graph: &Graph, alloc: Global) -> Result<(), PlanFault>
    requires { Passes 5 graph.now }
    ensures valid { OnOk result (IsValid graph.now) }
    ensures fault { IfErr result (λ f. f ≢ NoMemory → IsFirstFault graph.now f) }
{
    if let Err(fault) = check_inputs(graph) {
        return Err(fault);
    }
    if let Err(fault) = check_outputs(graph) {
        return Err(fault);
    }
    if let Err(fault) = check_sinks(graph, alloc) {
        return Err(fault);
    }
    check_total(graph)
}

/// Refuses an edge with the ends of an earlier one.
fn check_pairs(graph: &Graph, alloc: Global) -> Result<(), PlanFault>
    requires { Passes 3 graph.now }
    ensures passes { OnOk result (Passes 4 graph.now) }
    ensures fault { IfErr result (λ f. f ≢ NoMemory → IsFirstFault graph.now f) }
{
    check_repeats(alloc, graph.ends())
}

/// Refuses a cycle. `order` has the vertices that are on none and behind none.
fn check_cycles(graph: &Graph, order: &[VertexId]) -> Result<(), PlanFault>
    requires passes { Passes 4 graph.now }
    requires order { order.now ≡ map vertex (topo graph.now) }
    ensures passes { OnOk result (Passes 5 graph.now) }
    ensures fault { IfErr result (λ f. f ≢ NoMemory → IsFirstFault graph.now f) }
{
    match first_missing(order, graph.vertices().len()) {
        Some(v) => Err(PlanFault::Cycle {
            vertex: VertexId(v as u16),
        }),
        None => Ok(()),
    }
}

/// Refuses inputs that do not fit the heads.
fn check_inputs(graph: &Graph) -> Result<(), PlanFault>
    requires { Passes 5 graph.now }
    ensures passes { OnOk result (Passes 9 graph.now) }
    ensures fault { IfErr result (λ f. f ≢ NoMemory → IsFirstFault graph.now f) }
{
    if let Some(v) = first_without_primary(graph) {
        let vertex = VertexId(v as u16);
        return Err(PlanFault::NoPrimary { vertex });
    }
    if let Some(v) = first_with_mixed_primary(graph) {
        let vertex = VertexId(v as u16);
        return Err(PlanFault::MixedPrimary { vertex });
    }
    if let Some(v) = first_with_unfit_inputs(graph) {
        let vertex = VertexId(v as u16);
        return Err(PlanFault::HeadInputs { vertex });
    }
    if let Some(v) = first_with_unfit_keys(graph) {
        let vertex = VertexId(v as u16);
        return Err(PlanFault::KeyDiffers { vertex });
    }
    Ok(())
}

/// Refuses what the outputs lack.
fn check_outputs(graph: &Graph) -> Result<(), PlanFault>
    requires { Passes 9 graph.now }
    ensures passes { OnOk result (Passes 11 graph.now) }
    ensures fault { IfErr result (λ f. f ≢ NoMemory → IsFirstFault graph.now f) }
{
    if let Some(e) = first_that_differs(graph) {
        let edge = EdgeId(e as u16);
        return Err(PlanFault::PartitionsDiffer { edge });
    }
    if let Some(v) = first_open_leaf(graph) {
        let vertex = VertexId(v as u16);
        return Err(PlanFault::LeafWithoutSink { vertex });
    }
    Ok(())
}

fn first_without_primary(graph: &Graph) -> Option<usize>
    ensures first { result ≡ find (no_primary graph.now) (vertex_numbers graph.now) }
    ensures within { IfSome result (λ n. n < 64) }
{
    (0..graph.vertices().len()).find(|n| no_primary(graph, *n))
}

fn first_with_mixed_primary(graph: &Graph) -> Option<usize>
    ensures first { result ≡ find (mixed_primary graph.now) (vertex_numbers graph.now) }
    ensures within { IfSome result (λ n. n < 64) }
{
    (0..graph.vertices().len()).find(|n| mixed_primary(graph, *n))
}

fn first_with_unfit_inputs(graph: &Graph) -> Option<usize>
    ensures first { result ≡ find (head_inputs graph.now) (vertex_numbers graph.now) }
    ensures within { IfSome result (λ n. n < 64) }
{
    (0..graph.vertices().len()).find(|n| head_inputs(graph, *n))
}

fn first_with_unfit_keys(graph: &Graph) -> Option<usize>
    ensures first { result ≡ find (key_differs graph.now) (vertex_numbers graph.now) }
    ensures within { IfSome result (λ n. n < 64) }
{
    (0..graph.vertices().len()).find(|n| key_differs(graph, *n))
}

fn first_that_differs(graph: &Graph) -> Option<usize>
    ensures first { result ≡ find (partitions_differ graph.now) (range_with_len 0 (length graph.now.edges)) }
    ensures within { IfSome result (λ n. n < 256) }
{
    (0..graph.edges().len()).find(|n| partitions_differ(graph, *n))
}

fn first_open_leaf(graph: &Graph) -> Option<usize>
    ensures first { result ≡ find (leaf_without_sink graph.now) (vertex_numbers graph.now) }
    ensures within { IfSome result (λ n. n < 64) }
{
    (0..graph.vertices().len()).find(|n| leaf_without_sink(graph, *n))
}

/// Refuses a sink that comes again.
fn check_sinks(graph: &Graph, alloc: Global) -> Result<(), PlanFault>
    requires { Passes 11 graph.now }
    ensures passes { OnOk result (Passes 12 graph.now) }
    ensures fault { IfErr result (λ f. f ≢ NoMemory → IsFirstFault graph.now f) }
{
    let mut sinks = IndexSet::new(alloc);
    add_sinks(&mut sinks, graph.vertices())
}

/// Refuses too many physical inputs.
fn check_total(graph: &Graph) -> Result<(), PlanFault>
    requires { Passes 12 graph.now }
    ensures passes { OnOk result (Passes 13 graph.now) }
    ensures fault { IfErr result (λ f. f ≢ NoMemory → IsFirstFault graph.now f) }
{
    let mut total: u64 = 0;
    for e in 0..graph.edges().len() {
        total += physical_inputs(graph, &graph.edges()[e], &graph.ends()[e]);
        if total > 4_000_000 {
            return Err(PlanFault::TooMany { place: e as u32 });
        }
    }
    Ok(())
}

/// The first number below the count that is not in the order.
fn first_missing(order: &[VertexId], count: usize) -> Option<usize>
    ensures first { result ≡ find (λ v. not (list_any (λ u. u.0 == v) order.now)) (range_with_len 0 count) }
    ensures within { IfSome result (λ v. v < count) }
{
    (0..count).find(|v| !is_among(order, *v))
}

fn is_among(order: &[VertexId], v: usize) -> bool
    ensures { result ≡ list_any (λ u. u.0 == v) order.now }
{
    order.iter().any(|u| u.0 as usize == v)
}

/// Refuses ends that come again.
fn check_repeats(alloc: Global, ends: &[(VertexId, VertexId)]) -> Result<(), PlanFault>
    requires few { length ends.now ≤ 256 }
    ensures none { OnOk result (IsNowhere (ends_again ends.now)) }
    ensures fault { IfErr result (Finds (ends_again ends.now) (λ n. DuplicateEdge (edge n))) }
{
    let mut seen = IndexSet::new(alloc);
    for e in 0..ends.len() {
        match seen.insert(ends[e]) {
            Ok(true) => {}
            Ok(false) => {
                return Err(PlanFault::DuplicateEdge {
                    edge: EdgeId(e as u16),
                });
            }
            Err(_) => return Err(PlanFault::NoMemory),
        }
    }
    Ok(())
}

/// Adds the sinks of the vertices to a set that has none.
fn add_sinks<'a>(sinks: &mut IndexSet<&'a str>, vertices: &'a [VertexSpec]) -> Result<(), PlanFault>
    requires none { sinks.old.keys ≡ [] }
    requires few { length vertices.now ≤ 64 }
    ensures own { OnOk result (IsNowhere (duplicate_sink (dag_of [] vertices.now []))) }
    ensures fault { IfErr result (Finds (duplicate_sink (dag_of [] vertices.now [])) (λ n. DuplicateSink (vertex n))) }
{
    for v in 0..vertices.len() {
        if let Some(sink) = &vertices[v].sink {
            match sinks.insert(sink.as_str()) {
                Ok(true) => {}
                Ok(false) => {
                    return Err(PlanFault::DuplicateSink {
                        vertex: VertexId(v as u16),
                    });
                }
                Err(_) => return Err(PlanFault::NoMemory),
            }
        }
    }
    Ok(())
}
