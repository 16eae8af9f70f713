ghost use Rattle.std.specs.Prelude.{◌≡◌, ◌≤◌, ◌+◌, ◌-◌, ◌^◌, ◌<◌, length, not, ◌&&◌, ◌==◌, nat_lt};
ghost use Rattle.std.specs.List.{list_all, list_any, count_by, filter, zip};
ghost use Rattle.std.specs.Option.{option_map_or};
ghost use Rattle.std.specs.Str.{bytes_eq};
ghost use Rattle.tez_plan.specs.Dag.{edges_from, ends_of, is_one_to_one, is_broadcast, is_scatter_gather, keys_of, tasks_of};
ghost use Rattle.tez_plan.specs.Graph.{gathers, all_have_keys, all_have_count};
ghost use Rattle.tez_plan.specs.Faults.{incoming, primaries, no_primary, mixed_primary, inputs_fit, head_inputs, keys_fit, same_keys, key_differs, partitions_differ, leaf_without_sink, physical_inputs};

use tez_ids::VertexId;
use tez_plan::{EdgeSpec, Graph, Head, VertexSpec};

/// How many edges of each kind lead into a vertex.
#[derive(Clone, Copy)]
struct EdgeCounts {
    one_to_one: usize,
    broadcast: usize,
    scatter_gather: usize,
}

/// Takes time for each edge.
#[tactic(auto, using(tez_plan::proofs::GraphLemmas::counts))]
fn incoming(graph: &Graph, v: usize) -> EdgeCounts
    ensures one_to_one { result.one_to_one ≡ length (incoming is_one_to_one graph.now v) }
    ensures broadcast { result.broadcast ≡ length (incoming is_broadcast graph.now v) }
    ensures scatter_gather { result.scatter_gather ≡ length (incoming is_scatter_gather graph.now v) }
    ensures few { result.one_to_one ≤ 256 }
{
    EdgeCounts {
        one_to_one: one_to_ones(graph.edges(), graph.ends(), v),
        broadcast: broadcasts(graph.edges(), graph.ends(), v),
        scatter_gather: scatter_gathers(graph.edges(), graph.ends(), v),
    }
}

/// The kinds of primary inputs, one-to-one edges counted one by one.
fn primaries(graph: &Graph, v: usize, vertex: &VertexSpec) -> usize
    ensures { result ≡ primaries graph.now v vertex.now }
{
    let incoming = incoming(graph, v);
    incoming.one_to_one + incoming.scatter_gather.min(1) + source_count(vertex)
}

pub fn no_primary(graph: &Graph, v: usize) -> bool
    ensures { result ≡ no_primary graph.now v }
{
    match graph.vertices().get(v) {
        Some(vertex) => primaries(graph, v, vertex) == 0,
        None => false,
    }
}

pub fn mixed_primary(graph: &Graph, v: usize) -> bool
    ensures { result ≡ mixed_primary graph.now v }
{
    match graph.vertices().get(v) {
        Some(vertex) => primaries(graph, v, vertex) > 1,
        None => false,
    }
}

/// Whether the edges in are those that the head asks for.
fn inputs_fit(graph: &Graph, v: usize, head: &Head) -> bool
    ensures { result ≡ inputs_fit head.now (incoming is_scatter_gather graph.now v) (length (incoming is_broadcast graph.now v)) }
{
    let incoming = incoming(graph, v);
    match head {
        Head::Each | Head::Sum { .. } | Head::Count | Head::Distinct => incoming.broadcast == 0,
        Head::Join { left } => {
            incoming.broadcast == 0
                && incoming.scatter_gather == 2
                && gathers_from(graph, v, left.as_str())
        }
        Head::Lookup { .. } | Head::KeepIn { .. } | Head::DropIn { .. } => {
            incoming.broadcast == 1
        }
    }
}

/// Whether a scatter-gather edge leads into the vertex from the vertex of this name.
fn gathers_from(graph: &Graph, v: usize, name: &str) -> bool
    ensures { result ≡ list_any (λ e. bytes_eq name.now e.source) (incoming is_scatter_gather graph.now v) }
{
    any_gather_from(graph.edges(), graph.ends(), v, name)
}

pub fn head_inputs(graph: &Graph, v: usize) -> bool
    ensures { result ≡ head_inputs graph.now v }
{
    match graph.vertices().get(v) {
        Some(vertex) => !inputs_fit(graph, v, &vertex.head),
        None => false,
    }
}

/// Whether the primary is by scatter-gather alone, with the same columns at each edge.
fn same_keys(graph: &Graph, v: usize, vertex: &VertexSpec) -> bool
    ensures { result ≡ same_keys (incoming is_scatter_gather graph.now v) (length (incoming is_one_to_one graph.now v) + option_map_or (λ _. 1) vertex.now.source 0) }
{
    let others = incoming(graph, v).one_to_one + source_count(vertex);
    others == 0 && same_columns(graph.edges(), graph.ends(), v)
}

/// Whether the scatter-gather edges into the vertex have as many columns each.
fn same_counts(graph: &Graph, v: usize) -> bool
    ensures { result ≡ list_all (λ d. list_all (λ e. length (keys_of d) == length (keys_of e)) (incoming is_scatter_gather graph.now v)) (incoming is_scatter_gather graph.now v) }
{
    same_numbers_of_columns(graph.edges(), graph.ends(), v)
}

/// Whether the keys of the edges in, and those of the head, fit the head.
fn keys_fit(graph: &Graph, v: usize, vertex: &VertexSpec) -> bool
    ensures { result ≡ keys_fit vertex.now.head (incoming is_scatter_gather graph.now v) (length (incoming is_one_to_one graph.now v) + option_map_or (λ _. 1) vertex.now.source 0) }
{
    match &vertex.head {
        Head::Each => true,
        Head::Sum { .. } | Head::Count | Head::Distinct => same_keys(graph, v, vertex),
        Head::Join { .. } => same_counts(graph, v),
        Head::Lookup { key, side_key }
        | Head::KeepIn { key, side_key }
        | Head::DropIn { key, side_key } => key.as_slice().len() == side_key.as_slice().len(),
    }
}

pub fn key_differs(graph: &Graph, v: usize) -> bool
    ensures { result ≡ key_differs graph.now v }
{
    match graph.vertices().get(v) {
        Some(vertex) => !keys_fit(graph, v, vertex),
        None => false,
    }
}

/// The vertex's tasks.
fn tasks(graph: &Graph, v: VertexId) -> u32
    ensures { result ≡ tasks_of graph.now v.0 }
{
    match graph.vertices().get(v.0 as usize) {
        Some(vertex) => vertex.tasks,
        None => 0,
    }
}

pub fn partitions_differ(graph: &Graph, e: usize) -> bool
    ensures { result ≡ partitions_differ graph.now e }
{
    match (graph.edges().get(e), graph.ends().get(e)) {
        (Some(edge), Some((from, to))) => {
            edge.movement.is_one_to_one() && tasks(graph, *from) != tasks(graph, *to)
        }
        _ => false,
    }
}

/// Whether no edge leads out of the vertex.
fn is_last(graph: &Graph, v: usize) -> bool
    ensures { result ≡ (length (edges_from graph.now v) == 0) }
{
    let leads_on = leads_out(graph.ends(), v);
    !leads_on
}

pub fn leaf_without_sink(graph: &Graph, v: usize) -> bool
    ensures { result ≡ leaf_without_sink graph.now v }
{
    match graph.vertices().get(v) {
        Some(vertex) => is_last(graph, v) && vertex.sink.is_none(),
        None => false,
    }
}

/// The physical inputs of an edge.
pub fn physical_inputs(graph: &Graph, edge: &EdgeSpec, ends: &(VertexId, VertexId)) -> u64
    requires { ends.now ≡ ends_of graph.now edge.now }
    ensures inputs { result ≡ physical_inputs graph.now edge.now }
    ensures small { result < 2 ^ 64 - 2 ^ 32 }
{
    let consumers = tasks(graph, ends.1) as u64;
    if edge.movement.is_one_to_one() {
        consumers
    } else {
        tasks(graph, ends.0) as u64 * consumers
    }
}

fn leads_out(ends: &[(VertexId, VertexId)], v: usize) -> bool
    ensures { result ≡ list_any (λ t. t.0.0 == v) ends.now }
{
    ends.iter().any(|ends| ends.0.0 as usize == v)
}

#[tactic(auto, unfolding(tez_plan::specs::Graph::gathers))]
fn same_columns(edges: &[EdgeSpec], ends: &[(VertexId, VertexId)], v: usize) -> bool
    ensures { result ≡ list_all (λ q. all_have_keys (keys_of q.0) edges.now ends.now v) (gathers edges.now ends.now v) }
{
    let all = edges.iter().zip(ends.iter());
    all.filter(|(e, ends)| e.movement.is_scatter_gather() && ends.1.0 as usize == v)
        .all(|(e, _)| all_gathers_have_keys(edges, ends, v, e.movement.keys()))
}

#[tactic(auto, unfolding(tez_plan::specs::Graph::gathers))]
fn same_numbers_of_columns(edges: &[EdgeSpec], ends: &[(VertexId, VertexId)], v: usize) -> bool
    ensures { result ≡ list_all (λ q. all_have_count (length (keys_of q.0)) edges.now ends.now v) (gathers edges.now ends.now v) }
{
    let all = edges.iter().zip(ends.iter());
    all.filter(|(e, ends)| e.movement.is_scatter_gather() && ends.1.0 as usize == v)
        .all(|(e, _)| all_gathers_have_count(edges, ends, v, e.movement.keys().len()))
}

fn source_count(vertex: &VertexSpec) -> usize
    ensures { result ≡ option_map_or (λ _. 1) vertex.now.source 0 }
{
    match vertex.source {
        Some(_) => 1,
        None => 0,
    }
}

fn one_to_ones(edges: &[EdgeSpec], ends: &[(VertexId, VertexId)], v: usize) -> usize
    ensures { result ≡ count_by (λ q. is_one_to_one q.0 && q.1.1.0 == v) (zip edges.now ends.now) }
{
    let all = edges.iter().zip(ends.iter());
    all.filter(|(e, ends)| e.movement.is_one_to_one() && ends.1.0 as usize == v)
        .count()
}

fn broadcasts(edges: &[EdgeSpec], ends: &[(VertexId, VertexId)], v: usize) -> usize
    ensures { result ≡ count_by (λ q. is_broadcast q.0 && q.1.1.0 == v) (zip edges.now ends.now) }
{
    let all = edges.iter().zip(ends.iter());
    all.filter(|(e, ends)| e.movement.is_broadcast() && ends.1.0 as usize == v)
        .count()
}

fn scatter_gathers(edges: &[EdgeSpec], ends: &[(VertexId, VertexId)], v: usize) -> usize
    ensures { result ≡ count_by (λ q. is_scatter_gather q.0 && q.1.1.0 == v) (zip edges.now ends.now) }
{
    let all = edges.iter().zip(ends.iter());
    all.filter(|(e, ends)| e.movement.is_scatter_gather() && ends.1.0 as usize == v)
        .count()
}

#[tactic(auto, unfolding(tez_plan::specs::Graph::gathers))]
fn any_gather_from(edges: &[EdgeSpec], ends: &[(VertexId, VertexId)], v: usize, name: &str) -> bool
    ensures { result ≡ list_any (λ q. bytes_eq name.now q.0.source) (gathers edges.now ends.now v) }
{
    let all = edges.iter().zip(ends.iter());
    all.filter(|(e, ends)| e.movement.is_scatter_gather() && ends.1.0 as usize == v)
        .any(|(e, _)| name == e.source.as_str())
}

#[tactic(auto, unfolding(tez_plan::specs::Graph::gathers, tez_plan::specs::Graph::all_have_keys))]
fn all_gathers_have_keys(
    edges: &[EdgeSpec],
    ends: &[(VertexId, VertexId)],
    v: usize,
    keys: &[u16],
) -> bool
    ensures { result ≡ all_have_keys keys.now edges.now ends.now v }
{
    let all = edges.iter().zip(ends.iter());
    all.filter(|(e, ends)| e.movement.is_scatter_gather() && ends.1.0 as usize == v)
        .all(|(e, _)| keys == e.movement.keys())
}

#[tactic(auto, unfolding(tez_plan::specs::Graph::gathers, tez_plan::specs::Graph::all_have_count))]
fn all_gathers_have_count(
    edges: &[EdgeSpec],
    ends: &[(VertexId, VertexId)],
    v: usize,
    count: usize,
) -> bool
    ensures { result ≡ all_have_count count edges.now ends.now v }
{
    let all = edges.iter().zip(ends.iter());
    all.filter(|(e, ends)| e.movement.is_scatter_gather() && ends.1.0 as usize == v)
        .all(|(e, _)| count == e.movement.keys().len())
}
