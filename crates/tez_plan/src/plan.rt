ghost use Rattle.std.specs.Prelude.{◌≡◌, ◌≤◌, ◌<◌, length, map, IfOk};
ghost use Rattle.std.specs.List.{position};
ghost use Rattle.std.specs.Option.{option_map};
ghost use Rattle.std.specs.Str.{bytes_eq};
ghost use Rattle.tez_plan.specs.Dag.{source_of, target_of, vertex};
ghost use Rattle.tez_plan.specs.Faults.{IsValid};
ghost use Rattle.tez_plan.specs.Order.{depth, topo};
ghost use Rattle.tez_plan.specs.Ranges.{IsInRanges};

use crate::graph::Graph;
use crate::parts::{EdgeSpec, VertexSpec};
use std::alloc::{AllocError, Global};
use std::marker::Model;
use tez_ids::{EdgeId, VertexId};

/// A valid plan, of which contracts see the name and the two lists.
#[derive(Drop)]
pub struct Plan {
    graph: Graph,
    order: Vec<VertexId>,
    depths: Vec<u32>,
}

impl Model for Plan {
    ghost use Rattle.tez_plan.specs.Dag.{Dag};
    ghost use Rattle.tez_plan.specs.Kept.{IsKept};

    ghost Value = { Dag };

    ghost view = { λ p. p.graph };

    ghost invariant = { λ p. IsKept p.graph p.order.items p.depths.items };
}

fn place_named(vertices: &[VertexSpec], name: &str) -> Option<usize>
    ensures { result ≡ position (λ v. bytes_eq name.now v.name) vertices.now }
{
    vertices
        .iter()
        .position(|vertex| name == vertex.name.as_str())
}

impl Plan {
    /// The plan of a graph in whose checks no fault was found, with its vertices in order.
    pub fn of_graph(alloc: Global, graph: Graph, order: Vec<VertexId>) -> Result<Self, AllocError>
        requires in_ranges { IsInRanges graph }
        requires valid { IsValid graph }
        requires order { order.items ≡ map vertex (topo graph) }
        ensures { IfOk result (λ p. p ≡ graph) }
    {
        let depths = graph.depths(alloc)?;
        Ok(Plan {
            graph,
            order,
            depths,
        })
    }

    /// The name of the plan.
    pub fn name(&self) -> &str
        ensures { result.now ≡ self.now.name }
    {
        self.graph.name().as_str()
    }

    /// The vertices. A vertex's number is its place here.
    pub fn vertices(&self) -> &[VertexSpec]
        ensures same { result.now ≡ self.now.vertices }
        ensures in_ranges { IsInRanges self.now }
        ensures valid { IsValid self.now }
        ensures few { length result.now ≤ 64 }
    {
        let _ = &self.order;
        self.graph.vertices()
    }

    /// The edges. An edge's number is its place here.
    pub fn edges(&self) -> &[EdgeSpec]
        ensures { result.now ≡ self.now.edges }
    {
        self.graph.edges()
    }

    /// The vertex of this name.
    pub fn vertex_named(&self, name: &str) -> Option<VertexId>
        ensures { option_map (λ v. v.0) result ≡ position (λ s. bytes_eq name.now s.name) self.now.vertices }
    {
        match place_named(self.vertices(), name) {
            Some(v) => Some(VertexId(v as u16)),
            None => None,
        }
    }

    /// The vertices at the ends of an edge, its source first.
    pub fn ends(&self, e: EdgeId) -> (VertexId, VertexId)
        requires { e.0 < length self.now.edges }
        ensures source { result.0.0 ≡ source_of self.now e.0 }
        ensures target { result.1.0 ≡ target_of self.now e.0 }
        ensures source_inside { result.0.0 < length self.now.vertices }
        ensures target_inside { result.1.0 < length self.now.vertices }
    {
        self.graph.ends()[e.0 as usize]
    }

    /// An equal plan. Takes memory for all of it.
    pub fn copy(&self, alloc: Global) -> Result<Self, AllocError>
        ensures { IfOk result (λ copy. copy ≡ self.now) }
    {
        Ok(Plan {
            graph: self.graph.copy(alloc)?,
            order: Vec::from_slice(alloc, &self.order)?,
            depths: Vec::from_slice(alloc, &self.depths)?,
        })
    }
}

/// The vertices in order: again and again the least one whose predecessors are all out.
pub fn topo(alloc: Global, p: &Plan) -> Result<Vec<VertexId>, AllocError>
    ensures { IfOk result (λ order. order.items ≡ map vertex (topo p.now)) }
{
    Vec::from_slice(alloc, &p.order)
}

/// The number of edges on the longest path to the vertex.
pub fn depth(p: &Plan, v: VertexId) -> u32
    requires { v.0 < length p.now.vertices }
    ensures { result ≡ depth p.now v.0 }
{
    p.depths[v.0 as usize]
}
