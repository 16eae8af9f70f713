ghost use Rattle.std.specs.Prelude.{◌≡◌, ◌≢◌, ◌⊎◌, ◌<◌, ◌≤◌, ℕ, [], length, map, is_some, IfOk, OnOk, IfErr, IfSome};
ghost use Rattle.std.specs.List.{AllByRecursion, list_any, position_or_len};
ghost use Rattle.std.specs.Str.{bytes_eq};
ghost use Rattle.tez_plan.specs.declared.fault.PlanFault.TheVariants.{NoMemory, TooMany, DuplicateName, UnknownName};
ghost use Rattle.tez_plan.specs.Dag.{dag_of, ends_of, vertex, edge};
ghost use Rattle.tez_plan.specs.Faults.{Passes, IsFirstFault, IsNowhere, IsFirstWhere, Finds, too_many_parts, duplicate_name, unknown_name};
ghost use Rattle.tez_plan.specs.Graph.{AllWithin, AreInside, ends_among, unknown_among};

use crate::copies::{copy_edges, copy_vertices};
use crate::fault::PlanFault;
use crate::parts::{EdgeSpec, VertexSpec};
use indexmap::IndexSet;
use std::alloc::{AllocError, Global};
use std::marker::Model;
use tez_ids::{EdgeId, Name, VertexId};

/// The lists of a plan, with the vertices at the ends of each edge.
#[derive(Drop)]
pub struct Graph {
    name: Name,
    vertices: Vec<VertexSpec>,
    edges: Vec<EdgeSpec>,
    ends: Vec<(VertexId, VertexId)>,
}

impl Model for Graph {
    ghost use Rattle.tez_plan.specs.Dag.{Dag, dag_of};
    ghost use Rattle.tez_plan.specs.Graph.{IsGraph};

    ghost Value = { Dag };

    ghost view = { λ g. dag_of g.name g.vertices.items g.edges.items };

    ghost invariant = { λ g. IsGraph (dag_of g.name g.vertices.items g.edges.items) g.ends.items };
}

impl Graph {
    /// Joins the edges to the vertices. Refuses too many of them, a name that comes again, and an
    /// edge with an end that names no vertex.
    pub fn new(
        alloc: Global,
        name: Name,
        vertices: Vec<VertexSpec>,
        edges: Vec<EdgeSpec>,
    ) -> Result<Self, PlanFault>
        ensures plan { IfOk result (λ g. g ≡ dag_of name vertices.items edges.items) }
        ensures passes { OnOk result (Passes 3 (dag_of name vertices.items edges.items)) }
        ensures fault { IfErr result (λ f. f ≢ NoMemory → IsFirstFault (dag_of name vertices.items edges.items) f) }
    {
        if let Err(fault) = check_sizes(&vertices, &edges) {
            return Err(fault);
        }
        match numbered_ends(alloc, &vertices, &edges) {
            Err(fault) => Err(fault),
            Ok(ends) => Ok(Graph {
                name,
                vertices,
                edges,
                ends,
            }),
        }
    }

    /// An equal graph. Takes memory for all of it.
    pub fn copy(&self, alloc: Global) -> Result<Self, AllocError>
        ensures { IfOk result (λ copy. copy ≡ self.now) }
    {
        Ok(Graph {
            name: Name::copy_of(alloc, self.name.as_str())?,
            vertices: copy_vertices(alloc, &self.vertices)?,
            edges: copy_edges(alloc, &self.edges)?,
            ends: Vec::from_slice(alloc, &self.ends)?,
        })
    }

    pub fn name(&self) -> &Name
        ensures { result.now ≡ self.now.name }
    {
        &self.name
    }

    pub fn vertices(&self) -> &[VertexSpec]
        ensures same { result.now ≡ self.now.vertices }
        ensures few { length result.now ≤ 64 }
    {
        self.vertices.as_slice()
    }

    pub fn edges(&self) -> &[EdgeSpec]
        ensures same { result.now ≡ self.now.edges }
        ensures few { length result.now ≤ 256 }
    {
        self.edges.as_slice()
    }

    /// The ends of each edge.
    pub fn ends(&self) -> &[(VertexId, VertexId)]
        ensures same { result.now ≡ map (ends_of self.now) self.now.edges }
        ensures inside { AllByRecursion (AreInside self.now) self.now.edges }
        ensures within { AllWithin (length self.now.vertices) result.now }
        ensures few { length result.now ≤ 256 }
    {
        self.ends.as_slice()
    }
}

fn check_sizes(vertices: &[VertexSpec], edges: &[EdgeSpec]) -> Result<(), PlanFault>
    ensures few { OnOk result ((length vertices.now ≤ 64) × (length edges.now ≤ 256)) }
    ensures fault { IfErr result (λ f. (n : ℕ) × IsFirstWhere (too_many_parts (dag_of [] vertices.now edges.now)) n × (f ≡ TooMany n)) }
{
    if vertices.len() > 64 {
        return Err(PlanFault::TooMany { place: 64 });
    }
    if edges.len() > 256 {
        return Err(PlanFault::TooMany { place: 256 });
    }
    Ok(())
}

/// The ends of each edge, by the names of the vertices.
fn numbered_ends(
    alloc: Global,
    vertices: &[VertexSpec],
    edges: &[EdgeSpec],
) -> Result<Vec<(VertexId, VertexId)>, PlanFault>
    requires few_vertices { length vertices.now ≤ 64 }
    requires few_edges { length edges.now ≤ 256 }
    ensures ends { IfOk result (λ ends. ends.items ≡ map (ends_of (dag_of [] vertices.now edges.now)) edges.now) }
    ensures own { OnOk result (IsNowhere (duplicate_name (dag_of [] vertices.now edges.now))) }
    ensures known { OnOk result (IsNowhere (unknown_name (dag_of [] vertices.now edges.now))) }
    ensures fault { IfErr result (λ f. f ≢ NoMemory → Finds (duplicate_name (dag_of [] vertices.now edges.now)) (λ n. DuplicateName (vertex n)) f ⊎ (IsNowhere (duplicate_name (dag_of [] vertices.now edges.now)) × Finds (unknown_name (dag_of [] vertices.now edges.now)) (λ n. UnknownName (edge n)) f)) }
{
    let mut names = IndexSet::new(alloc);
    match add_names(&mut names, vertices) {
        Ok(()) => connect(alloc, &names, edges),
        Err(fault) => Err(fault),
    }
}

/// Adds the names of the vertices to a set that has none.
fn add_names<'a>(names: &mut IndexSet<&'a str>, vertices: &'a [VertexSpec]) -> Result<(), PlanFault>
    requires none { names.old.keys ≡ [] }
    requires few { length vertices.now ≤ 64 }
    ensures names { OnOk result (map (λ k. k.now) names.new.keys ≡ map (λ s. s.name) vertices.now) }
    ensures own { OnOk result (IsNowhere (duplicate_name (dag_of [] vertices.now []))) }
    ensures fault { IfErr result (Finds (duplicate_name (dag_of [] vertices.now [])) (λ n. DuplicateName (vertex n))) }
{
    for v in 0..vertices.len() {
        match names.insert(vertices[v].name.as_str()) {
            Ok(true) => {}
            Ok(false) => {
                return Err(PlanFault::DuplicateName {
                    vertex: VertexId(v as u16),
                });
            }
            Err(_) => return Err(PlanFault::NoMemory),
        }
    }
    Ok(())
}

/// The ends of each edge among the names.
fn connect(
    alloc: Global,
    names: &IndexSet<&str>,
    edges: &[EdgeSpec],
) -> Result<Vec<(VertexId, VertexId)>, PlanFault>
    requires few_names { length names.now.keys ≤ 64 }
    requires few_edges { length edges.now ≤ 256 }
    ensures ends { IfOk result (λ ends. ends.items ≡ map (ends_among (map (λ k. k.now) names.now.keys)) edges.now) }
    ensures known { OnOk result (IsNowhere (unknown_among (map (λ k. k.now) names.now.keys) edges.now)) }
    ensures fault { IfErr result (Finds (unknown_among (map (λ k. k.now) names.now.keys) edges.now) (λ n. UnknownName (edge n))) }
{
    let mut ends = Vec::new(alloc);
    for e in 0..edges.len() {
        let edge = &edges[e];
        let source = vertex_named(names, edge.source.as_str());
        let target = vertex_named(names, edge.target.as_str());
        let (Some(source), Some(target)) = (source, target) else {
            return Err(PlanFault::UnknownName {
                edge: EdgeId(e as u16),
            });
        };
        if ends.push((source, target)).is_err() {
            return Err(PlanFault::NoMemory);
        }
    }
    Ok(ends)
}

fn vertex_named(names: &IndexSet<&str>, name: &str) -> Option<VertexId>
    requires few_names { length names.now.keys ≤ 64 }
    ensures place { IfSome result (λ v. v ≡ vertex (position_or_len (bytes_eq name.now) (map (λ k. k.now) names.now.keys))) }
    ensures found { is_some result ≡ list_any (bytes_eq name.now) (map (λ k. k.now) names.now.keys) }
{
    match names.get_index_of(name) {
        Some(place) => Some(VertexId(place as u16)),
        None => None,
    }
}
