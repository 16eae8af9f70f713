ghost use Rattle.std.specs.Prelude.{◌≡◌, ◌++◌, ◌∷◌, [], ◌≤◌, ◌==◌, ◌^◌, ◌<◌, ◌*◌, true, false, not, map, length, replicate, OnOk, IfOk, IfNone, IfSome, IsTrue, nat_lt};
ghost use Rattle.std.specs.List.{flat_map, list_any, count_by, sum_by, list_all};
ghost use Rattle.tez_router.specs.State.{routing_of};
ghost use Rattle.tez_router.specs.Edges.{AreNumberedFrom, AreByEdge, IsEdgePlace, IsEdgeAt, IsNotEdgeAt, IsOneAt, IsNone};
ghost use Rattle.tez_router.specs.Between.{over};
ghost use Rattle.tez_router.specs.Table.{inputs_in, blank_over, blank, fetch_over, has_over, missing_of, restart_over, restart_by, can_restart, can_restart_by};

use crate::link::{Link, inputs_of};
use std::alloc::{AllocError, Global};
use std::marker::Model;
use tez_edges::Manager;
use tez_ids::{AttemptId, EdgeId};
use tez_runs::Runs;

/// Which inputs over an edge were fetched.
#[derive(Drop)]
pub struct Inputs {
    edge: EdgeId,
    fetched: Runs,
}

impl Model for Inputs {
    ghost use Rattle.tez_router.specs.State.{EdgeInputs};

    ghost Value = { EdgeInputs };

    ghost view = { λ r. record { edge = r.edge.0; fetched = r.fetched } };
}

impl Inputs {
    pub fn edge(&self) -> EdgeId
        ensures { result.0 ≡ self.now.edge }
    {
        self.edge
    }

    pub fn fetched(&self) -> &Runs
        ensures { result.now ≡ self.now.fetched }
    {
        &self.fetched
    }

    fn fetch(&mut self, edge: EdgeId, input: u32)
        ensures { self.new ≡ fetch_over edge.0 input self.old }
    {
        if self.edge == edge {
            self.fetched.set(input);
        }
    }

    fn comes_before(&self, edge: EdgeId) -> bool
        ensures { result ≡ nat_lt self.now.edge edge.0 }
    {
        self.edge.0 < edge.0
    }

    fn can_restart(&self, edge: EdgeId, inputs: u32) -> bool
        ensures { result ≡ can_restart edge.0 inputs self.now }
    {
        self.edge != edge || (self.fetched.count() == 0 && inputs <= self.fetched.len())
    }

    fn restart(&mut self, edge: EdgeId, inputs: u32)
        requires { IsTrue (can_restart edge.0 inputs self.old) }
        ensures { self.new ≡ restart_over edge.0 inputs self.old }
    {
        if self.edge == edge {
            self.fetched.restart(inputs);
        }
    }
}

/// An admitted attempt with what it has fetched.
#[derive(Drop)]
pub struct Admitted {
    attempt: AttemptId,
    edges: Vec<Inputs>,
}

impl Model for Admitted {
    ghost use Rattle.tez_router.specs.State.{AdmittedState};
    ghost use Rattle.tez_router.specs.Edges.{AreInputs};

    ghost Value = { AdmittedState };

    ghost view = { λ r. record { attempt = r.attempt; edges = r.edges.items } };

    ghost invariant = { λ r. AreInputs r.edges.items };
}

// Adds the attempt's inputs over the edge, if it leads to the attempt's vertex.
fn add_blank(
    alloc: Global,
    edges: &mut Vec<Inputs>,
    link: &Link,
    attempt: AttemptId,
) -> Result<(), AllocError>
    ensures { OnOk result (edges.new.items ≡ edges.old.items ++ blank_over attempt link.now) }
{
    if link.leads_to(attempt.task.vertex) {
        let fetched = Runs::new(alloc, link.inputs_of(attempt.task.index))?;
        edges.push(Inputs {
            edge: link.edge(),
            fetched,
        })?;
    }
    Ok(())
}

fn blank_edges(alloc: Global, links: &[Link], attempt: AttemptId) -> Result<Vec<Inputs>, AllocError>
    ensures { IfOk result (λ edges. edges.items ≡ flat_map (blank_over attempt) links.now) }
{
    let mut edges = Vec::new(alloc);
    for link in links {
        add_blank(alloc, &mut edges, link, attempt)?;
    }
    Ok(edges)
}

fn missing_over(edges: &[Inputs]) -> u64
    requires { length edges.now ≤ 256 }
    ensures { result ≡ sum_by (λ y. count_by not y.fetched) edges.now }
{
    let mut total = 0;
    for inputs in edges {
        total += u64::from(inputs.fetched().missing());
    }
    total
}

// How many of the inputs are over edges before this one. Logarithmic.
fn edge_place(edges: &[Inputs], edge: EdgeId) -> usize
    requires { AreByEdge edges.now }
    ensures inside { result ≤ length edges.now }
    ensures place { IsEdgePlace edges.now edge.0 result }
{
    edges.partition_point(|inputs| inputs.comes_before(edge))
}

fn is_edge_at(edges: &[Inputs], at: usize, edge: EdgeId) -> bool
    ensures yes { result ≡ true → IsEdgeAt edges.now edge.0 at }
    ensures no { result ≡ false → IsNotEdgeAt edges.now edge.0 at }
{
    at < edges.len() && edges[at].edge() == edge
}

// Where the inputs over the edge stand. Logarithmic.
fn find_edge(edges: &[Inputs], edge: EdgeId) -> Option<usize>
    requires { AreByEdge edges.now }
    ensures some { IfSome result (λ at. IsOneAt (λ y. y.edge == edge.0) edges.now at) }
    ensures none { IfNone result (IsNone (λ y. y.edge == edge.0) edges.now) }
{
    let at = edge_place(edges, edge);
    if is_edge_at(edges, at, edge) {
        Some(at)
    } else {
        None
    }
}

fn restart_each(edges: &mut [Inputs], edge: EdgeId, inputs_now: u32)
    requires { IsTrue (list_all (can_restart edge.0 inputs_now) edges.old) }
    ensures { edges.new ≡ map (restart_over edge.0 inputs_now) edges.old }
{
    for inputs in edges.iter_mut() {
        inputs.restart(edge, inputs_now);
    }
}

impl Admitted {
    /// The attempt with all its inputs, none of them fetched. Takes the room that fetching them
    /// needs.
    pub fn new(alloc: Global, links: &[Link], attempt: AttemptId) -> Result<Self, AllocError>
        requires few { length links.now ≤ 256 }
        requires numbered { AreNumberedFrom 0 links.now }
        ensures { IfOk result (λ x. x ≡ blank links.now attempt) }
    {
        Ok(Admitted {
            attempt,
            edges: blank_edges(alloc, links, attempt)?,
        })
    }

    pub fn attempt(&self) -> AttemptId
        ensures { result ≡ self.now.attempt }
    {
        self.attempt
    }

    pub fn edges(&self) -> &[Inputs]
        ensures { result.now ≡ self.now.edges }
    {
        self.edges.as_slice()
    }

    pub fn fetch(&mut self, edge: EdgeId, input: u32)
        ensures { self.new ≡ record self.old { edges = map (fetch_over edge.0 input) self.old.edges } }
    {
        if let Some(at) = find_edge(self.edges.as_slice(), edge) {
            self.edges[at].fetch(edge, input);
        }
    }

    pub fn has(&self, edge: EdgeId, input: u32) -> bool
        ensures { result ≡ list_any (has_over edge.0 input) self.now.edges }
    {
        match find_edge(self.edges.as_slice(), edge) {
            Some(at) => self.edges[at].fetched().is_set(input),
            None => false,
        }
    }

    /// The inputs over an edge. Logarithmic.
    pub fn over(&self, edge: EdgeId) -> Option<&Inputs>
        ensures some { IfSome result (λ y. over edge.0 self.now.edges ≡ y.now ∷ []) }
        ensures none { IfNone result (over edge.0 self.now.edges ≡ []) }
    {
        match find_edge(self.edges.as_slice(), edge) {
            Some(at) => Some(&self.edges[at]),
            None => None,
        }
    }

    pub fn missing(&self) -> u64
        ensures { result ≡ missing_of self.now }
    {
        missing_over(self.edges.as_slice())
    }

    pub fn can_restart(&self, edge: EdgeId, manager: Manager) -> bool
        ensures { result ≡ can_restart_by edge.0 (routing_of manager) self.now }
    {
        let now = inputs_of(manager, self.attempt.task.index);
        self.edges
            .iter()
            .all(|inputs| inputs.can_restart(edge, now))
    }

    pub fn restart(&mut self, edge: EdgeId, manager: Manager)
        requires { IsTrue (can_restart_by edge.0 (routing_of manager) self.old) }
        ensures { self.new ≡ restart_by edge.0 (routing_of manager) self.old }
    {
        let inputs = inputs_of(manager, self.attempt.task.index);
        restart_each(self.edges.as_mut_slice(), edge, inputs);
    }
}
