ghost use Rattle.std.specs.Prelude.{◌≡◌, ◌≤◌, ◌<◌, ◌+◌, ◌&&◌, ◌==◌, ◌^◌, ◌-◌, ℕ, false, List, not, length, map, All, slice_index_or as get_or, IfOk, IfErr, IfSome, OnOk};
ghost use Rattle.std.specs.List.{find, position, zip};
ghost use Rattle.tez_plan.specs.Dag.{vertex};
ghost use Rattle.tez_plan.specs.Order.{among, is_ready, topo, depth, vertex_numbers};
ghost use Rattle.tez_plan.specs.Faults.{Passes, IsFirstFault};
ghost use Rattle.tez_plan.specs.Graph.{waits_for, longest_into, AllWithin};

use crate::fault::PlanFault;
use crate::graph::Graph;
use std::alloc::{AllocError, Global};
use tez_ids::VertexId;

impl Graph {
    /// The vertices in order: again and again the least one whose predecessors are all out. Those
    /// on a cycle or behind one are left out.
    pub fn order(&self, alloc: Global) -> Result<Vec<VertexId>, AllocError>
        ensures { IfOk result (λ order. order.items ≡ map vertex (topo self.now)) }
    {
        let count = self.vertices().len();
        let mut order = Vec::new(alloc);
        let mut out = vec![in alloc; false; count]?;
        let mut waits = vec![in alloc; false; count]?;
        for _ in 0..count {
            if let Some(v) = self.next_ready(&out, &mut waits) {
                order.push(VertexId(v as u16))?;
                out[v] = true;
            }
        }
        Ok(order)
    }

    /// The least vertex that is not out and whose predecessors are. What `waits` held is lost.
    fn next_ready(&self, out: &[bool], waits: &mut [bool]) -> Option<usize>
        requires out { length out.now ≡ length self.now.vertices }
        requires waits { length waits.old ≡ length self.now.vertices }
        ensures first { (o : List ℕ) → ((u : ℕ) → u < length self.now.vertices → get_or out.now u false ≡ among o u) → result ≡ find (is_ready self.now o) (vertex_numbers self.now) }
        ensures within { IfSome result (λ v. v < length self.now.vertices) }
    {
        mark_waiting(self.ends(), out, waits);
        first_ready(out, waits)
    }

    /// The length of the longest path to each vertex.
    pub fn depths(&self, alloc: Global) -> Result<Vec<u32>, AllocError>
        ensures { IfOk result (λ depths. depths.items ≡ map (depth self.now) (vertex_numbers self.now)) }
    {
        let count = self.vertices().len();
        let mut known = vec![in alloc; 0; count]?;
        let mut longer = vec![in alloc; 0; count]?;
        for _ in 0..count {
            lengthen(self.ends(), &known, &mut longer);
            known.copy_from_slice(&longer);
        }
        Ok(known)
    }
}

/// Marks the vertices that wait for one that is not out.
fn mark_waiting(ends: &[(VertexId, VertexId)], out: &[bool], waits: &mut [bool])
    requires inside { AllWithin (length out.now) ends.now }
    requires as_many { length waits.old ≡ length out.now }
    ensures { (v : ℕ) → v < length waits.new → get_or waits.new v false ≡ waits_for ends.now out.now v }
{
    waits.fill(false);
    for (source, target) in ends {
        waits[target.0 as usize] |= !out[source.0 as usize];
    }
}

/// The first vertex that is not out and waits for none.
fn first_ready(out: &[bool], waits: &[bool]) -> Option<usize>
    ensures first { result ≡ position (λ q. not q.0 && not q.1) (zip out.now waits.now) }
    ensures within { IfSome result (λ v. v < length out.now) }
{
    out.iter()
        .zip(waits.iter())
        .position(|(out, waits)| !*out && !*waits)
}

/// The longest path to each vertex, where the one to its source is known.
fn lengthen(ends: &[(VertexId, VertexId)], known: &[u32], longer: &mut [u32])
    requires inside { AllWithin (length known.now) ends.now }
    requires as_many { length longer.old ≡ length known.now }
    requires short { All (λ n. n < 2 ^ 32 - 1) known.now }
    ensures { (v : ℕ) → v < length longer.new → get_or longer.new v 0 ≡ longest_into ends.now known.now v }
{
    longer.fill(0);
    for (source, target) in ends {
        let length = 1 + known[source.0 as usize];
        let so_far = longer[target.0 as usize];
        longer[target.0 as usize] = so_far.max(length);
    }
}
