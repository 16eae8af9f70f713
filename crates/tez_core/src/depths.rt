//! The depth of a vertex.
ghost use Rattle.std.specs.Prelude.{◌≡◌};
ghost use Rattle.tez_plan.specs.Order.{depth};

use tez_ids::VertexId;
use tez_plan::{Plan, depth};

/// The depth of a vertex, 0 where there is no such vertex.
pub(crate) fn depth_of(p: &Plan, v: VertexId) -> u32
    ensures { result ≡ depth p.now v.0 }
{
    if (v.0 as usize) < p.vertices().len() {
        depth(p, v)
    } else {
        0
    }
}
