//! What a vertex is to be configured with, and the pieces behind inputs.
ghost use Rattle.std.specs.Prelude.{◌≡◌, true, IfSome};
ghost use Rattle.tez_schedule.specs.Table.{configures_at, can_configure};
ghost use Rattle.tez_master_model.specs.Read.{piece_in};

use crate::parts::Core;
use crate::sinks::target_of;
use tez_ids::{AttemptId, EdgeId, VertexId};
use tez_vman::Config;

impl Core {
    /// The tasks that a vertex is to be configured with now, and how many partitions each of them takes.
    /// None once it is configured, and before its manager says.
    pub fn configuration(&self, v: VertexId) -> Option<Config>
        ensures value { result ≡ configures_at self.now.schedule v.0 }
        ensures fits { IfSome result (λ c. can_configure self.now.schedule v.0 c ≡ true) }
    {
        self.schedule.configuration(v)
    }

    /// The winner behind an input of an attempt, over an edge that leads to its vertex, and which of the
    /// winner's outputs the input is.
    pub fn piece_of(&self, a: AttemptId, e: EdgeId, input: u32) -> Option<(AttemptId, u32)>
        ensures { result ≡ piece_in self.now a e.0 input }
    {
        if target_of(&self.plan, e) == a.task.vertex {
            self.router.piece_of(a, e, input)
        } else {
            None
        }
    }
}
