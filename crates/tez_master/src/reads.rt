//! What a master tells of itself. None of these calls takes memory.
ghost use Rattle.std.specs.Prelude.{◌≡◌, ◌/◌, IfSome, Some, Option, slice_get};
ghost use Rattle.std.specs.Option.{option_map};
ghost use Rattle.tez_ids.specs.declared.AttemptId.{AttemptId as Attempt};
ghost use Rattle.tez_pool.specs.Table.{place_held};
ghost use Rattle.tez_schedule.specs.Table.{config_at, progress_at};
ghost use Rattle.tez_master_model.specs.Enabled.{why_in, may_ask};
ghost use Rattle.tez_master_model.specs.Read.{winner_in, free_place, piece_in};
ghost use Rattle.tez_master_model.specs.Choice.{choice_in};
ghost use Rattle.tez_master_model.specs.Victim.{IsVictim};

use crate::master::Master;
use tez_events::CoreEvent;
use tez_ids::{AttemptId, EdgeId, NodeId, TaskId, VertexId};
use tez_master_model::Why;
use tez_vman::Config;

impl Master {
    /// The master's own next event, None exactly where none of its own may come. Takes time in the
    /// places, the vertices and the edges, and not in tasks and inputs.
    pub fn choice(&self) -> Option<CoreEvent>
        ensures { (victim : Option Attempt) × IsVictim self.now.state victim
            × (result ≡ choice_in self.now.state victim) }
    {
        self.lead.choice()
    }

    /// Whether the store may be asked of a sink: in a commit that an earlier master started, of the one
    /// that is recorded next, once. Takes time in the vertices.
    pub fn may_ask(&self, v: VertexId) -> bool
        ensures { result ≡ may_ask self.now.state v.0 }
    {
        self.lead.core().may_ask(v)
    }

    /// Why an attempt is not processing, None exactly where it is.
    pub fn why(&self, a: AttemptId) -> Option<Why>
        ensures { result ≡ why_in self.now.state a }
    {
        self.lead.core().why(a)
    }

    /// The tasks of a vertex and the partitions that each takes, None where it is not configured.
    pub fn config_of(&self, v: VertexId) -> Option<Config>
        ensures { result ≡ config_at self.now.state.schedule v.0 }
    {
        self.lead.core().config_of(v)
    }

    /// The winner of a task, None where it has none.
    pub fn winner_of(&self, t: TaskId) -> Option<AttemptId>
        ensures { result ≡ winner_in self.now.state t }
    {
        self.lead.core().winner_of(t)
    }

    /// How many tasks of a vertex have a winner, and how many there are: both 0 while it is not
    /// configured.
    pub fn progress(&self, v: VertexId) -> (u32, u32)
        ensures { result ≡ progress_at self.now.state.schedule v.0 }
    {
        self.lead.core().progress(v)
    }

    /// The place of an attempt and that place's node, None where it holds no place.
    pub fn place_of(&self, a: AttemptId) -> Option<(u32, NodeId)>
        ensures place { option_map (λ x. x.0) result ≡ place_held self.now.state.pool.places a }
        ensures slot { IfSome result (λ x. x.1.slot ≡ x.0 / self.now.state.pool.per_node) }
        ensures life { IfSome result (λ x. slice_get self.now.state.pool.lives x.1.slot ≡ Some x.1.life) }
    {
        self.lead.core().place_of(a)
    }

    /// The least free place.
    pub fn free_place(&self) -> Option<u32>
        ensures { result ≡ free_place self.now.state }
    {
        self.lead.core().free_place()
    }

    /// The life of the node that stands in a slot.
    pub fn life_of(&self, slot: u16) -> Option<u64>
        ensures { result ≡ slice_get self.now.state.pool.lives slot }
    {
        self.lead.core().life_of(slot)
    }

    /// The winner behind an input of a waiting attempt, and the number of its output. None exactly
    /// where the source task has no winner.
    pub fn piece_of(&self, a: AttemptId, e: EdgeId, input: u32) -> Option<(AttemptId, u32)>
        ensures { result ≡ piece_in self.now.state a e.0 input }
    {
        self.lead.core().piece_of(a, e, input)
    }
}
