ghost use Rattle.std.specs.Prelude.{◌≡◌, ◌==◌, ◌&&◌, ◌≤◌};
ghost use Rattle.tez_router.specs.State.{routing_of};
ghost use Rattle.tez_router.specs.Span.{IsSpan, IsSpanOf};
ghost use Rattle.tez_router.specs.Between.{is_one_to_one};
ghost use Rattle.tez_router.specs.Table.{inputs_in, source_task, output_of};
ghost use Rattle.tez_router.specs.Configure.{is_at, rerouted, FitsParts, fits_parts};

use crate::reroute::{reroute_broadcast, reroute_pairs, reroute_shuffle};
use std::marker::Model;
use tez_edges::{EdgeManager, Manager};
use tez_ids::{EdgeId, TaskId, VertexId};
use tez_vman::Config;

/// An edge with its manager, of which contracts see the numbers.
#[derive(Drop)]
pub struct Link {
    edge: EdgeId,
    from: VertexId,
    to: VertexId,
    manager: Manager,
}

impl Model for Link {
    ghost use Rattle.tez_router.specs.State.{LinkState, routing_of};

    ghost Value = { LinkState };

    ghost view = { λ l. record { edge = l.edge.0; source = l.from.0; target = l.to.0; routing = routing_of l.manager } };
}

impl Link {
    pub fn new(edge: EdgeId, from: VertexId, to: VertexId, manager: Manager) -> Self
        ensures { result ≡ record { edge = edge.0; source = from.0; target = to.0; routing = routing_of manager } }
    {
        Link {
            edge,
            from,
            to,
            manager,
        }
    }

    pub fn edge(&self) -> EdgeId
        ensures { result.0 ≡ self.now.edge }
    {
        self.edge
    }

    pub fn leads_to(&self, v: VertexId) -> bool
        ensures { result ≡ (self.now.target == v.0) }
    {
        self.to == v
    }

    pub fn is_between(&self, from: VertexId, to: VertexId) -> bool
        ensures { result ≡ (self.now.source == from.0 && (self.now.target == to.0)) }
    {
        self.from == from && self.to == to
    }

    pub fn is_one_to_one(&self) -> bool
        ensures { result ≡ is_one_to_one self.now.routing }
    {
        matches!(self.manager, Manager::OneToOne(_))
    }

    /// None where there is no such task.
    pub fn inputs_of(&self, consumer: u32) -> u32
        ensures { result ≡ inputs_in self.now.routing consumer }
    {
        inputs_of(self.manager, consumer)
    }

    /// The task whose output the input is. None where there is no such input.
    pub fn source_task(&self, consumer: u32, input: u32) -> Option<TaskId>
        ensures { result ≡ source_task self.now consumer input }
    {
        if input >= inputs_of(self.manager, consumer) {
            return None;
        }
        let (source, _) = self.manager.route_error(consumer, input);
        Some(TaskId {
            vertex: self.from,
            index: source,
        })
    }

    /// Which of its outputs the source task of an input makes it. 0 where there is no such input.
    pub fn output_of(&self, consumer: u32, input: u32) -> u32
        ensures { result ≡ output_of self.now consumer input }
    {
        if input >= inputs_of(self.manager, consumer) {
            return 0;
        }
        let (_, output) = self.manager.route_error(consumer, input);
        output
    }

    /// Whether the edge leads from or to the vertex.
    pub fn is_at(&self, v: VertexId) -> bool
        ensures { result ≡ is_at v.0 self.now }
    {
        self.from == v || self.to == v
    }

    /// Whether there are partitions for such a base, and the inputs for such tasks can be numbered.
    pub fn fits(&self, v: VertexId, config: Config) -> bool
        ensures { result ≡ fits_parts v.0 config self.now }
    {
        match self.manager {
            Manager::OneToOne(_) => true,
            Manager::Broadcast(_) => true,
            Manager::ScatterGather(m) => {
                (self.from != v || u64::from(config.tasks) * u64::from(m.parts) < 1 << 32)
                    && (self.to != v || config.base <= m.parts)
            }
        }
    }

    /// The manager that the edge gets when the vertex gets these tasks.
    pub fn rerouted(&self, v: VertexId, config: Config) -> Manager
        requires some { 1 ≤ config.tasks }
        requires based { 1 ≤ config.base }
        requires parts { FitsParts v.0 config self.now }
        ensures { routing_of result ≡ rerouted v.0 config self.now self.now.routing }
    {
        let (from, to) = (self.from == v, self.to == v);
        match self.manager {
            Manager::OneToOne(m) => Manager::OneToOne(reroute_pairs(m, config, from)),
            Manager::Broadcast(m) => Manager::Broadcast(reroute_broadcast(m, config, from, to)),
            Manager::ScatterGather(m) => Manager::ScatterGather(reroute_shuffle(
                m, config, from, to,
            )),
        }
    }

    /// The inputs of the consumer that lead back to the task are among those from the first number
    /// to before the second.
    pub fn span(&self, task: TaskId, consumer: u32) -> (u32, u32)
        ensures { IsSpan self.now task consumer result.0 result.1 }
    {
        if self.from == task.vertex {
            span_of(self.manager, consumer, task.index)
        } else {
            (0, 0)
        }
    }

    pub fn set_manager(&mut self, manager: Manager)
        ensures { self.new ≡ record self.old { routing = routing_of manager } }
    {
        self.manager = manager;
    }
}

/// How many inputs the consumer has: none where there is no such task.
pub fn inputs_of(manager: Manager, consumer: u32) -> u32
    ensures { result ≡ inputs_in (routing_of manager) consumer }
{
    if consumer < manager.consumers() {
        manager.inputs_of(consumer)
    } else {
        0
    }
}

// The inputs of a consumer that come from a source task: at most one by one-to-one and broadcast, by
// scatter-gather those that follow the inputs from the source tasks before.
fn span_of(manager: Manager, consumer: u32, source: u32) -> (u32, u32)
    ensures { IsSpanOf (routing_of manager) consumer source result.0 result.1 }
{
    let inputs = inputs_of(manager, consumer);
    match manager {
        Manager::OneToOne(_) => (0, inputs),
        Manager::Broadcast(_) => {
            if source < inputs {
                (source, source + 1)
            } else {
                (0, 0)
            }
        }
        Manager::ScatterGather(m) => {
            let width = inputs / m.sources;
            if source < m.sources {
                (source * width, source * width + width)
            } else {
                (0, 0)
            }
        }
    }
}
