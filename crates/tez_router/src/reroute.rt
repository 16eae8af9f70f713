// Edge managers once the vertex at an end has other tasks.
ghost use Rattle.std.specs.Prelude.{◌≡◌, ◌≤◌, ◌*◌, ◌<◌, ◌^◌, true, if◌then◌else◌};

use tez_edges::{Broadcast, OneToOne, ScatterGather};
use tez_vman::Config;

// The number of the vertex that is configured, where this end is at it.
fn at_end(here: bool, now: u32, before: u32) -> u32
    ensures { result ≡ (if here then now else before) }
{
    if here { now } else { before }
}

/// The vertex is the source of the edge, or not.
pub fn reroute_pairs(m: OneToOne, config: Config, from: bool) -> OneToOne
    requires some { 1 ≤ config.tasks }
    ensures { result.tasks ≡ (if from then config.tasks else m.tasks) }
{
    OneToOne {
        tasks: at_end(from, config.tasks, m.tasks),
    }
}

/// The vertex is the source of the edge, its target, or neither.
pub fn reroute_broadcast(m: Broadcast, config: Config, from: bool, to: bool) -> Broadcast
    requires some { 1 ≤ config.tasks }
    ensures sources { result.sources ≡ (if from then config.tasks else m.sources) }
    ensures consumers { result.consumers ≡ (if to then config.tasks else m.consumers) }
{
    Broadcast {
        sources: at_end(from, config.tasks, m.sources),
        consumers: at_end(to, config.tasks, m.consumers),
    }
}

/// The partitions stay as many as they were.
pub fn reroute_shuffle(m: ScatterGather, config: Config, from: bool, to: bool) -> ScatterGather
    requires some { 1 ≤ config.tasks }
    requires based { 1 ≤ config.base }
    requires fits { from ≡ true → config.tasks * m.parts < 2 ^ 32 }
    requires narrow { to ≡ true → config.base ≤ m.parts }
    ensures sources { result.sources ≡ (if from then config.tasks else m.sources) }
    ensures parts { result.parts ≡ m.parts }
    ensures base { result.base ≡ (if to then config.base else m.base) }
{
    ScatterGather {
        sources: at_end(from, config.tasks, m.sources),
        parts: m.parts,
        base: at_end(to, config.base, m.base),
    }
}
