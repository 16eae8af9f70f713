//! What the managers see and say.
ghost use Rattle.std.specs.Prelude.{◌≡◌, ◌≤◌, ◌<◌, ◌^◌, true, length, map, slice_get, IfSome};
ghost use Rattle.tez_plan.specs.Ranges.{most_tasks};
ghost use Rattle.std.specs.Option.{option_and_then};
ghost use Rattle.tez_lists.specs.Tables.{each_from};
ghost use Rattle.tez_vman.specs.Rules.{HasSources};
ghost use Rattle.tez_schedule.specs.Kept.{layout, planned_at, planned_sources, IsLaidOut, AreLaidOut};
ghost use Rattle.tez_schedule.specs.Table.{tasks_at, won_at, is_configured_at, made_at, seen_by, to_schedule, to_schedule_at, configures_by, can_have, can_configure_in, asked_at};

use crate::edge_bytes::EdgeBytes;
use crate::vertex::VertexSchedule;
use tez_ids::{EdgeId, VertexId};
use tez_vman::{Config, Seen, VertexManager};

// Of a vertex its tasks, how many have a winner, and whether it is configured.
fn source_at(vertices: &[VertexSchedule], v: VertexId) -> (u32, u32, bool)
    ensures tasks { result.0 ≡ tasks_at vertices.now v.0 }
    ensures winners { result.1 ≡ won_at vertices.now v.0 }
    ensures configured { result.2 ≡ is_configured_at vertices.now v.0 }
    ensures finished { result.1 ≤ result.0 }
    ensures few { result.0 ≤ most_tasks }
    ensures some { result.2 ≡ true → 1 ≤ result.0 }
    ensures planned { result.0 ≤ planned_at (map layout vertices.now) v.0 }
{
    match vertices.get(v.0 as usize) {
        Some(x) => (x.tasks(), x.winners(), x.is_configured()),
        None => (0, 0, false),
    }
}

fn made_at(edges: &[EdgeBytes], e: EdgeId) -> u128
    ensures sum { result ≡ made_at edges.now e.0 }
    ensures few { result < 2 ^ 78 }
{
    match edges.get(e.0 as usize) {
        Some(edge) => edge.total(),
        None => 0,
    }
}

/// What the manager of a vertex sees. Takes time in the inputs of the vertex.
pub(crate) fn see(vertices: &[VertexSchedule], edges: &[EdgeBytes], x: &VertexSchedule) -> Seen
    ensures seen { result ≡ seen_by vertices.now edges.now x.now }
    ensures finished { result.finished ≤ result.sources }
    ensures few { result.sources < 2 ^ 32 }
    ensures some { HasSources x.now.rule result }
    ensures bytes { result.bytes < 2 ^ 96 }
    ensures planned { result.sources ≤ planned_sources (map layout vertices.now) (layout x.now) }
{
    let _managed = x.manager();
    let mut seen = Seen {
        sources: 0,
        configured: true,
        finished: 0,
        bytes: 0,
        tasks: x.tasks(),
    };
    for input in x.inputs() {
        let (tasks, winners, configured) = source_at(vertices, input.source);
        seen.sources += tasks as u64;
        seen.configured = seen.configured && configured;
        seen.finished += winners as u64;
        seen.bytes += made_at(edges, input.edge);
    }
    seen
}

/// How many tasks of a vertex there are to schedule.
pub(crate) fn to_schedule(
    vertices: &[VertexSchedule],
    edges: &[EdgeBytes],
    x: &VertexSchedule,
) -> u32
    ensures { result ≡ to_schedule vertices.now edges.now x.now }
{
    if x.is_configured() {
        x.manager().to_schedule(&see(vertices, edges, x))
    } else {
        0
    }
}

// What a vertex is to be configured with, None once it is configured.
fn configures(
    vertices: &[VertexSchedule],
    edges: &[EdgeBytes],
    x: &VertexSchedule,
) -> Option<Config>
    requires { IsLaidOut (map layout vertices.now) (layout x.now) }
    ensures value { result ≡ configures_by vertices.now edges.now x.now }
    ensures fits { IfSome result (λ c. can_have c x.now ≡ true) }
{
    let _planned = x.tasks();
    if x.is_configured() {
        None
    } else {
        x.manager().configure(&see(vertices, edges, x))
    }
}

/// What the vertex of this number is to be configured with.
pub(crate) fn configures_at(
    vertices: &[VertexSchedule],
    edges: &[EdgeBytes],
    v: VertexId,
) -> Option<Config>
    requires { AreLaidOut (map layout vertices.now) }
    ensures value { result ≡ option_and_then (configures_by vertices.now edges.now) (slice_get vertices.now v.0) }
    ensures fits { IfSome result (λ c. can_configure_in vertices.now v.0 c ≡ true) }
{
    match vertices.get(v.0 as usize) {
        Some(x) => configures(vertices, edges, x),
        None => None,
    }
}

fn to_schedule_at(vertices: &[VertexSchedule], edges: &[EdgeBytes], v: usize) -> u32
    ensures { result ≡ to_schedule_at vertices.now edges.now v }
{
    match vertices.get(v) {
        Some(x) => to_schedule(vertices, edges, x),
        None => 0,
    }
}

/// Asks each manager how many tasks there are to schedule, and keeps the greatest number. Takes time
/// in the vertices and their inputs.
pub(crate) fn ask(vertices: &[VertexSchedule], edges: &[EdgeBytes], greatest: &mut [u32])
    ensures { greatest.new ≡ each_from 0 (asked_at vertices.now edges.now) greatest.old }
{
    for v in 0..greatest.len() {
        greatest[v] = greatest[v].max(to_schedule_at(vertices, edges, v));
    }
}
