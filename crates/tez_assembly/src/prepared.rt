// The order of an attempt, in two halves: what takes memory, and the move of what was gathered.
ghost use Rattle.std.specs.Prelude.{◌≡◌, ◌<◌, ◌≤◌, ◌+◌, ◌++◌, ◌∷◌, [], ℕ, length, slice_get, Some, None, vec_len, vec_capacity, IfOk, IfErr};
ghost use Rattle.std.specs.List.{AllByRecursion};
ghost use Rattle.tez_plan.specs.declared.parts.VertexSpec.{VertexSpec as AnyVertex};
ghost use Rattle.tez_meaning.specs.Value.{lines_of};
ghost use Rattle.tez_shares.specs.Shares.{share_of_lines};
ghost use Rattle.tez_assembly.specs.Order.{Records as RecordList, AreGathered, gathered_for, keys_for, order_for, outs_for, source_part};
ghost use Rattle.tez_assembly.specs.Filling.{broadcasts, parts_in, side_in};

use crate::edges::{keys_of_vertex, outs_of_vertex};
use crate::share::share_of_source;
use std::alloc::{AllocError, Global};
use tez_ids::{AttemptId, EdgeId, TaskId, VertexId};
use tez_meaning::Job;
use tez_operators::{Inputs, Primary};
use tez_orders::{Cut, Order};
use tez_plan::{Columns, Plan, Program, VertexSpec};
use tez_record::Records;

/// The order of an attempt at a place, where its vertex has so many tasks and this was gathered
/// over each edge into the vertex, in the order of the edges. Where memory is refused, it gives
/// back what was gathered.
///
/// It takes memory for the share of the source and for copies of the program and the columns; the
/// gathered records are moved. It goes over the edges of the plan three times, and over the source
/// file at most twice.
pub fn assemble(
    alloc: Global,
    job: &Job,
    tasks: u32,
    a: AttemptId,
    place: u32,
    gathered: Vec<(EdgeId, Records)>,
) -> Result<Order, Vec<(EdgeId, Records)>>
    requires vertex { a.task.vertex.0 < length job.now.plan.vertices }
    requires task { a.task.index < tasks }
    requires gathered { AreGathered job.now.plan a.task.vertex.0 gathered.items }
    ensures order { IfOk result (λ o. (s : AnyVertex) (copy : ℕ → RecordList) → slice_get job.now.plan.vertices a.task.vertex.0 ≡ Some s → gathered.items ≡ gathered_for job.now.plan a.task.vertex.0 copy → o ≡ order_for job.now tasks a place copy s) }
    ensures kept { IfErr result (λ back. back.items ≡ gathered.items) }
{
    let plan = job.plan();
    let vertex = &plan.vertices()[a.task.vertex.0 as usize];
    let prepared = match prepare(alloc, job, vertex, tasks, a.task, gathered.len()) {
        Ok(prepared) => prepared,
        Err(AllocError) => return Err(gathered),
    };
    let inputs = filled(plan, prepared.primary, gathered);
    Ok(Order::new(
        a,
        place,
        prepared.program,
        prepared.keys,
        inputs,
        prepared.outs,
    ))
}

/// What of an order takes memory, with room for what is gathered.
#[derive(Drop)]
struct Prepared {
    program: Program,
    keys: Vec<(VertexId, Columns)>,
    primary: Vec<(Option<VertexId>, Records)>,
    outs: Vec<(EdgeId, Cut)>,
}

fn prepare(
    alloc: Global,
    job: &Job,
    vertex: &VertexSpec,
    tasks: u32,
    task: TaskId,
    inputs: usize,
) -> Result<Prepared, AllocError>
    requires task { task.index < tasks }
    requires few { inputs ≤ 256 }
    requires edges { length job.now.plan.edges ≤ 256 }
    ensures program { IfOk result (λ p. p.program ≡ record { head = vertex.now.head; steps = vertex.now.steps }) }
    ensures keys { IfOk result (λ p. p.keys.items ≡ keys_for job.now.plan task.vertex.0 vertex.now.head) }
    ensures primary { IfOk result (λ p. p.primary.items ≡ source_part (λ name. share_of_lines (lines_of job.now name) tasks task.index) vertex.now) }
    ensures room { IfOk result (λ p. length p.primary.items + inputs ≤ vec_capacity p.primary) }
    ensures outs { IfOk result (λ p. p.outs.items ≡ outs_for job.now.plan task.vertex.0) }
{
    let plan = job.plan();
    let head = vertex.head.copy(alloc)?;
    let steps = vertex.steps.copy(alloc)?;
    let keys = keys_of_vertex(alloc, plan, task.vertex, &vertex.head)?;
    let primary = source_of(alloc, job, vertex, tasks, task.index, inputs)?;
    let outs = outs_of_vertex(alloc, plan, task.vertex)?;
    Ok(Prepared {
        program: Program { head, steps },
        keys,
        primary,
        outs,
    })
}

/// The share of the source, where the vertex has one, with room for so many lists more.
fn source_of(
    alloc: Global,
    job: &Job,
    vertex: &VertexSpec,
    tasks: u32,
    t: u32,
    inputs: usize,
) -> Result<Vec<(Option<VertexId>, Records)>, AllocError>
    requires task { t < tasks }
    requires few { inputs ≤ 256 }
    ensures value { IfOk result (λ primary. primary.items ≡ source_part (λ name. share_of_lines (lines_of job.now name) tasks t) vertex.now) }
    ensures room { IfOk result (λ primary. length primary.items + inputs ≤ vec_capacity primary) }
{
    let mut primary = Vec::with_capacity(alloc, inputs + 1)?;
    match &vertex.source {
        None => Ok(primary),
        Some(name) => {
            let share = share_of_source(alloc, job, name.as_str(), tasks, t)?;
            primary.push_reserved((None, share));
            Ok(primary)
        }
    }
}

/// Moves what was gathered behind the lists that are there, and what came by broadcast into the
/// side. Takes no memory.
fn filled(
    plan: &Plan,
    mut primary: Vec<(Option<VertexId>, Records)>,
    gathered: Vec<(EdgeId, Records)>,
) -> Inputs
    requires edges { AllByRecursion (λ part. part.0.0 < length plan.now.edges) gathered.items }
    requires room { length primary.items + length gathered.items ≤ vec_capacity primary }
    ensures primary { result.primary ≡ primary.items ++ parts_in plan.now gathered.items }
    ensures side { result.side ≡ side_in plan.now None gathered.items }
{
    let mut side = None;
    for part in gathered {
        put(plan, &mut primary, &mut side, part);
    }
    Inputs {
        primary: Primary::new(primary),
        side,
    }
}

fn put(
    plan: &Plan,
    primary: &mut Vec<(Option<VertexId>, Records)>,
    side: &mut Option<Records>,
    part: (EdgeId, Records),
)
    requires edge { part.0.0 < length plan.now.edges }
    requires room { vec_len primary.old < vec_capacity primary.old }
    ensures primary { primary.new.items ≡ primary.old.items ++ parts_in plan.now (part ∷ []) }
    ensures side { side.new ≡ side_in plan.now side.old (part ∷ []) }
    ensures capacity { vec_capacity primary.new ≡ vec_capacity primary.old }
{
    let (edge, records) = part;
    let (source, _target) = plan.ends(edge);
    if broadcasts(plan, edge) {
        *side = Some(records);
    } else {
        primary.push_reserved((Some(source), records));
    }
}

fn broadcasts(plan: &Plan, edge: EdgeId) -> bool
    requires { edge.0 < length plan.now.edges }
    ensures { result ≡ broadcasts plan.now edge.0 }
{
    plan.edges()[edge.0 as usize].movement.is_broadcast()
}
