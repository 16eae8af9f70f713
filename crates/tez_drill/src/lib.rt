//! The job of the drill: a word count over text that two numbers make, and its configuration.
#![tactic(auto)]

ghost use Rattle.std.specs.Prelude.{◌≡◌, ◌∷◌, [], IfOk, IfErr, codes};
ghost use Rattle.tez_drill.specs.Drill.{drill_conf, drill_edges, drill_job, drill_plan, drill_sources, drill_vertices};
ghost use Rattle.tez_plan.specs.Faults.{IsValid};
ghost use Rattle.tez_plan.specs.declared.fault.PlanFault.TheVariants.{NoMemory};
ghost use Rattle.tez_plan.specs.declared.parts.Step.TheVariants.{Tokenise};

use std::alloc::{AllocError, Global};
use tez_conf::{Conf, ConfValues, defaults};
use tez_gen::generate;
use tez_ids::{Bytes, Name};
use tez_meaning::Job;
use tez_plan::{Columns, EdgeSpec, Head, Movement, Plan, PlanFault, Step, Steps, VertexSpec};
use tez_plan_checks::plan_new;

const TASKS: u32 = 8;

const DESIRED_BYTES: u64 = 65_536;

fn tokenise(alloc: Global) -> Result<Steps, AllocError>
    ensures { IfOk result (λ steps. steps ≡ Tokenise ∷ []) }
{
    let mut steps = Vec::new(alloc);
    steps.push(Step::Tokenise)?;
    Ok(Steps::new(steps))
}

/// The vertex that splits lines into words, and the one that counts these.
#[tactic(auto, unfolding(crate::specs::Drill::drill_vertices))]
fn vertices(alloc: Global) -> Result<Vec<VertexSpec>, AllocError>
    ensures { IfOk result (λ made. made.items ≡ drill_vertices) }
{
    let mut made = Vec::new(alloc);
    made.push(VertexSpec {
        name: Name::copy_of(alloc, "split")?,
        tasks: TASKS,
        source: Some(Name::copy_of(alloc, "in.txt")?),
        head: Head::Each,
        steps: tokenise(alloc)?,
        sink: None,
    })?;
    made.push(VertexSpec {
        name: Name::copy_of(alloc, "total")?,
        tasks: TASKS,
        source: None,
        head: Head::Sum { value: 1 },
        steps: Steps::new(Vec::new(alloc)),
        sink: Some(Name::copy_of(alloc, "counts")?),
    })?;
    Ok(made)
}

/// The edge between them, by the word.
#[tactic(auto, unfolding(crate::specs::Drill::drill_edges))]
fn edges(alloc: Global) -> Result<Vec<EdgeSpec>, AllocError>
    ensures { IfOk result (λ made. made.items ≡ drill_edges) }
{
    let mut keys = Vec::new(alloc);
    keys.push(0)?;
    let mut made = Vec::new(alloc);
    made.push(EdgeSpec {
        source: Name::copy_of(alloc, "split")?,
        target: Name::copy_of(alloc, "total")?,
        movement: Movement::ScatterGather {
            keys: Columns::new(keys),
        },
    })?;
    Ok(made)
}

/// The plan of these parts. No check of it fails, so what is answered else is want of memory.
fn plan_of_parts(
    alloc: Global,
    name: Name,
    vertices: Vec<VertexSpec>,
    edges: Vec<EdgeSpec>,
) -> Result<Plan, PlanFault>
    requires name { name ≡ codes "wc" }
    requires vertices { vertices.items ≡ drill_vertices }
    requires edges { edges.items ≡ drill_edges }
    ensures plan { IfOk result (λ p. p ≡ drill_plan) }
    ensures fault { IfErr result (λ f. f ≡ NoMemory) }
{
    plan_new(alloc, name, vertices, edges)
}

fn plan(alloc: Global) -> Result<Plan, AllocError>
    ensures { IfOk result (λ p. p ≡ drill_plan) }
{
    let name = Name::copy_of(alloc, "wc")?;
    let vertices = vertices(alloc)?;
    let edges = edges(alloc)?;
    match plan_of_parts(alloc, name, vertices, edges) {
        Ok(plan) => Ok(plan),
        Err(_) => Err(AllocError),
    }
}

/// The configuration of the drill: vertices may shrink, to a small number of bytes a task.
#[tactic(auto, unfolding(crate::specs::Drill::drill_conf))]
pub fn conf() -> Conf
    ensures { result ≡ drill_conf }
{
    let values = ConfValues {
        auto_parallel: true,
        desired_bytes: DESIRED_BYTES,
        nodes: 2,
        per_node: 2,
        ..defaults().values()
    };
    Conf::new(values).unwrap()
}

/// The file of the plan's one source.
fn sources(alloc: Global, seed: u64, lines: u32) -> Result<Vec<(Name, Bytes)>, AllocError>
    ensures { IfOk result (λ made. made.items ≡ drill_sources seed lines) }
{
    let name = Name::copy_of(alloc, "in.txt")?;
    let text = generate(alloc, seed, lines)?;
    let mut made = Vec::new(alloc);
    made.push((name, Bytes::new(text)))?;
    Ok(made)
}

/// The job of the drill: the words of a generated text, and how often each is there. Its plan is the
/// same for all numbers; the seed and the number of lines make the bytes of its one source. Takes
/// memory for these, and time linear in them.
#[tactic(auto, using(crate::proofs::Valid::drill_is_valid))]
pub fn job(alloc: Global, seed: u64, lines: u32) -> Result<Job, AllocError>
    ensures job { IfOk result (λ j. j ≡ drill_job seed lines) }
    ensures valid { IsValid drill_plan }
{
    let plan = plan(alloc)?;
    let sources = sources(alloc, seed, lines)?;
    Ok(Job::new(plan, sources))
}
