ghost use Rattle.std.specs.Prelude.{◌≡◌, IfOk, IsTrue, [], codes};
ghost use Rattle.tez_plan.specs.Ranges.{vertex_in_range, head_in_range, are_steps};
ghost use Rattle.tez_dag_json.specs.Answers.{Reads};
ghost use Rattle.tez_dag_json.specs.Places.{reading};
ghost use Rattle.tez_dag_json.specs.Kinds.{required, defaulted, list_within as list_of_length};
ghost use Rattle.tez_dag_json.specs.Form.{head as head_of, step, vertex as vertex_of};

use crate::fault::DagFault;
use crate::head::head;
use crate::kinds::At;
use crate::list::{Element, list_within};
use crate::path;
use tez_plan::{Head, MOST_TASKS, Steps, VertexSpec};

/// The head at `head`.
fn head_at(at: &At<'_>) -> Result<Head, DagFault>
    ensures reads { Reads result (reading (required (codes "head") head_of) at.now) }
    ensures in_range { IfOk result (λ head. IsTrue (head_in_range head)) }
{
    let Some(value) = at.value.get("head") else {
        return Err(at.shape("head"));
    };
    let path = path::key_path(at.alloc, at.path, "head")?;
    head(&At {
        alloc: at.alloc,
        path: path.as_str(),
        value,
    })
}

/// The steps at `steps`, or none where there is no such key.
fn steps_at(at: &At<'_>) -> Result<Steps, DagFault>
    ensures reads { Reads result (reading (defaulted (codes "steps") [] (list_of_length 0 64 step)) at.now) }
    ensures in_range { IfOk result (λ steps. IsTrue (are_steps steps)) }
{
    let Some(value) = at.value.get("steps") else {
        return Ok(Steps::new(Vec::new(at.alloc)));
    };
    let path = path::key_path(at.alloc, at.path, "steps")?;
    let here = At {
        alloc: at.alloc,
        path: path.as_str(),
        value,
    };
    Ok(Steps::new(list_within(&here, 0, 64)?))
}

#[tactic(auto, unfolding(crate::specs::Form::vertex))]
fn vertex(at: &At<'_>) -> Result<VertexSpec, DagFault>
    ensures reads { Reads result (reading vertex_of at.now) }
    ensures in_range { IfOk result (λ vertex. IsTrue (vertex_in_range vertex)) }
{
    at.object()?;
    let vertex = VertexSpec {
        name: at.name("name")?,
        tasks: at.whole("tasks", 1, MOST_TASKS as u64)? as u32,
        source: at.file("source")?,
        head: head_at(at)?,
        steps: steps_at(at)?,
        sink: at.sink("sink")?,
    };
    at.no_others(&["name", "tasks", "source", "head", "steps", "sink"])?;
    Ok(vertex)
}

impl Element for VertexSpec {
    ghost reader = { vertex_of };

    ghost is_in_range = { vertex_in_range };

    fn read(at: &At<'_>) -> Result<VertexSpec, DagFault> {
        vertex(at)
    }
}
