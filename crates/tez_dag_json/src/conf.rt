ghost use Rattle.std.specs.Prelude.{◌≡◌, codes};
ghost use Rattle.tez_dag_json.specs.Answers.{Reads};
ghost use Rattle.tez_dag_json.specs.Places.{reading};
ghost use Rattle.tez_dag_json.specs.Form.{conf, conf_of};
ghost use Rattle.serde_json.specs.View.{view};

use crate::fault::DagFault;
use crate::kinds::At;
use tez_conf::{Conf, ConfValues, defaults};

const KEYS: [&str; 10] = [
    "min_src",
    "max_src",
    "auto_parallel",
    "desired_bytes",
    "min_tasks",
    "max_failed",
    "max_masters",
    "reuse",
    "nodes",
    "per_node",
];

/// The configuration that an object says.
#[tactic(auto, unfolding(crate::specs::Form::conf))]
fn conf(at: &At<'_>) -> Result<Conf, DagFault>
    ensures { Reads result (reading conf at.now) }
{
    at.object()?;
    let values = ConfValues {
        min_src: at.whole_or("min_src", 250, 0, 1000)? as u16,
        max_src: at.whole_or("max_src", 750, 0, 1000)? as u16,
        auto_parallel: at.flag_or("auto_parallel", false)?,
        desired_bytes: at.whole_or("desired_bytes", 104_857_600, 1, 1 << 40)?,
        min_tasks: at.whole_or("min_tasks", 1, 1, 10_000)? as u32,
        max_failed: at.whole_or("max_failed", 4, 1, 100)? as u32,
        max_masters: at.whole_or("max_masters", 2, 1, 100)? as u32,
        reuse: at.flag_or("reuse", true)?,
        nodes: at.whole_or("nodes", 2, 1, 64)? as u16,
        per_node: at.whole_or("per_node", 2, 1, 64)? as u16,
    };
    at.no_others(&KEYS)?;
    if values.max_src < values.min_src {
        return Err(at.out_of_range("max_src"));
    }
    if values.nodes * values.per_node > 64 {
        return Err(at.out_of_range("per_node"));
    }
    Ok(Conf::new(values).unwrap())
}

/// The configuration of the document, with what it leaves unsaid.
#[tactic(auto, unfolding(crate::specs::Form::conf_of, crate::specs::Form::conf))]
pub(crate) fn conf_at(document: &At<'_>) -> Result<Conf, DagFault>
    ensures { Reads result (conf_of (view document.now.value.now)) }
{
    let Some(value) = document.value.get("conf") else {
        return Ok(defaults());
    };
    conf(&At {
        alloc: document.alloc,
        path: "conf",
        value,
    })
}
