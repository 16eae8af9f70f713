ghost use Rattle.std.specs.Prelude.{◌≡◌, IfOk, IsTrue, codes};
ghost use Rattle.tez_plan.specs.Ranges.{edge_in_range, movement_in_range};
ghost use Rattle.tez_dag_json.specs.Answers.{Reads};
ghost use Rattle.tez_dag_json.specs.Places.{reading};
ghost use Rattle.tez_dag_json.specs.Form.{movement as movement_of, edge as edge_of};

use crate::fault::DagFault;
use crate::kinds::At;
use crate::list::{Element, columns};
use tez_plan::{EdgeSpec, Movement};

/// The `movement` of an edge and its `keys`.
#[tactic(auto, unfolding(crate::specs::Form::movement, crate::specs::Form::movements, crate::specs::Form::keyless, crate::specs::Form::by_keys))]
fn movement(at: &At<'_>) -> Result<Movement, DagFault>
    ensures reads { Reads result (reading movement_of at.now) }
    ensures in_range { IfOk result (λ movement. IsTrue (movement_in_range movement)) }
{
    match at.text("movement")? {
        "ONE_TO_ONE" => {
            at.absent("keys")?;
            Ok(Movement::OneToOne)
        }
        "BROADCAST" => {
            at.absent("keys")?;
            Ok(Movement::Broadcast)
        }
        "SCATTER_GATHER" => {
            let keys = columns(at, "keys")?;
            Ok(Movement::ScatterGather { keys })
        }
        _ => Err(at.shape("movement")),
    }
}

#[tactic(auto, unfolding(crate::specs::Form::edge))]
fn edge(at: &At<'_>) -> Result<EdgeSpec, DagFault>
    ensures reads { Reads result (reading edge_of at.now) }
    ensures in_range { IfOk result (λ edge. IsTrue (edge_in_range edge)) }
{
    at.object()?;
    let edge = EdgeSpec {
        source: at.name("from")?,
        target: at.name("to")?,
        movement: movement(at)?,
    };
    at.no_others(&["from", "to", "movement", "keys"])?;
    Ok(edge)
}

impl Element for EdgeSpec {
    ghost reader = { edge_of };

    ghost is_in_range = { edge_in_range };

    fn read(at: &At<'_>) -> Result<EdgeSpec, DagFault> {
        edge(at)
    }
}
