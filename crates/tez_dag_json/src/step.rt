ghost use Rattle.std.specs.Prelude.{◌≡◌, IfOk, IsTrue, codes};
ghost use Rattle.tez_plan.specs.Ranges.{step_in_range, test_in_range};
ghost use Rattle.tez_dag_json.specs.Answers.{Reads};
ghost use Rattle.tez_dag_json.specs.Places.{reading};
ghost use Rattle.tez_dag_json.specs.Form.{filter_test, tokenise_step, filter_step, project_step, step as step_of};

use crate::fault::DagFault;
use crate::kinds::At;
use crate::list::{Element, columns};
use tez_plan::{Step, Test};

/// The `test` of a filter and its `value`.
#[tactic(auto, unfolding(crate::specs::Form::filter_test, crate::specs::Form::tests, crate::specs::Form::text_test, crate::specs::Form::number_test))]
fn test(at: &At<'_>) -> Result<Test, DagFault>
    ensures reads { Reads result (reading filter_test at.now) }
    ensures in_range { IfOk result (λ test. IsTrue (test_in_range test)) }
{
    match at.text("test")? {
        "eq" => Ok(Test::Eq(at.filter_text("value")?)),
        "ne" => Ok(Test::Ne(at.filter_text("value")?)),
        "contains" => Ok(Test::Contains(at.filter_text("value")?)),
        "lt" => Ok(Test::Lt(at.number("value")?)),
        "gt" => Ok(Test::Gt(at.number("value")?)),
        _ => Err(at.shape("test")),
    }
}

#[tactic(auto, unfolding(crate::specs::Form::tokenise_step))]
fn tokenise(at: &At<'_>) -> Result<Step, DagFault>
    ensures reads { Reads result (reading tokenise_step at.now) }
    ensures in_range { IfOk result (λ step. IsTrue (step_in_range step)) }
{
    at.no_others(&["op"])?;
    Ok(Step::Tokenise)
}

#[tactic(auto, unfolding(crate::specs::Form::filter_step))]
fn filter(at: &At<'_>) -> Result<Step, DagFault>
    ensures reads { Reads result (reading filter_step at.now) }
    ensures in_range { IfOk result (λ step. IsTrue (step_in_range step)) }
{
    let field = at.whole("field", 0, 255)? as u16;
    let test = test(at)?;
    at.no_others(&["op", "field", "test", "value"])?;
    Ok(Step::Filter { field, test })
}

#[tactic(auto, unfolding(crate::specs::Form::project_step))]
fn project(at: &At<'_>) -> Result<Step, DagFault>
    ensures reads { Reads result (reading project_step at.now) }
    ensures in_range { IfOk result (λ step. IsTrue (step_in_range step)) }
{
    let cols = columns(at, "cols")?;
    at.no_others(&["op", "cols"])?;
    Ok(Step::Project { cols })
}

#[tactic(auto, unfolding(crate::specs::Form::step, crate::specs::Form::steps))]
fn step(at: &At<'_>) -> Result<Step, DagFault>
    ensures reads { Reads result (reading step_of at.now) }
    ensures in_range { IfOk result (λ step. IsTrue (step_in_range step)) }
{
    at.object()?;
    match at.text("op")? {
        "tokenise" => tokenise(at),
        "filter" => filter(at),
        "project" => project(at),
        _ => Err(at.shape("op")),
    }
}

impl Element for Step {
    ghost reader = { step_of };

    ghost is_in_range = { step_in_range };

    fn read(at: &At<'_>) -> Result<Step, DagFault> {
        step(at)
    }
}
