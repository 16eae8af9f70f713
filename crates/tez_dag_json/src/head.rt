ghost use Rattle.std.specs.Prelude.{◌≡◌, IfOk, IsTrue, codes};
ghost use Rattle.tez_plan.specs.Ranges.{head_in_range, are_columns};
ghost use Rattle.tez_dag_json.specs.Answers.{Reads};
ghost use Rattle.tez_dag_json.specs.Places.{reading};
ghost use Rattle.tez_dag_json.specs.Kinds.{required};
ghost use Rattle.tez_dag_json.specs.Form.{plain_head, sum_head, join_head, two_keys as key_columns, lookup_head, keep_in_head, drop_in_head, head as head_of};

use crate::fault::DagFault;
use crate::kinds::At;
use crate::list::columns;
use crate::path;
use tez_plan::{Columns, Head};

#[tactic(auto, unfolding(crate::specs::Form::sum_head))]
fn sum(at: &At<'_>) -> Result<Head, DagFault>
    ensures reads { Reads result (reading sum_head at.now) }
    ensures in_range { IfOk result (λ head. IsTrue (head_in_range head)) }
{
    let value = at.whole("value", 0, 255)? as u16;
    at.no_others(&["op", "value"])?;
    Ok(Head::Sum { value })
}

#[tactic(auto, unfolding(crate::specs::Form::join_head))]
fn join(at: &At<'_>) -> Result<Head, DagFault>
    ensures reads { Reads result (reading join_head at.now) }
    ensures in_range { IfOk result (λ head. IsTrue (head_in_range head)) }
{
    let left = at.name("left")?;
    at.no_others(&["op", "left"])?;
    Ok(Head::Join { left })
}

/// A head whose one key is `op`.
#[tactic(auto, unfolding(crate::specs::Form::plain_head))]
fn plain(at: &At<'_>, head: Head) -> Result<Head, DagFault>
    requires { IsTrue (head_in_range head) }
    ensures reads { Reads result (reading (plain_head head) at.now) }
    ensures in_range { IfOk result (λ head. IsTrue (head_in_range head)) }
{
    match at.no_others(&["op"]) {
        Ok(()) => Ok(head),
        Err(fault) => Err(fault),
    }
}

/// The columns `key` and `side_key`.
#[tactic(auto, unfolding(crate::specs::Form::two_keys))]
fn two_keys(at: &At<'_>) -> Result<(Columns, Columns), DagFault>
    ensures reads { Reads result (reading key_columns at.now) }
    ensures in_range { IfOk result (λ keys. IsTrue (are_columns keys.0) × IsTrue (are_columns keys.1)) }
{
    let key = columns(at, "key")?;
    let side_key = columns(at, "side_key")?;
    at.no_others(&["op", "key", "side_key"])?;
    Ok((key, side_key))
}

#[tactic(auto, unfolding(crate::specs::Form::lookup_head))]
fn lookup(at: &At<'_>) -> Result<Head, DagFault>
    ensures reads { Reads result (reading lookup_head at.now) }
    ensures in_range { IfOk result (λ head. IsTrue (head_in_range head)) }
{
    let (key, side_key) = two_keys(at)?;
    Ok(Head::Lookup { key, side_key })
}

#[tactic(auto, unfolding(crate::specs::Form::keep_in_head))]
fn keep_in(at: &At<'_>) -> Result<Head, DagFault>
    ensures reads { Reads result (reading keep_in_head at.now) }
    ensures in_range { IfOk result (λ head. IsTrue (head_in_range head)) }
{
    let (key, side_key) = two_keys(at)?;
    Ok(Head::KeepIn { key, side_key })
}

#[tactic(auto, unfolding(crate::specs::Form::drop_in_head))]
fn drop_in(at: &At<'_>) -> Result<Head, DagFault>
    ensures reads { Reads result (reading drop_in_head at.now) }
    ensures in_range { IfOk result (λ head. IsTrue (head_in_range head)) }
{
    let (key, side_key) = two_keys(at)?;
    Ok(Head::DropIn { key, side_key })
}

/// A head.
#[tactic(auto, unfolding(crate::specs::Form::head, crate::specs::Form::heads))]
pub(crate) fn head(at: &At<'_>) -> Result<Head, DagFault>
    ensures reads { Reads result (reading head_of at.now) }
    ensures in_range { IfOk result (λ head. IsTrue (head_in_range head)) }
{
    at.object()?;
    match at.text("op")? {
        "each" => plain(at, Head::Each),
        "count" => plain(at, Head::Count),
        "distinct" => plain(at, Head::Distinct),
        "sum" => sum(at),
        "join" => join(at),
        "lookup" => lookup(at),
        "keep_in" => keep_in(at),
        "drop_in" => drop_in(at),
        _ => Err(at.shape("op")),
    }
}
