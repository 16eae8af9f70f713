ghost use Rattle.std.specs.Prelude.{◌≡◌, ◌<◌, ◌^◌, length, IfOk, IsTrue, OnOk, Bool, true, codes};
ghost use Rattle.std.specs.List.{list_all};
ghost use Rattle.serde_json.specs.Data.{Data, string};
ghost use Rattle.serde_json.specs.View.{view, members_view};
ghost use Rattle.tez_plan.specs.Ranges.{is_filter_text, step_in_range, test_in_range, vertex_in_range, IsInRanges};
ghost use Rattle.tez_plan.specs.Faults.{IsValid};
ghost use Rattle.tez_conf.specs.Ranges.{IsInRange};
ghost use Rattle.tez_dag_json.specs.Due.{IsDue};
ghost use Rattle.tez_dag_json.specs.Canonical.{count, list_of, cols_value, keyed as keyed_value, head_value, test_value as value_of, test_word as word_of, step_value, edge_value, vertex_value, conf_value, document_value, with_text, canonical};

use serde_json::{Map, Value, json};
use std::alloc::{AllocError, Global};
use tez_conf::{Conf, ConfValues};
use tez_ids::{Bytes, Name};
use tez_plan::{Columns, EdgeSpec, Head, Movement, Plan, Step, Test, VertexSpec};

/// What stands as an element of a list of the file.
trait ToJson {
    ghost value: { Self → Data };

    ghost is_writable: { Self → Bool };

    fn to_json(&self, alloc: Global) -> Result<Value, AllocError>
        requires { IsTrue (is_writable self.now) }
        ensures { IfOk result (λ v. view v ≡ value self.now) };
}

fn list<T: ToJson>(alloc: Global, items: &[T]) -> Result<Value, AllocError>
    requires { IsTrue (list_all T.is_writable items.now) }
    ensures { IfOk result (λ v. view v ≡ list_of T.value items.now) }
{
    let mut written = Vec::new(alloc);
    for item in items {
        written.push(item.to_json(alloc)?)?;
    }
    Ok(Value::from(written))
}

impl ToJson for u16 {
    ghost value = { count };

    ghost is_writable = { λ _. true };

    fn to_json(&self, _alloc: Global) -> Result<Value, AllocError> {
        Ok(Value::from(*self))
    }
}

fn columns(alloc: Global, columns: &Columns) -> Result<Value, AllocError>
    ensures { IfOk result (λ v. view v ≡ cols_value columns.now) }
{
    list(alloc, columns.as_slice())
}

fn keyed(alloc: Global, op: &str, key: &Columns, side_key: &Columns) -> Result<Value, AllocError>
    ensures { IfOk result (λ v. view v ≡ keyed_value op.now key.now side_key.now) }
{
    let key = columns(alloc, key)?;
    let side_key = columns(alloc, side_key)?;
    json!(in alloc; {"key": key, "op": op, "side_key": side_key})
}

#[tactic(auto, unfolding(crate::specs::Canonical::head_value))]
fn head(alloc: Global, head: &Head) -> Result<Value, AllocError>
    ensures { IfOk result (λ v. view v ≡ head_value head.now) }
{
    match head {
        Head::Each => json!(in alloc; {"op": "each"}),
        Head::Sum { value } => json!(in alloc; {"op": "sum", "value": *value}),
        Head::Count => json!(in alloc; {"op": "count"}),
        Head::Distinct => json!(in alloc; {"op": "distinct"}),
        Head::Join { left } => json!(in alloc; {"left": left.as_str(), "op": "join"}),
        Head::Lookup { key, side_key } => keyed(alloc, "lookup", key, side_key),
        Head::KeepIn { key, side_key } => keyed(alloc, "keep_in", key, side_key),
        Head::DropIn { key, side_key } => keyed(alloc, "drop_in", key, side_key),
    }
}

/// A text that a filter compares with.
fn text(alloc: Global, text: &Bytes) -> Result<Value, AllocError>
    requires { IsTrue (is_filter_text text.now) }
    ensures { IfOk result (λ v. view v ≡ string text.now) }
{
    let text = std::str::from_utf8(text.as_slice()).unwrap();
    Value::try_from_str(alloc, text)
}

fn value(alloc: Global, test: &Test) -> Result<Value, AllocError>
    requires { IsTrue (test_in_range test.now) }
    ensures { IfOk result (λ v. view v ≡ value_of test.now) }
{
    match test {
        Test::Eq(bytes) | Test::Ne(bytes) | Test::Contains(bytes) => text(alloc, bytes),
        Test::Lt(number) | Test::Gt(number) => Ok(Value::from(*number)),
    }
}

fn word(test: &Test) -> &'static str
    ensures { result.now ≡ word_of test.now }
{
    match test {
        Test::Eq(_) => "eq",
        Test::Ne(_) => "ne",
        Test::Contains(_) => "contains",
        Test::Lt(_) => "lt",
        Test::Gt(_) => "gt",
    }
}

impl ToJson for Step {
    ghost value = { step_value };

    ghost is_writable = { step_in_range };

    #[tactic(auto, unfolding(crate::specs::Canonical::step_value))]
    fn to_json(&self, alloc: Global) -> Result<Value, AllocError> {
        match self {
            Step::Tokenise => json!(in alloc; {"op": "tokenise"}),
            Step::Filter { field, test } => {
                let value = value(alloc, test)?;
                json!(in alloc; {"field": *field, "op": "filter", "test": word(test), "value": value})
            }
            Step::Project { cols } => {
                let cols = columns(alloc, cols)?;
                json!(in alloc; {"cols": cols, "op": "project"})
            }
        }
    }
}

/// The text at a key, where there is one.
fn put_text(
    alloc: Global,
    members: &mut Map<String, Value>,
    key: &str,
    text: &Option<Name>,
) -> Result<(), AllocError>
    ensures { OnOk result (members_view members.new.entries ≡ with_text key.now text.now (members_view members.old.entries)) }
{
    match text {
        None => Ok(()),
        Some(name) => {
            let value = Value::try_from_str(alloc, name.as_str())?;
            serde_json::put(members, alloc, key, value)
        }
    }
}

impl ToJson for VertexSpec {
    ghost value = { vertex_value };

    ghost is_writable = { vertex_in_range };

    #[tactic(auto, using(crate::proofs::Members::with_texts), unfolding(crate::specs::Canonical::vertex_value))]
    fn to_json(&self, alloc: Global) -> Result<Value, AllocError> {
        let steps = list(alloc, self.steps.as_slice())?;
        let mut members = Map::new(alloc);
        serde_json::put(&mut members, alloc, "head", head(alloc, &self.head)?)?;
        serde_json::put(
            &mut members,
            alloc,
            "name",
            Value::try_from_str(alloc, self.name.as_str())?,
        )?;
        serde_json::put(&mut members, alloc, "steps", steps)?;
        serde_json::put(&mut members, alloc, "tasks", Value::from(self.tasks))?;
        put_text(alloc, &mut members, "source", &self.source)?;
        put_text(alloc, &mut members, "sink", &self.sink)?;
        Ok(Value::Object(members))
    }
}

impl ToJson for EdgeSpec {
    ghost value = { edge_value };

    ghost is_writable = { λ _. true };

    #[tactic(auto, unfolding(crate::specs::Canonical::edge_value))]
    fn to_json(&self, alloc: Global) -> Result<Value, AllocError> {
        let (from, to) = (self.source.as_str(), self.target.as_str());
        match &self.movement {
            Movement::OneToOne =>
                json!(in alloc; {"from": from, "movement": "ONE_TO_ONE", "to": to}),
            Movement::Broadcast =>
                json!(in alloc; {"from": from, "movement": "BROADCAST", "to": to}),
            Movement::ScatterGather { keys } => {
                let keys = columns(alloc, keys)?;
                json!(in alloc; {"from": from, "keys": keys, "movement": "SCATTER_GATHER", "to": to})
            }
        }
    }
}

#[tactic(auto, unfolding(crate::specs::Canonical::conf_value))]
fn conf(alloc: Global, values: &ConfValues) -> Result<Value, AllocError>
    ensures { IfOk result (λ v. view v ≡ conf_value values.now) }
{
    json!(in alloc; {
        "auto_parallel": values.auto_parallel,
        "desired_bytes": values.desired_bytes,
        "max_failed": values.max_failed,
        "max_masters": values.max_masters,
        "max_src": values.max_src,
        "min_src": values.min_src,
        "min_tasks": values.min_tasks,
        "nodes": values.nodes,
        "per_node": values.per_node,
        "reuse": values.reuse
    })
}

/// The document of a plan and its configuration.
#[tactic(auto, unfolding(crate::specs::Canonical::document_value))]
fn document(alloc: Global, plan: &Plan, conf: &Conf) -> Result<Value, AllocError>
    ensures value { IfOk result (λ v. view v ≡ document_value plan.now conf.now) }
    ensures in_ranges { OnOk result (IsInRanges plan.now) }
    ensures valid { OnOk result (IsValid plan.now) }
    ensures in_range { OnOk result (IsInRange conf.now) }
{
    let configuration = self::conf(alloc, &conf.values())?;
    let edges = list(alloc, plan.edges())?;
    let vertices = list(alloc, plan.vertices())?;
    json!(in alloc; {"conf": configuration, "edges": edges, "name": plan.name(), "vertices": vertices})
}

/// The canonical text of a plan and its configuration: compact JSON with the keys of each object in
/// byte order. Every key is written but for a `source` or a `sink` that a vertex has not.
#[tactic(auto, using(crate::proofs::Due::due_of_text, crate::proofs::Bounds::canonical_length, crate::proofs::Values::document_no_float, crate::proofs::Values::document_depth), unfolding(crate::specs::Canonical::canonical))]
pub fn dag_text(alloc: Global, plan: &Plan, conf: &Conf) -> Result<Vec<u8>, AllocError>
    ensures text { IfOk result (λ text. text.items ≡ canonical plan.now conf.now) }
    ensures reads_back { IfOk result (λ text. IsDue text.items (Ok (plan.now, conf.now))) }
    ensures short { IfOk result (λ text. length text.items < 2 ^ 23) }
{
    let document = document(alloc, plan, conf)?;
    document.to_vec(alloc)
}
