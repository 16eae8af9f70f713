// Whether orders are equal, part by part. No call here takes memory.
ghost use Rattle.std.specs.Prelude.{◌≡◌, ◌↔◌, IsTrue};
ghost use Rattle.tez_record.specs.Line.{lines};
ghost use Rattle.tez_record.specs.Bag.{text};

use crate::cut::Cut;
use crate::order::Order;
use tez_ids::{Bytes, EdgeId, Name, VertexId};
use tez_operators::Inputs;
use tez_plan::{Columns, Head, Program, Step, Test};
use tez_record::Records;

impl Order {
    /// Whether the two orders are equal. Takes no memory. Linear in both.
    pub fn same(&self, other: &Order) -> bool
        ensures { IsTrue result ↔ (self.now ≡ other.now) }
    {
        self.attempt() == other.attempt()
            && self.place() == other.place()
            && same_program(self.program(), other.program())
            && same_keys(self.keys(), other.keys())
            && same_inputs(self.inputs(), other.inputs())
            && same_outs(self.outs(), other.outs())
    }
}

fn same_program(a: &Program, b: &Program) -> bool
    ensures { IsTrue result ↔ (a.now ≡ b.now) }
{
    same_head(&a.head, &b.head) && same_steps(a.steps.as_slice(), b.steps.as_slice())
}

fn same_head(a: &Head, b: &Head) -> bool
    ensures { IsTrue result ↔ (a.now ≡ b.now) }
{
    match (a, b) {
        (Head::Each, Head::Each) | (Head::Count, Head::Count) | (Head::Distinct, Head::Distinct) =>
            true,
        (Head::Sum { value }, Head::Sum { value: other }) => value == other,
        (Head::Join { left }, Head::Join { left: other }) => same_name(left, other),
        (
            Head::Lookup { key, side_key },
            Head::Lookup {
                key: k,
                side_key: s,
            },
        )
        | (
            Head::KeepIn { key, side_key },
            Head::KeepIn {
                key: k,
                side_key: s,
            },
        )
        | (
            Head::DropIn { key, side_key },
            Head::DropIn {
                key: k,
                side_key: s,
            },
        ) => { same_columns(key, k) && same_columns(side_key, s) }
        _ => false,
    }
}

fn same_steps(a: &[Step], b: &[Step]) -> bool
    ensures { IsTrue result ↔ (a.now ≡ b.now) }
{
    if a.len() != b.len() {
        return false;
    }
    for i in 0..a.len() {
        if !same_step(&a[i], &b[i]) {
            return false;
        }
    }
    true
}

fn same_step(a: &Step, b: &Step) -> bool
    ensures { IsTrue result ↔ (a.now ≡ b.now) }
{
    match (a, b) {
        (Step::Tokenise, Step::Tokenise) => true,
        (Step::Filter { field, test }, Step::Filter { field: f, test: t }) => {
            field == f && same_test(test, t)
        }
        (Step::Project { cols }, Step::Project { cols: other }) => same_columns(cols, other),
        _ => false,
    }
}

fn same_test(a: &Test, b: &Test) -> bool
    ensures { IsTrue result ↔ (a.now ≡ b.now) }
{
    match (a, b) {
        (Test::Eq(text), Test::Eq(other))
        | (Test::Ne(text), Test::Ne(other))
        | (Test::Contains(text), Test::Contains(other)) => same_bytes(text, other),
        (Test::Lt(number), Test::Lt(other)) | (Test::Gt(number), Test::Gt(other)) => {
            number == other
        }
        _ => false,
    }
}

fn same_name(a: &Name, b: &Name) -> bool
    ensures { IsTrue result ↔ (a.now ≡ b.now) }
{
    a == b
}

fn same_bytes(a: &Bytes, b: &Bytes) -> bool
    ensures { IsTrue result ↔ (a.now ≡ b.now) }
{
    a == b
}

fn same_columns(a: &Columns, b: &Columns) -> bool
    ensures { IsTrue result ↔ (a.now ≡ b.now) }
{
    a.as_slice() == b.as_slice()
}

fn same_keys(a: &[(VertexId, Columns)], b: &[(VertexId, Columns)]) -> bool
    ensures { IsTrue result ↔ (a.now ≡ b.now) }
{
    if a.len() != b.len() {
        return false;
    }
    for i in 0..a.len() {
        if a[i].0 != b[i].0 || !same_columns(&a[i].1, &b[i].1) {
            return false;
        }
    }
    true
}

fn same_inputs(a: &Inputs, b: &Inputs) -> bool
    ensures { IsTrue result ↔ (a.now ≡ b.now) }
{
    same_parts(a.primary.as_slice(), b.primary.as_slice()) && same_side(&a.side, &b.side)
}

fn same_parts(a: &[(Option<VertexId>, Records)], b: &[(Option<VertexId>, Records)]) -> bool
    ensures { IsTrue result ↔ (a.now ≡ b.now) }
{
    if a.len() != b.len() {
        return false;
    }
    for i in 0..a.len() {
        if a[i].0 != b[i].0 || !same_records(&a[i].1, &b[i].1) {
            return false;
        }
    }
    true
}

fn same_side(a: &Option<Records>, b: &Option<Records>) -> bool
    ensures { IsTrue result ↔ (a.now ≡ b.now) }
{
    match (a, b) {
        (None, None) => true,
        (Some(records), Some(others)) => same_records(records, others),
        _ => false,
    }
}

fn same_records(a: &Records, b: &Records) -> bool
    ensures { IsTrue result ↔ (a.now ≡ b.now) }
{
    text_of(a) == text_of(b)
}

fn text_of(records: &Records) -> &[u8]
    ensures text { result.now ≡ text records.now }
    ensures lines { lines result.now ≡ records.now }
{
    let _lines = records.iter();
    records.text()
}

fn same_outs(a: &[(EdgeId, Cut)], b: &[(EdgeId, Cut)]) -> bool
    ensures { IsTrue result ↔ (a.now ≡ b.now) }
{
    if a.len() != b.len() {
        return false;
    }
    for i in 0..a.len() {
        if a[i].0 != b[i].0 || !same_cut(&a[i].1, &b[i].1) {
            return false;
        }
    }
    true
}

fn same_cut(a: &Cut, b: &Cut) -> bool
    ensures { IsTrue result ↔ (a.now ≡ b.now) }
{
    match (a, b) {
        (Cut::Whole, Cut::Whole) => true,
        (
            Cut::ByKey { cols, parts },
            Cut::ByKey {
                cols: others,
                parts: count,
            },
        ) => same_columns(cols, others) && parts == count,
        _ => false,
    }
}
