// Whether the parts of an order fit together.
ghost use Rattle.std.specs.Prelude.{◌≡◌, ◌==◌};
ghost use Rattle.std.specs.List.{list_all, list_any};
ghost use Rattle.tez_operators.specs.Process.{is_vertex};
ghost use Rattle.tez_orders.specs.Fit.{is_order, side_fits, keys_fit, same_columns, two_sides, come_from, edges_differ, has_parts};

use crate::cut::Cut;
use tez_ids::{EdgeId, VertexId};
use tez_operators::Inputs;
use tez_plan::{Columns, Head, Program};
use tez_record::Records;

/// Whether an order can have these parts: a side where the head reads one and none elsewhere; for a
/// head that goes by key the vertices that the records come from, with key columns that fit; each
/// edge once; and in each cut at least one part. Takes no memory.
pub fn is_order(
    program: &Program,
    keys: &[(VertexId, Columns)],
    inputs: &Inputs,
    outs: &[(EdgeId, Cut)],
) -> bool
    ensures { result ≡ is_order program.now.head keys.now inputs.now outs.now }
{
    side_fits(&program.head, &inputs.side)
        && keys_fit(&program.head, keys, inputs.primary.as_slice())
        && edges_differ(outs)
        && have_parts(outs)
}

fn side_fits(head: &Head, side: &Option<Records>) -> bool
    ensures { result ≡ side_fits head.now side.now }
{
    match head {
        Head::Each | Head::Sum { .. } | Head::Count | Head::Distinct | Head::Join { .. } => {
            side.is_none()
        }
        Head::Lookup { .. } | Head::KeepIn { .. } | Head::DropIn { .. } => side.is_some(),
    }
}

fn keys_fit(
    head: &Head,
    keys: &[(VertexId, Columns)],
    primary: &[(Option<VertexId>, Records)],
) -> bool
    ensures { result ≡ keys_fit head.now keys.now primary.now }
{
    match head {
        Head::Each => true,
        Head::Sum { .. } | Head::Count | Head::Distinct => {
            same_columns(keys) && come_from(keys, primary)
        }
        Head::Join { .. } => two_sides(keys) && come_from(keys, primary),
        Head::Lookup { key, side_key }
        | Head::KeepIn { key, side_key }
        | Head::DropIn { key, side_key } => key.as_slice().len() == side_key.as_slice().len(),
    }
}

fn same_columns(keys: &[(VertexId, Columns)]) -> bool
    ensures { result ≡ same_columns keys.now }
{
    match keys.first() {
        None => false,
        Some((_vertex, first)) => {
            for (_v, cols) in keys {
                if first.as_slice() != cols.as_slice() {
                    return false;
                }
            }
            true
        }
    }
}

fn two_sides(keys: &[(VertexId, Columns)]) -> bool
    ensures { result ≡ two_sides keys.now }
{
    if keys.len() != 2 {
        return false;
    }
    keys[0].0 != keys[1].0 && keys[0].1.as_slice().len() == keys[1].1.as_slice().len()
}

fn come_from(keys: &[(VertexId, Columns)], primary: &[(Option<VertexId>, Records)]) -> bool
    ensures { result ≡ come_from keys.now primary.now }
{
    for (vertex, _records) in primary {
        if !is_among(keys, *vertex) {
            return false;
        }
    }
    true
}

fn is_among(keys: &[(VertexId, Columns)], vertex: Option<VertexId>) -> bool
    ensures { result ≡ list_any (λ k. is_vertex k.0 vertex) keys.now }
{
    for (key, _cols) in keys {
        if Some(*key) == vertex {
            return true;
        }
    }
    false
}

fn edges_differ(outs: &[(EdgeId, Cut)]) -> bool
    ensures { result ≡ edges_differ outs.now }
{
    let mut rest = outs;
    while let Some(((edge, _cut), others)) = rest.split_first() {
        if is_cut(others, *edge) {
            return false;
        }
        rest = others;
    }
    true
}

fn is_cut(outs: &[(EdgeId, Cut)], edge: EdgeId) -> bool
    ensures { result ≡ list_any (λ out. out.0.0 == edge.0) outs.now }
{
    for (other, _cut) in outs {
        if *other == edge {
            return true;
        }
    }
    false
}

fn have_parts(outs: &[(EdgeId, Cut)]) -> bool
    ensures { result ≡ list_all (λ out. has_parts out.1) outs.now }
{
    for (_edge, cut) in outs {
        if !has_parts(cut) {
            return false;
        }
    }
    true
}

fn has_parts(cut: &Cut) -> bool
    ensures { result ≡ has_parts cut.now }
{
    match cut {
        Cut::Whole => true,
        Cut::ByKey { parts, .. } => *parts > 0,
    }
}
