// What a head reads of its inputs.
ghost use Rattle.std.specs.Prelude.{◌≡◌, not, IfOk};
ghost use Rattle.tez_operators.specs.Process.{is_join, is_vertex, is_left, columns_at, records_of};

use std::alloc::{AllocError, Global};
use tez_ids::VertexId;
use tez_plan::{Columns, Head};
use tez_record::Records;

/// The records that a head other than a join reads, or those of a join's left side.
pub fn left_records(
    alloc: Global,
    head: &Head,
    keys: &[(VertexId, Columns)],
    parts: &[(Option<VertexId>, Records)],
) -> Result<Records, AllocError>
    ensures { IfOk result (λ rs. rs ≡ records_of (is_left head.now keys.now) parts.now) }
{
    let mut records = Records::new(alloc);
    for (source, part) in parts {
        if is_left(head, keys, *source) {
            records.append(part)?;
        }
    }
    Ok(records)
}

/// The records of a join's other side.
pub fn right_records(
    alloc: Global,
    head: &Head,
    keys: &[(VertexId, Columns)],
    parts: &[(Option<VertexId>, Records)],
) -> Result<Records, AllocError>
    ensures { IfOk result (λ rs. rs ≡ records_of (λ u. not (is_left head.now keys.now u)) parts.now) }
{
    let mut records = Records::new(alloc);
    for (source, part) in parts {
        if !is_left(head, keys, *source) {
            records.append(part)?;
        }
    }
    Ok(records)
}

fn is_left(head: &Head, keys: &[(VertexId, Columns)], source: Option<VertexId>) -> bool
    ensures { result ≡ is_left head.now keys.now source }
{
    if !is_join(head) {
        return true;
    }
    match keys.first() {
        Some(first) => is_vertex(first.0, source),
        None => false,
    }
}

fn is_join(head: &Head) -> bool
    ensures { result ≡ is_join head.now }
{
    matches!(head, Head::Join { .. })
}

fn is_vertex(vertex: VertexId, source: Option<VertexId>) -> bool
    ensures { result ≡ is_vertex vertex source }
{
    match source {
        Some(from) => from.0 == vertex.0,
        None => false,
    }
}

/// The key columns of the vertex at a place, and none where there is no such place.
pub fn columns_at(keys: &[(VertexId, Columns)], n: usize) -> &[u16]
    ensures { result.now ≡ columns_at keys.now n }
{
    match keys.get(n) {
        Some(at) => at.1.as_slice(),
        None => &[],
    }
}
