// What an attempt has gathered, by edge.
ghost use Rattle.std.specs.Prelude.{◌≡◌, ◌<◌, ℕ, List, [], ◌++◌, if◌then◌else◌, map, length, false, IsTrue, MatchOption, is_ok, IfOk};
ghost use Rattle.std.specs.List.{list_any};
ghost use Rattle.tez_ids.specs.declared.EdgeId.{EdgeId};
ghost use Rattle.tez_inflight.specs.Seats.{number, numbered, nothing_over, numbers_differ, gathers_over};
ghost use Rattle.tez_inflight.specs.Held.{edges_of, is_over, IsPartOf};

use std::alloc::{AllocError, Global};
use tez_ids::EdgeId;
use tez_record::Records;
use tez_shelves::Piece;

/// Nothing, over each of these edges.
pub fn no_parts(alloc: Global, edges: &[EdgeId]) -> Result<Vec<(EdgeId, Records)>, AllocError>
    ensures { IfOk result (λ parts. map numbered parts.items ≡ map nothing_over (map number edges.now)) }
{
    let mut parts = Vec::with_capacity(alloc, edges.len())?;
    for edge in edges {
        parts.push((*edge, Records::new(alloc)))?;
    }
    Ok(parts)
}

/// The first part of an edge.
fn part_of(parts: &[(EdgeId, Records)], edge: EdgeId) -> Option<usize>
    ensures { MatchOption result (list_any (is_over edge) parts.now ≡ false) (λ i. IsPartOf edge parts.now i) }
{
    for i in 0..parts.len() {
        if parts[i].0 == edge {
            return Some(i);
        }
    }
    None
}

/// Adds records that are its own at the end, or none. It moves them where there are none before.
fn append(records: &mut Records, more: Records) -> Result<(), AllocError>
    ensures { records.new ≡ (if is_ok result then records.old ++ more else records.old) }
{
    if records.is_empty() {
        *records = more;
        return Ok(());
    }
    records.append(&more)
}

/// Adds the records of a piece to the part of an edge, or none.
pub fn gather(
    alloc: Global,
    parts: &mut [(EdgeId, Records)],
    edge: EdgeId,
    piece: &Piece<'_>,
) -> Result<(), AllocError>
    requires { IsTrue (numbers_differ (edges_of (map numbered parts.old))) }
    ensures { map numbered parts.new ≡ (if is_ok result then map (gathers_over edge.0 piece.now) (map numbered parts.old) else map numbered parts.old) }
{
    match part_of(parts, edge) {
        Some(i) => append(&mut parts[i].1, piece.records(alloc)?),
        None => Ok(()),
    }
}
