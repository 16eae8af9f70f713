// Where the pieces of an attempt end in their block.
ghost use Rattle.std.specs.Prelude.{◌≡◌, ◌<◌, ◌++◌, ◌∷◌, [], length, slice_range, Some, IfSome, IsTrue, true};
ghost use Rattle.tez_record.specs.Block.{IsText};
ghost use Rattle.tez_record.specs.Line.{lines};
ghost use Rattle.tez_shelves.specs.Cut.{cut_from, starts, AreCuts, IsBefore, IsInOrder};
ghost use Rattle.tez_shelves.specs.Piece.{piece_at};

use tez_ids::EdgeId;

/// A piece's edge and output number, and where its text ends in the block.
#[derive(Clone, Copy)]
pub(crate) struct Mark {
    pub(crate) edge: EdgeId,
    pub(crate) output: u32,
    pub(crate) end: usize,
}

/// Whether a piece comes before one of this output on this edge.
fn is_before(m: &Mark, edge: EdgeId, output: u32) -> bool
    ensures { IsTrue result → IsBefore m.now edge output }
{
    m.edge.0 < edge.0 || (m.edge.0 == edge.0 && m.output < output)
}

/// Whether a table, of which it is noted whether it is in order, is so with one mark more.
pub(crate) fn stays_in_order(in_order: bool, table: &[Mark], next: Mark) -> bool
    ensures { (in_order ≡ true → IsInOrder table.now) → result ≡ true → IsInOrder (table.now ++ next ∷ []) }
{
    in_order && comes_next(table, next)
}

fn comes_next(table: &[Mark], next: Mark) -> bool
    ensures { IsTrue result → IsInOrder table.now → IsInOrder (table.now ++ next ∷ []) }
{
    let many = table.len();
    many == 0 || is_before(&table[many - 1], next.edge, next.output)
}

/// Where the piece at a place of the table starts.
fn start_of(table: &[Mark], place: usize) -> usize
    requires { place < length table.now }
    ensures { result ≡ starts 0 table.now place }
{
    if place == 0 { 0 } else { table[place - 1].end }
}

/// The text of the first piece of an output on an edge, found by halving a table in order.
pub(crate) fn find<'a>(
    block: &'a [u8],
    table: &[Mark],
    edge: EdgeId,
    output: u32,
) -> Option<&'a [u8]>
    requires cuts { AreCuts 0 block.now table.now }
    requires order { IsInOrder table.now }
    ensures found { IfSome result (λ text. piece_at edge output (cut_from 0 block.now table.now) ≡ Some (lines text.now)) }
    ensures whole { IfSome result (λ text. IsText text.now) }
{
    let place = table.partition_point(|m| is_before(m, edge, output));
    if table.len() <= place {
        return None;
    }
    let mark = table[place];
    if mark.edge == edge && mark.output == output {
        let start = start_of(table, place);
        Some(&block[start..mark.end])
    } else {
        None
    }
}
