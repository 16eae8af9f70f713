// The pieces of an attempt in one block.
ghost use Rattle.std.specs.Prelude.{◌≡◌, ◌<◌, ◌^◌, ℕ, List, [], ◌∷◌, ◌++◌, if◌then◌else◌, is_ok, IfOk, OnOk, sum_by};
ghost use Rattle.tez_record.specs.Line.{lines};
ghost use Rattle.tez_record.specs.Bag.{text};
ghost use Rattle.tez_shelves.specs.Piece.{piece_at, bytes_on, size};

use crate::marks::{Mark, find, stays_in_order};
use std::alloc::{AllocError, Global};
use std::marker::Model;
use tez_ids::EdgeId;
use tez_record::{Iter, Records, lines};

/// The pieces that an attempt made, which contracts see as the list of their edges, output numbers
/// and records. They are held as one block of bytes, the texts of the pieces one after another, and
/// a table of where each ends. So they have together fewer than 2^63 bytes.
#[derive(Drop)]
pub struct Pieces {
    block: Vec<u8>,
    table: Vec<Mark>,
    // Whether each piece came after those before it, by edge and then by output.
    in_order: bool,
}

impl Model for Pieces {
    ghost use Rattle.std.specs.Prelude.{List, ℕ};
    ghost use Rattle.tez_ids.specs.declared.EdgeId.{EdgeId};
    ghost use Rattle.tez_shelves.specs.Cut.{cut_from, IsCut};

    ghost Value = { List (EdgeId × ℕ × List (List ℕ)) };

    ghost view = { λ p. cut_from 0 p.block.items p.table.items };

    ghost invariant = { λ p. IsCut p.block.items p.table.items p.in_order };
}

impl Pieces {
    /// No pieces. Takes no memory.
    pub fn new(alloc: Global) -> Pieces
        ensures { result ≡ [] }
    {
        Pieces {
            block: Vec::new(alloc),
            table: Vec::new(alloc),
            in_order: true,
        }
    }

    /// Adds a piece at the end, or nothing. It copies the text of the records.
    pub fn push(&mut self, edge: EdgeId, output: u32, records: &Records) -> Result<(), AllocError>
        ensures { self.new ≡ (if is_ok result then self.old ++ (edge, output, records.now) ∷ [] else self.old) }
    {
        let text = text_of(records);
        self.block.try_reserve(text.len())?;
        self.table.try_reserve(1)?;
        self.block.extend_from_slice(text)?;
        let mark = Mark {
            edge,
            output,
            end: self.block.len(),
        };
        let in_order = stays_in_order(self.in_order, &self.table, mark);
        self.table.push(mark)?;
        self.in_order = in_order;
        Ok(())
    }

    /// An equal list. Linear in the block and the table.
    pub fn copy(&self, alloc: Global) -> Result<Pieces, AllocError>
        ensures { IfOk result (λ ps. ps ≡ self.now) }
    {
        Ok(Pieces {
            block: Vec::from_slice(alloc, self.block.as_slice())?,
            table: Vec::from_slice(alloc, self.table.as_slice())?,
            in_order: self.in_order,
        })
    }

    /// The bytes of all pieces.
    pub fn total(&self) -> usize
        ensures value { result ≡ sum_by size self.now }
        ensures small { result < 2 ^ 63 }
    {
        self.block.len()
    }

    /// The first piece of an output on an edge, and none exactly where there is none. It copies
    /// nothing. Logarithmic in the number of pieces where it is there and all were pushed in order, by
    /// edge and then by output, as those of a report are; else linear.
    pub fn piece(&self, edge: EdgeId, output: u32) -> Option<Piece<'_>>
        ensures { result ≡ piece_at edge output self.now }
    {
        if self.in_order {
            if let Some(text) = find(self.block.as_slice(), &self.table, edge, output) {
                return Some(Piece { text });
            }
        }
        let mut start = 0;
        for mark in &self.table {
            if mark.edge == edge && mark.output == output {
                return Some(Piece {
                    text: &self.block[start..mark.end],
                });
            }
            start = mark.end;
        }
        None
    }

    /// The bytes of the pieces on an edge, and none exactly where there are no such pieces. Linear
    /// in the number of pieces.
    pub fn bytes(&self, edge: EdgeId) -> Option<u64>
        ensures { result ≡ bytes_on edge self.now }
    {
        let mut total = None;
        let mut start = 0;
        for mark in &self.table {
            if mark.edge == edge {
                total = Some(total.unwrap_or(0) + (mark.end - start) as u64);
            }
            start = mark.end;
        }
        total
    }
}

fn text_of(records: &Records) -> &[u8]
    ensures text { result.now ≡ text records.now }
    ensures lines { lines result.now ≡ records.now }
{
    let _lines = records.iter();
    records.text()
}

/// The pieces of these edges, output numbers and records. It copies their texts into one block, and
/// answers want of memory where they have together 2^63 bytes or more.
pub fn pieces_new(alloc: Global, parts: Vec<(EdgeId, u32, Records)>) -> Result<Pieces, AllocError>
    ensures list { IfOk result (λ pieces. pieces ≡ parts.items) }
    ensures small { OnOk result (sum_by size parts.items < 2 ^ 63) }
{
    let mut pieces = Pieces::new(alloc);
    for (edge, output, records) in &parts {
        pieces.push(*edge, *output, records)?;
    }
    let _bytes = pieces.total();
    Ok(pieces)
}

/// A piece that is lent, which contracts see as its records.
#[derive(Drop)]
pub struct Piece<'a> {
    text: &'a [u8],
}

impl<'a> Model for Piece<'a> {
    ghost use Rattle.std.specs.Prelude.{List, ℕ};
    ghost use Rattle.tez_record.specs.Line.{lines};
    ghost use Rattle.tez_record.specs.Block.{IsText};

    ghost Value = { List (List ℕ) };

    ghost view = { λ p. lines p.text.now };

    ghost invariant = { λ p. IsText p.text.now };
}

impl<'a> Piece<'a> {
    /// Each record followed by a line feed. Takes no memory.
    pub fn text(&self) -> &[u8]
        ensures { result.now ≡ text self.now }
    {
        self.text
    }

    /// The records in their order. Takes no memory.
    pub fn iter(&self) -> Iter<'_>
        ensures { lines result.rest.now ≡ self.now }
    {
        Iter::new(self.text)
    }

    /// A copy of the records. Linear in their text.
    pub fn records(&self, alloc: Global) -> Result<Records, AllocError>
        ensures { IfOk result (λ rs. rs ≡ self.now) }
    {
        lines(alloc, self.text)
    }
}
