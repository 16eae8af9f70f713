// Records in one block of text, each ended by a line feed.
ghost use Rattle.std.specs.Prelude.{◌≡◌, ◌↔◌, ℕ, List, [], ◌∷◌, ◌++◌, if◌then◌else◌, IsTrue, is_ok, OnOk, IfOk, length, Bool};
ghost use Rattle.std.specs.List.{AllByRecursion, filter};
ghost use Rattle.std.specs.Iterator.{YieldsFirstRef, item_count};
ghost use Rattle.tez_record.specs.Line.{lines, IsRecord};
ghost use Rattle.tez_record.specs.Bag.{sort, text};
ghost use Rattle.tez_record.specs.Test.{IsTestOf};
ghost use Rattle.tez_record.specs.Field.{key};

use crate::block::{first_line, push_end, push_fields_line, push_key_line, push_line};
use crate::sort_key::SortKey;
use std::alloc::{AllocError, Global};
use std::marker::Model;

/// Records in some order, which contracts see as the list of their bytes. They are held as their
/// text: each record followed by a line feed, so an empty record takes one byte.
#[derive(Drop)]
pub struct Records {
    bytes: Vec<u8>,
}

impl Model for Records {
    ghost use Rattle.std.specs.Prelude.{List, ℕ};
    ghost use Rattle.tez_record.specs.Line.{lines};
    ghost use Rattle.tez_record.specs.Block.{IsText};

    ghost Value = { List (List ℕ) };

    ghost view = { λ r. lines r.bytes.items };

    ghost invariant = { λ r. IsText r.bytes.items };
}

impl Records {
    /// No records. Takes no memory.
    pub fn new(alloc: Global) -> Records
        ensures { result ≡ [] }
    {
        Records {
            bytes: Vec::new(alloc),
        }
    }

    /// Adds a record at the end, or nothing where memory is refused. Linear in the record, on average.
    pub fn push(&mut self, line: &[u8]) -> Result<(), AllocError>
        requires { IsRecord line.now }
        ensures { self.new ≡ (if is_ok result then self.old ++ line.now ∷ [] else self.old) }
    {
        push_line(&mut self.bytes, line)
    }

    /// Adds the key of a record at the end, as `key` makes it, or nothing.
    pub fn push_key(&mut self, r: &[u8], cols: &[u16]) -> Result<(), AllocError>
        requires { IsRecord r.now }
        ensures { self.new ≡ (if is_ok result then self.old ++ key cols.now r.now ∷ [] else self.old) }
    {
        push_key_line(&mut self.bytes, r, cols)
    }

    /// Adds a record at the end that is one record, a tab and another one, or nothing.
    pub fn push_joined(&mut self, left: &[u8], right: &[u8]) -> Result<(), AllocError>
        requires left { IsRecord left.now }
        requires right { IsRecord right.now }
        ensures { self.new ≡ (if is_ok result then self.old ++ (left.now ++ 9 ∷ right.now) ∷ [] else self.old) }
    {
        push_fields_line(&mut self.bytes, left, right)
    }

    /// Adds all records of another list at the end, or none. Linear in the other list's text, on average.
    pub fn append(&mut self, other: &Records) -> Result<(), AllocError>
        ensures { self.new ≡ (if is_ok result then self.old ++ other.now else self.old) }
    {
        self.bytes.extend_from_slice(other.bytes.as_slice())
    }

    /// Makes room for that many bytes of text more: for each record its length and one.
    pub fn reserve(&mut self, bytes: usize) -> Result<(), AllocError>
        ensures { self.new ≡ self.old }
    {
        self.bytes.try_reserve(bytes)
    }

    /// Each record followed by a line feed. Takes no memory.
    pub fn text(&self) -> &[u8]
        ensures { result.now ≡ text self.now }
    {
        self.bytes.as_slice()
    }

    /// The text, as `text` lends it. Takes no memory.
    pub fn into_text(self) -> Vec<u8>
        ensures { result.items ≡ text self }
    {
        self.bytes
    }

    pub fn is_empty(&self) -> bool
        ensures { IsTrue result ↔ (self.now ≡ []) }
    {
        self.bytes.is_empty()
    }

    /// How many records there are. It looks at each byte of the text.
    pub fn len(&self) -> usize
        ensures { result ≡ length self.now }
    {
        count_lines(self.bytes.as_slice())
    }

    /// The records in their order. `next` takes no memory, and is linear in the record that it gives.
    pub fn iter(&self) -> Iter<'_>
        ensures { lines result.rest.now ≡ self.now }
    {
        Iter {
            rest: self.bytes.as_slice(),
        }
    }

    /// An equal list. Linear in the text.
    pub fn copy(&self, alloc: Global) -> Result<Records, AllocError>
        ensures { IfOk result (λ rs. rs ≡ self.now) }
    {
        Ok(Records {
            bytes: Vec::from_slice(alloc, self.bytes.as_slice())?,
        })
    }

    /// The records that pass a test, in their order. Linear in the text, beside the calls of the test.
    pub fn kept<F: Fn(&[u8]) -> bool>(&self, alloc: Global, test: F) -> Result<Records, AllocError>
        requires { F.IsAlwaysCallable test }
        ensures { (p : List ℕ → Bool) → IsTestOf F.Fn test p → IfOk result (λ rs. rs ≡ filter p self.now) }
    {
        let mut kept = Records::new(alloc);
        for line in self.iter() {
            if test(line) {
                kept.push(line)?;
            }
        }
        Ok(kept)
    }

    /// The same records in byte order. For n records it takes n log n comparisons, most of them of
    /// one number, and 32 bytes a record beside one copy of the text.
    pub fn sorted(&self, alloc: Global) -> Result<Records, AllocError>
        ensures { IfOk result (λ rs. rs ≡ sort self.now) }
    {
        let mut keys = keys_of(alloc, self)?;
        keys.sort_unstable();
        let mut sorted = Records::new(alloc);
        sorted.reserve(self.bytes.len())?;
        push_all(&mut sorted, keys.as_slice())?;
        Ok(sorted)
    }
}

fn keys_of<'a>(alloc: Global, records: &'a Records) -> Result<Vec<SortKey<'a>>, AllocError>
    ensures { IfOk result (λ keys. keys.items ≡ records.now) }
{
    let mut keys = Vec::with_capacity(alloc, records.len())?;
    for line in records.iter() {
        keys.push(SortKey::new(line))?;
    }
    Ok(keys)
}

fn push_all(records: &mut Records, keys: &[SortKey<'_>]) -> Result<(), AllocError>
    requires { AllByRecursion IsRecord keys.now }
    ensures { OnOk result (records.new ≡ records.old ++ keys.now) }
{
    for key in keys {
        records.push(key.bytes())?;
    }
    Ok(())
}

fn count_lines(bytes: &[u8]) -> usize
    ensures { result ≡ length (lines bytes.now) }
{
    Iter::new(bytes).count()
}

/// The lines of a text, as records: the pieces between line feeds, of which a last one counts
/// unless it is empty. A carriage return is an ordinary byte. Copies the text once.
pub fn lines(alloc: Global, bytes: &[u8]) -> Result<Records, AllocError>
    ensures { IfOk result (λ rs. rs ≡ lines bytes.now) }
{
    lines_of(Vec::from_slice(alloc, bytes)?)
}

/// As `lines`, of bytes that the records keep. It copies nothing where the last line ends with a
/// line feed, or the vector has room for one.
pub fn lines_of(bytes: Vec<u8>) -> Result<Records, AllocError>
    ensures { IfOk result (λ rs. rs ≡ lines bytes.items) }
{
    let mut text = bytes;
    push_end(&mut text)?;
    Ok(Records { bytes: text })
}

/// The bag of these records: the same records in byte order. Cost as `Records::sorted`.
pub fn bag_sort(alloc: Global, rs: Records) -> Result<Records, AllocError>
    ensures { IfOk result (λ bag. bag ≡ sort rs) }
{
    rs.sorted(alloc)
}

/// A copy of the text of these records, each followed by a line feed. Linear in the text.
pub fn bag_text(alloc: Global, rs: &Records) -> Result<Vec<u8>, AllocError>
    ensures { IfOk result (λ bytes. bytes.items ≡ text rs.now) }
{
    Vec::from_slice(alloc, rs.text())
}

/// The lines of a text that are left to give.
#[derive(Drop)]
pub struct Iter<'a> {
    pub rest: &'a [u8],
}

impl<'a> Iter<'a> {
    /// All lines of a text.
    pub fn new(text: &'a [u8]) -> Iter<'a>
        ensures { result.rest.now ≡ text.now }
    {
        Iter { rest: text }
    }
}

impl<'a> Iterator for Iter<'a> {
    type Item = &'a [u8];

    ghost next_gives = { YieldsFirstRef (λ s. lines s.rest.now) };

    ghost remaining = { item_count (λ s. lines s.rest.now) };

    fn next(&mut self) -> Option<&'a [u8]> {
        let (line, rest) = first_line(self.rest)?;
        self.rest = rest;
        Some(line)
    }
}
