// A script, with what has fired of it.
ghost use Rattle.std.specs.Prelude.{◌≡◌, ◌≤◌, [], length, map, IfOk, IsTrue};
ghost use Rattle.std.specs.List.{list_all};
ghost use Rattle.tez_script.specs.Grammar.{has_times};
ghost use Rattle.tez_script.specs.Reading.{none_fired};

use crate::line::ScriptLine;
use std::alloc::{AllocError, Global};
use std::marker::Model;

/// A script of at most 1,000 lines, with a mark at each line that has fired.
#[derive(Drop)]
pub struct Script {
    lines: Vec<ScriptLine>,
    fired: Vec<bool>,
}

impl Model for Script {
    ghost use Rattle.tez_script.specs.Reading.{ScriptValue, IsKept};

    ghost Value = { ScriptValue };

    ghost view = { λ s. record { lines = s.lines.items; fired = s.fired.items } };

    ghost invariant = { λ s. IsKept s.lines.items s.fired.items };
}

/// A mark for each line, none of them set.
fn no_marks(alloc: Global, lines: &[ScriptLine]) -> Result<Vec<bool>, AllocError>
    ensures { IfOk result (λ marks. marks.items ≡ map none_fired lines.now) }
{
    let mut marks = Vec::with_capacity(alloc, lines.len())?;
    for _line in lines {
        marks.push(false)?;
    }
    Ok(marks)
}

impl Script {
    /// A script of no lines. Takes no memory.
    pub fn empty(alloc: Global) -> Script
        ensures lines { result.lines ≡ [] }
        ensures fired { result.fired ≡ [] }
    {
        Script {
            lines: Vec::new(alloc),
            fired: Vec::new(alloc),
        }
    }

    /// The script of these lines, of which none has fired.
    pub(crate) fn of_lines(alloc: Global, lines: Vec<ScriptLine>) -> Result<Script, AllocError>
        requires few { length lines.items ≤ 1000 }
        requires times { IsTrue (list_all has_times lines.items) }
        ensures lines { IfOk result (λ s. s.lines ≡ lines.items) }
        ensures fired { IfOk result (λ s. s.fired ≡ map none_fired lines.items) }
    {
        let fired = no_marks(alloc, lines.as_slice())?;
        Ok(Script { lines, fired })
    }

    /// The lines in their order.
    pub fn lines(&self) -> &[ScriptLine]
        ensures same { result.now ≡ self.now.lines }
        ensures few { length result.now ≤ 1000 }
        ensures times { IsTrue (list_all has_times result.now) }
        ensures marks { length self.now.fired ≡ length result.now }
    {
        let _ = &self.fired;
        self.lines.as_slice()
    }

    /// Which lines have fired, each by its place.
    pub fn fired(&self) -> &[bool]
        ensures { result.now ≡ self.now.fired }
    {
        self.fired.as_slice()
    }
}
