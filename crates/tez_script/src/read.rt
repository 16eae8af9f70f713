// Reading a script.
ghost use Rattle.std.specs.Prelude.{◌≡◌, ◌≤◌, ℕ, List, map, IfOk, IfErr, IfSome, IsTrue, length};
ghost use Rattle.std.specs.List.{list_any};
ghost use Rattle.tez_record.specs.Line.{lines};
ghost use Rattle.tez_plan.specs.Dag.{Dag};
ghost use Rattle.tez_conf.specs.declared.values.ConfValues.{ConfValues};
ghost use Rattle.tez_script.specs.declared.line.ScriptLine.{ScriptLine};
ghost use Rattle.tez_script.specs.Grammar.{IsScript, IsRefusedAt, repeats, has_times};
ghost use Rattle.tez_script.specs.Reading.{may_follow, next_of, none_fired, IsRefused};

use crate::fault::ScriptFault;
use crate::line::ScriptLine;
use crate::parse::line_at;
use crate::script::Script;
use std::alloc::Global;
use tez_conf::Conf;
use tez_ids::TaskId;
use tez_plan::Plan;
use tez_record::Iter;

const MOST_LINES: usize = 1000;

/// Whether some line repeats the task's report.
fn is_repeated(lines: &[ScriptLine], task: TaskId) -> bool
    ensures { result ≡ list_any (repeats task) lines.now }
{
    lines.iter().any(|line| repeats(line, task))
}

fn repeats(line: &ScriptLine, task: TaskId) -> bool
    ensures { result ≡ repeats task line.now }
{
    match line {
        ScriptLine::Repeat { task: other, .. } => *other == task,
        ScriptLine::Fail { .. }
        | ScriptLine::LoseNode { .. }
        | ScriptLine::LoseOutput { .. }
        | ScriptLine::Restart { .. }
        | ScriptLine::StopDisk(_)
        | ScriptLine::StopStore(_) => false,
    }
}

/// Whether a line may stand behind these.
fn may_follow(lines: &[ScriptLine], line: ScriptLine) -> bool
    ensures { result ≡ may_follow lines.now line }
{
    match line {
        ScriptLine::Repeat { task, .. } => !is_repeated(lines, task),
        ScriptLine::Fail { .. }
        | ScriptLine::LoseNode { .. }
        | ScriptLine::LoseOutput { .. }
        | ScriptLine::Restart { .. }
        | ScriptLine::StopDisk(_)
        | ScriptLine::StopStore(_) => true,
    }
}

/// What a line says behind these lines of a script, None where the script is refused there.
fn next_line(p: &Plan, c: &Conf, lines: &[ScriptLine], line: &[u8]) -> Option<ScriptLine>
    ensures value { result ≡ next_of p.now c.now lines.now line.now }
    ensures times { IfSome result (λ x. IsTrue (has_times x)) }
{
    if lines.len() >= MOST_LINES {
        return None;
    }
    match line_at(p, c, line) {
        Some(x) if may_follow(lines, x) => Some(x),
        _ => None,
    }
}

/// The script that the bytes of a file say for this plan and this configuration, none of its lines
/// fired; or the first line outside the grammar. A file of any length is read.
pub fn read_script(alloc: Global, bytes: &[u8], p: &Plan, c: &Conf) -> Result<Script, ScriptFault>
    ensures script { IfOk result (λ s. IsScript p.now c.now (lines bytes.now) s.lines) }
    ensures fresh { IfOk result (λ s. s.fired ≡ map none_fired s.lines) }
    ensures refused { IfErr result (λ fault. IsRefused p.now c.now (lines bytes.now) fault) }
{
    let mut found = Vec::new(alloc);
    for line in Iter::new(bytes) {
        match next_line(p, c, found.as_slice(), line) {
            Some(x) => found.push(x)?,
            None => {
                return Err(ScriptFault::Line {
                    line: found.len() as u32 + 1,
                });
            }
        }
    }
    Ok(Script::of_lines(alloc, found)?)
}

/// Lines are one script at most, and then no line of theirs is refused; and at most one line is.
pub fn one_answer_is_due()
    ensures one { (g : Dag) (c : ConfValues) (ls : List (List ℕ)) (xs ys : List ScriptLine) → IsScript g c ls xs → IsScript g c ls ys → xs ≡ ys }
    ensures none { (g : Dag) (c : ConfValues) (ls : List (List ℕ)) (xs : List ScriptLine) (n : ℕ) → IsScript g c ls xs → ¬ IsRefusedAt g c ls n }
    ensures first { (g : Dag) (c : ConfValues) (ls : List (List ℕ)) (m n : ℕ) → IsRefusedAt g c ls m → IsRefusedAt g c ls n → m ≡ n }
{}
