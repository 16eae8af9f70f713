// The call of the tools.
ghost use Rattle.std.specs.Prelude.{◌≡◌, ◌≢◌, ◌↔◌, ℕ, List, Ok, Err, true, IsNone, IfOk, IfErr, IfSome, map, string_bytes};
ghost use Rattle.tez_ports.specs.Content.{Told};
ghost use Rattle.tez_am.specs.Call.{reads_of, writes_of};
ghost use Rattle.tez_am.specs.Rows.{IsAnswer};
ghost use Rattle.tez_am.specs.Tool.{IsUsage, ToolCause, ToolLeaves, KeepsToolRows};
ghost use Rattle.tez_am.specs.Words.{is_for_run};

use crate::check::check;
use crate::failure::Failure;
use crate::mean::meaning;
use crate::say::say;
use crate::status::Status;
use crate::words::{check_file, is_run, meaning_file};
use std::alloc::Global;
use tez_ids::Bytes;
use tez_ports::{InputFiles, TextOut};

/// A refusal as a failure.
fn ended(text: Result<Bytes, Status>) -> Result<Bytes, Failure>
    ensures text { IfOk text (λ bytes. result ≡ Ok bytes) }
    ensures refusal { IfErr text (λ status. result ≡ Err (Failure.Because status)) }
{
    match text {
        Ok(text) => Ok(text),
        Err(refusal) => Err(Failure::Because(refusal)),
    }
}

/// Does a command that is no run.
fn tool<F: InputFiles, O: TextOut>(
    alloc: Global,
    words: &[String],
    files: &mut F,
    out: &mut O,
) -> Status
    ensures cause { ToolCause (record {
      words = map string_bytes words.now;
      reads = reads_of F.files F.faults F.failed files.old files.new;
      out = writes_of O.written O.faults out.old out.new;
    }) result }
    ensures leaves { ToolLeaves (record {
      words = map string_bytes words.now;
      reads = reads_of F.files F.faults F.failed files.old files.new;
      out = writes_of O.written O.faults out.old out.new;
    }) result }
    ensures usage { IsUsage (map string_bytes words.now) → IsAnswer Status.Usage result }
    ensures rows { Told (F.files files.old) (λ m. KeepsToolRows (map string_bytes words.now) m result) }
    ensures sure_files { F.is_sure files.old → (n : List ℕ) → result ≢ Status.InputFault n }
    ensures sure_out { O.is_sure out.old → result ≢ Status.OutFault }
{
    if let Some(word) = check_file(words) {
        return say(alloc, out, ended(check(alloc, word, files)));
    }
    if let Some(word) = meaning_file(words) {
        return say(alloc, out, ended(meaning(alloc, word, files)));
    }
    say(alloc, out, Err(Failure::Because(Status::Usage)))
}

/// Does a command that is no run, and `None` for the words of a run, which touches nothing. `check`
/// prints the canonical text of its DAG file and a line feed; `meaning` prints for each sink its line
/// and what a run publishes there, and publishes nothing; or the text says why the file is refused.
/// Linear in the files but for the checks of the plan and the sorts.
pub fn am_tool<F: InputFiles, O: TextOut>(
    alloc: Global,
    words: &[String],
    files: &mut F,
    out: &mut O,
) -> Option<Status>
    // No answer to the words of a run, and to no others.
    ensures none { IsNone result ↔ (is_for_run (map string_bytes words.now) ≡ true) }
    ensures same_files { IsNone result → files.new ≡ files.old }
    ensures same_out { IsNone result → out.new ≡ out.old }
    // Each answer has its cause.
    ensures cause { IfSome result (ToolCause (record {
      words = map string_bytes words.now;
      reads = reads_of F.files F.faults F.failed files.old files.new;
      out = writes_of O.written O.faults out.old out.new;
    })) }
    // Succeeded means that the text that is due was written: of a valid plan, which is what the DAG
    // file says, or of the meaning of a job. Each other answer says what it left.
    ensures leaves { IfSome result (ToolLeaves (record {
      words = map string_bytes words.now;
      reads = reads_of F.files F.faults F.failed files.old files.new;
      out = writes_of O.written O.faults out.old out.new;
    })) }
    // Each answer comes where it is due, unless a device fails or memory is short.
    ensures usage { IfSome result (λ s. IsUsage (map string_bytes words.now) → IsAnswer Status.Usage s) }
    ensures rows { IfSome result (λ s. Told (F.files files.old) (λ m. KeepsToolRows (map string_bytes words.now) m s)) }
    // Sure devices are not blamed.
    ensures sure_files { F.is_sure files.old → IfSome result (λ s. (n : List ℕ) → s ≢ Status.InputFault n) }
    ensures sure_out { O.is_sure out.old → IfSome result (λ s. s ≢ Status.OutFault) }
{
    if is_run(words) {
        None
    } else {
        Some(tool(alloc, words, files, out))
    }
}
