// The top call.
ghost use Rattle.std.specs.Prelude.{◌≡◌, ◌≢◌, ◌⊎◌, ℕ, List, None, map, string_bytes};
ghost use Rattle.tez_ports.specs.Content.{Told};
ghost use Rattle.tez_am.specs.Call.{reads_of, stored_of, writes_of};
ghost use Rattle.tez_am.specs.Cause.{Cause, Leaves, Writing, HasTrace};
ghost use Rattle.tez_am.specs.Rows.{IsAnswer, KeepsRows};
ghost use Rattle.tez_am.specs.Words.{dag_word};

use crate::accept::accept;
use crate::failure::Failure;
use crate::run::run;
use crate::say::say;
use crate::status::Status;
use crate::words::dag_file;
use std::alloc::Global;
use tez_events::Trace;
use tez_ports::{Gate, InputFiles, JournalDisk, OutputStore, TextOut};
use tez_world::Device;

/// Runs a command: works the plan of its DAG file, publishes each sink once with its sorted records, and
/// says so, or says why not. The disk and the gate are not used. Each task costs what `work` costs on its
/// inputs; the sources and what stands on the shelves are held until the end.
pub fn am_run<F: InputFiles, S: OutputStore, D: JournalDisk, O: TextOut, G: Gate + Sync>(
    alloc: Global,
    words: &[String],
    files: &mut F,
    store: &mut S,
    _disk: &mut D,
    out: &mut O,
    _gate: &G,
    log: &mut Trace,
) -> Status
    // Each answer has its cause.
    ensures cause { Cause (record {
      words = map string_bytes words.now;
      reads = reads_of F.files F.faults F.failed files.old files.new;
      store = stored_of S.store S.faults S.stops store.old store.new;
      out = writes_of O.written O.faults out.old out.new;
    }) result }
    // Succeeded means that the plan has a meaning over the source bytes, and each sink was published
    // exactly once, with exactly the sorted records of that meaning. Each other answer says what it
    // left in the store.
    ensures headline { Leaves (record {
      words = map string_bytes words.now;
      reads = reads_of F.files F.faults F.failed files.old files.new;
      store = stored_of S.store S.faults S.stops store.old store.new;
      out = writes_of O.written O.faults out.old out.new;
    }) result }
    // What was written is the text of the answer.
    ensures text { Writing (record {
      words = map string_bytes words.now;
      reads = reads_of F.files F.faults F.failed files.old files.new;
      store = stored_of S.store S.faults S.stops store.old store.new;
      out = writes_of O.written O.faults out.old out.new;
    }) result }
    // Where a job was run, the log has its trace, which is lawful: each order had exactly its inputs, each
    // from a winner, and no rule of traces is broken. A success staged each task of a vertex with a sink.
    // Else the log is as it was.
    ensures trace { (log.new ≡ log.old) ⊎ HasTrace (record {
      words = map string_bytes words.now;
      reads = reads_of F.files F.faults F.failed files.old files.new;
      store = stored_of S.store S.faults S.stops store.old store.new;
      out = writes_of O.written O.faults out.old out.new;
    }) result log.new.entries }
    // Each answer comes where it is due, unless a device fails or memory is short.
    ensures usage { dag_word (map string_bytes words.now) ≡ None → IsAnswer Status.Usage result }
    ensures rows { Told (F.files files.old) (λ m. KeepsRows (map string_bytes words.now) m (S.store store.old) result) }
    // Sure devices are not blamed.
    ensures sure_files { F.is_sure files.old → (n : List ℕ) → result ≢ Status.InputFault n }
    ensures sure_store { S.is_sure store.old → result ≢ Status.DeviceFault Device.Store }
    ensures sure_out { O.is_sure out.old → result ≢ Status.OutFault }
    ensures disk { (D.disk _disk.new ≡ D.disk _disk.old) × (D.faults _disk.new ≡ D.faults _disk.old)
        × (D.stops _disk.new ≡ D.stops _disk.old) × (D.spare _disk.new ≡ D.spare _disk.old) }
    // The store and the disk go by the same references as before.
    ensures lent { (S.lent store.new ≡ S.lent store.old) × (D.lent _disk.new ≡ D.lent _disk.old) }
{
    let Some(word) = dag_file(words) else {
        return say(alloc, out, Err(Failure::Because(Status::Usage)));
    };
    match accept(alloc, word, files) {
        Ok((job, conf)) => say(alloc, out, run(alloc, job, conf, store, log)),
        Err(refusal) => say(alloc, out, Err(Failure::Because(refusal))),
    }
}
