// The writing of the one text of a call.
ghost use Rattle.std.specs.Prelude.{◌≡◌, ◌≢◌};
ghost use Rattle.tez_am.specs.Call.{writes_of};
ghost use Rattle.tez_am.specs.Cause.{SaidNoMemory};
ghost use Rattle.tez_am.specs.Say.{answer_of, failure_text, status_of, text_of, Said};

use crate::failure::Failure;
use crate::status::Status;
use crate::text::failure;
use std::alloc::Global;
use tez_ids::Bytes;
use tez_ports::{OutFailed, TextOut};

/// Says that memory is short. That this fails changes nothing.
fn say_no_memory<O: TextOut>(out: &mut O) -> Status
    ensures status { result ≡ Status.NoMemory }
    ensures said { SaidNoMemory (writes_of O.written O.faults out.old out.new) }
{
    let _ = out.write(b"NO MEMORY\n");
    Status::NoMemory
}

/// Writes the text, and answers the status unless that fails.
fn say_text<O: TextOut>(out: &mut O, text: &[u8], status: Status) -> Status
    requires { status ≢ Status.NoMemory }
    ensures said { Said status text.now (writes_of O.written O.faults out.old out.new) result }
    ensures sure { O.is_sure out.old → status ≢ Status.OutFault → result ≢ Status.OutFault }
{
    match out.write(text) {
        Ok(()) => status,
        Err(OutFailed::Failed) => Status::OutFault,
        Err(OutFailed::NoMemory) => Status::NoMemory,
    }
}

/// Writes the text of a status, which of want of memory is its own.
fn say_status<O: TextOut>(out: &mut O, text: &[u8], status: Status) -> Status
    ensures said { Said status text.now (writes_of O.written O.faults out.old out.new) result }
    ensures sure { O.is_sure out.old → status ≢ Status.OutFault → result ≢ Status.OutFault }
{
    match status {
        Status::NoMemory => say_no_memory(out),
        status => say_text(out, text, status),
    }
}

/// Says why a call gave no text of its own.
fn say_failure<O: TextOut>(alloc: Global, out: &mut O, ended: Failure) -> Status
    ensures said { Said (status_of ended) (failure_text ended) (writes_of O.written O.faults out.old out.new) result }
    ensures sure { O.is_sure out.old → status_of ended ≢ Status.OutFault → result ≢ Status.OutFault }
{
    match failure(alloc, &ended) {
        Ok(text) => say_status(out, text.as_bytes(), ended.into_status()),
        Err(_) => say_no_memory(out),
    }
}

/// Says how a call ended, and answers with its status unless that fails.
pub fn say<O: TextOut>(alloc: Global, out: &mut O, ended: Result<Bytes, Failure>) -> Status
    ensures said { Said (answer_of ended) (text_of ended) (writes_of O.written O.faults out.old out.new) result }
    ensures sure { O.is_sure out.old → answer_of ended ≢ Status.OutFault → result ≢ Status.OutFault }
{
    match ended {
        Ok(text) => say_text(out, text.as_slice(), Status::Succeeded),
        Err(failure) => say_failure(alloc, out, failure),
    }
}
