//! The program `tez`: it makes the real devices, runs the command that its arguments are, and ends with
//! the number of the answer.
#![tactic(auto)]

use std::alloc::Global;
use std::env::{self, Env};
use std::io::{self, ErrorKind};
use std::process::ExitCode;
use tez_am::{Status, am_run, am_tool, exit_code};
use tez_events::Trace;
use tez_ports::TextOut;
use tez_ports_real::{FolderFiles, FolderStore, NoDisk, QuietGate, StdOut};

/// The arguments. Where one is not UTF-8 there are none, so that the command line is a faulty one.
fn words<R: Env + Alloc<A = Global>>(alloc: Global, rt: &R) -> io::Result<Vec<String>> {
    let mut words = Vec::new(alloc);
    match env::args(rt) {
        Ok(args) => {
            for word in args.skip(1) {
                words.push(word)?;
            }
            Ok(words)
        }
        Err(error) if error.kind() == ErrorKind::OutOfMemory => Err(error),
        Err(_) => Ok(words),
    }
}

fn main(rt: HostRuntime) -> ExitCode {
    let alloc = rt.alloc();
    let mut out = StdOut::new(&rt);
    let Ok(words) = words(alloc, &rt) else {
        let _ = out.write(b"NO MEMORY\n");
        return ExitCode::from(exit_code(&Status::NoMemory));
    };
    let mut files = FolderFiles::new(alloc, &rt);
    if let Some(status) = am_tool(alloc, &words, &mut files, &mut out) {
        return ExitCode::from(exit_code(&status));
    }
    let mut store = FolderStore::new(alloc, &rt);
    let mut disk = NoDisk::new();
    let status = am_run(
        alloc,
        &words,
        &mut files,
        &mut store,
        &mut disk,
        &mut out,
        &QuietGate {},
        &mut Trace::new(alloc),
    );
    ExitCode::from(exit_code(&status))
}
