//! The journal's file as a disk.
ghost use Rattle.std.specs.Prelude.{◌≡◌, ◌≤◌, ◌+◌, ◌^◌, ℕ, None};
ghost use Rattle.std.proofs.lemmas.Option.{none-some};
ghost use Rattle.tez_ports.specs.Causes.{Rose};

use crate::report::report;
use std::alloc::AllocError;
use std::fs::{File, OpenFile, OpenOptions};
use std::io::{self, ErrorKind, Read, Seek, SeekFrom, Write};
use std::rt::Files;
use tez_ports::{DeviceStop, JournalDisk};

const FILE: &str = "tez.journal";

/// A content below this many bytes.
const LIMIT: u64 = 1 << 62;

/// The file `tez.journal` of the working folder. It is opened at the first call that reads, writes or
/// syncs, and made where it is missing; what is in it stays. It tells nothing of what it holds, and each
/// error counts a fault. No write takes memory, so room is only a number, and a power cut is left to the
/// machine.
///
/// What is trusted: while nobody else writes the file, and no sync of it has failed, it keeps the model
/// of `JournalDisk`. A read gives what was written; after a `sync` that answered Ok a crash of the machine
/// leaves the content as it was then, but for the ranges that were written since, and the file is in its
/// folder. What an earlier process wrote and did not sync is synced when the file is opened, before any
/// of it is read.
///
/// Once a sync has failed, nothing is trusted of what was pending: the system may have dropped it, give it
/// to a read all the same, and answer Ok to the next sync, also to that of a later process.
#[derive(Drop)]
pub struct FileDisk<'r, R: Files + Eprint> {
    rt: &'r R,
    file: Option<R::File>,
    faults: u64,
    spare: u64,
}

impl<'r, R: Files + Eprint> FileDisk<'r, R> {
    pub fn new(rt: &'r R) -> Self
        ensures faults { result.faults ≡ 0 }
        ensures spare { result.spare ≡ 0 }
    {
        FileDisk {
            rt,
            file: None,
            faults: 0,
            spare: 0,
        }
    }

    /// The answer to an error, which is told to the user.
    fn fault(&mut self, error: io::Error) -> DeviceStop
        ensures failed { result ≡ DeviceStop.Failed }
        ensures rose { Rose self.old.faults self.new.faults }
        ensures later { self.old.faults ≤ self.new.faults }
        ensures spare { self.new.spare ≡ self.old.spare }
    {
        report(self.rt, FILE, &error);
        self.faults = self.faults.saturating_add(1);
        DeviceStop::Failed
    }
}

impl<R: Files + Eprint> JournalDisk for FileDisk<'_, R> {
    ghost disk = { λ _. None };

    ghost faults = { λ s. s.faults };

    ghost stops = { λ _. 0 };

    ghost spare = { λ s. s.spare };

    ghost lent = { λ _. 0 };

    ghost is_faultless = { λ _. ⊥ };

    ghost is_sure = { λ _. ⊥ };

    fn size(&mut self) -> Result<u64, DeviceStop> {
        match size_of(self.rt, &mut self.file) {
            Ok(size) => Ok(size),
            Err(error) => Err(self.fault(error)),
        }
    }

    fn read_at(&mut self, start: u64, into: &mut [u8]) -> Result<(), DeviceStop> {
        match read_from(self.rt, &mut self.file, start, into) {
            Ok(()) => Ok(()),
            Err(error) => Err(self.fault(error)),
        }
    }

    fn reserve(&mut self, units: u64) -> Result<(), AllocError> {
        self.spare = self.spare.max(units);
        Ok(())
    }

    fn write_at(&mut self, start: u64, bytes: &[u8]) -> Result<(), DeviceStop> {
        if bytes.len() as u64 >= LIMIT.saturating_sub(start) {
            return Err(self.fault(io::Error::from(ErrorKind::FileTooLarge)));
        }
        match write_from(self.rt, &mut self.file, start, bytes) {
            Ok(()) => Ok(()),
            Err(error) => Err(self.fault(error)),
        }
    }

    fn sync(&mut self) -> Result<(), DeviceStop> {
        match sync_all(self.rt, &mut self.file) {
            Ok(()) => Ok(()),
            Err(error) => Err(self.fault(error)),
        }
    }

    fn power_cut(&mut self) {}

    ghost sound = { λ s d told. absurd (none-some d told) };

    ghost faultless_tells = { λ s h. absurd h };

    ghost sure_is_faultless = { λ s h. h };

    ghost sure_tells = { λ s h. absurd h };
}

/// The file, which is opened where it was not before.
fn opened<'f, R: Files>(rt: &R, file: &'f mut Option<R::File>) -> io::Result<&'f mut R::File> {
    if file.is_none() {
        *file = Some(open(rt)?);
    }
    match file {
        Some(file) => Ok(file),
        None => Err(io::Error::from(ErrorKind::NotFound)),
    }
}

/// Opens the file, made if it is missing, so that all that is in it lasts, and it in its folder.
fn open<R: Files>(rt: &R) -> io::Result<R::File> {
    let file = OpenOptions::new()
        .read(true)
        .write(true)
        .create(true)
        .open(rt, FILE)?;
    file.sync_all()?;
    File::open(rt, ".")?.sync_all()?;
    Ok(file)
}

fn size_of<R: Files>(rt: &R, file: &mut Option<R::File>) -> io::Result<u64> {
    Ok(opened(rt, file)?.metadata()?.len())
}

fn read_from<R: Files>(
    rt: &R,
    file: &mut Option<R::File>,
    start: u64,
    into: &mut [u8],
) -> io::Result<()> {
    let file = opened(rt, file)?;
    file.seek(SeekFrom::Start(start))?;
    file.read_exact(into)
}

fn write_from<R: Files>(
    rt: &R,
    file: &mut Option<R::File>,
    start: u64,
    bytes: &[u8],
) -> io::Result<()> {
    let file = opened(rt, file)?;
    file.seek(SeekFrom::Start(start))?;
    file.write_all(bytes)
}

fn sync_all<R: Files>(rt: &R, file: &mut Option<R::File>) -> io::Result<()> {
    opened(rt, file)?.sync_all()
}
