//! The folder of outputs: paths, which take no memory, and files that are there whole or not at all.

use arrayvec::ArrayString;
use std::alloc::Global;
use std::fmt::Write as _;
use std::fs::{self, File, OpenFile};
use std::io::{self, ErrorKind, Read, Write};
use std::rt::Files;
use std::str;
use tez_ids::AttemptId;

pub(crate) const FOLDER: &str = "tez.out";

/// A file that is being written.
const PART: &str = "tez.out/.part";

/// The folder, a slash, and a name of at most 255 bytes.
pub(crate) type Path = ArrayString<263>;

fn too_long() -> io::Error {
    io::Error::from(ErrorKind::InvalidFilename)
}

/// Where a sink is published.
pub(crate) fn sink_path(name: &str) -> io::Result<Path> {
    let mut path = Path::new();
    match write!(path, "{FOLDER}/{name}") {
        Ok(()) => Ok(path),
        Err(_) => Err(too_long()),
    }
}

/// Where the bytes of a sink lie until it is published.
pub(crate) fn ready_path(number: u64) -> Path {
    let mut path = Path::new();
    // a number of 20 digits fits
    let _ = write!(path, "{FOLDER}/.ready.{number}");
    path
}

/// Where the output of an attempt lies.
pub(crate) fn stage_path(attempt: AttemptId) -> Path {
    let mut path = Path::new();
    let task = attempt.task;
    // four numbers of 20 digits fit
    let _ = write!(
        path,
        "{FOLDER}/.stage.{}.{}.{}.{}",
        attempt.epoch.0, task.vertex.0, task.index, attempt.number
    );
    path
}

/// The bytes of a file, but at most `limit` of them.
pub(crate) fn read_up_to<R: Files>(
    alloc: Global,
    rt: &R,
    path: &str,
    limit: u64,
) -> io::Result<Vec<u8>> {
    let mut bytes = Vec::new(alloc);
    File::open(rt, path)?.take(limit).read_to_end(&mut bytes)?;
    Ok(bytes)
}

/// Why a file was not put into the folder.
#[derive(Drop)]
pub(crate) enum PutFault {
    /// The file of its path is the one that was there.
    Unchanged(io::Error),
    /// It may be the new one, which may be lost at a crash of the machine.
    Changed(io::Error),
}

/// Makes a file of the folder with these bytes, in place of any of that path. It stands whole or not at
/// all, and what is in it lasts; that it is in the folder lasts after `sync_folder`.
pub(crate) fn put_file<R: Files>(rt: &R, path: &str, bytes: &[u8]) -> Result<(), PutFault> {
    match write_part(rt, bytes) {
        Ok(()) => {}
        Err(error) => return Err(PutFault::Unchanged(error)),
    }
    match fs::rename(rt, PART, path) {
        Ok(()) => Ok(()),
        Err(error) => Err(PutFault::Changed(error)),
    }
}

/// Makes the folder where it is missing, and makes it last, also where another process made it.
pub(crate) fn make_folder<R: Files>(rt: &R) -> io::Result<()> {
    match fs::create_dir(rt, FOLDER) {
        Ok(()) => {}
        Err(error) if error.kind() == ErrorKind::AlreadyExists => {}
        Err(error) => return Err(error),
    }
    File::open(rt, ".")?.sync_all()
}

fn write_part<R: Files>(rt: &R, bytes: &[u8]) -> io::Result<()> {
    let mut file = File::create(rt, PART)?;
    file.write_all(bytes)?;
    file.sync_all()
}

/// Makes last which files the folder has.
pub(crate) fn sync_folder<R: Files>(rt: &R) -> io::Result<()> {
    File::open(rt, FOLDER)?.sync_all()
}

/// Removes all staged and readied files, from earlier runs too. Takes no memory.
pub(crate) fn remove_own_files<R: Files>(rt: &R) -> io::Result<()> {
    let mut folder = match rt.open_dir("tez.out/") {
        Ok(folder) => folder,
        Err(error) if error.kind() == ErrorKind::NotFound => return Ok(()),
        Err(error) => return Err(error),
    };
    let mut names = [0u8; 4096];
    for _ in 0..u64::MAX {
        let len = folder.read(&mut names)?;
        if len == 0 {
            break;
        }
        for name in names[..len].split(|byte| *byte == 0) {
            remove_own_file(rt, name)?;
        }
    }
    Ok(())
}

/// Removes a file of the folder if its name begins as those of our own do.
fn remove_own_file<R: Files>(rt: &R, name: &[u8]) -> io::Result<()> {
    match str::from_utf8(name) {
        Ok(name) if is_own(name) => fs::remove_file(rt, sink_path(name)?.as_str()),
        _ => Ok(()),
    }
}

fn is_own(name: &str) -> bool {
    name.starts_with(".ready.") || name.starts_with(".stage.") || name == ".part"
}
