//! The folder of outputs as a store.
ghost use Rattle.std.specs.Prelude.{◌≡◌, ◌≤◌, ◌<◌, ◌⊎◌, ℕ, None, IfSome};
ghost use Rattle.std.specs.Vec.{vec_len};
ghost use Rattle.tez_ports.specs.Causes.{Rose};

use crate::folder::{
    FOLDER, PutFault, make_folder, put_file, read_up_to, ready_path, remove_own_files, sink_path,
    stage_path, sync_folder,
};
use crate::report::report;
use std::alloc::Global;
use std::fs;
use std::io::{self, ErrorKind};
use std::rt::Files;
use tez_ids::{AttemptId, Name};
use tez_ports::{DeviceStop, OutputStore, StoreFault};

/// A sink whose bytes lie in a file of its own, by the file's number.
#[derive(Drop)]
struct Readied {
    name: Name,
    number: u64,
}

/// The folder `tez.out` of the working folder, which is made at the first call that writes. A sink is a
/// file of its name. Staged and readied bytes are in files whose short names begin with a dot.
/// `stage` and `publish` answer Ok once the disk has what they wrote, and it outlives the process. What
/// `ready` puts aside need not last, and is forgotten with the process. A purge that fails may have
/// removed some of the files. The time of a call grows with the number of sinks that are readied.
#[derive(Drop)]
pub struct FolderStore<'r, R: Files + Eprint> {
    alloc: Global,
    rt: &'r R,
    readied: Vec<Readied>,
    next: u64,
    is_made: bool,
    faults: u64,
}

impl<'r, R: Files + Eprint> FolderStore<'r, R> {
    pub fn new(alloc: Global, rt: &'r R) -> Self
        ensures { result.faults ≡ 0 }
    {
        FolderStore {
            alloc,
            rt,
            readied: Vec::new(alloc),
            next: 0,
            is_made: false,
            faults: 0,
        }
    }

    /// Counts a fault, which is told to the user.
    fn fault(&mut self, path: &str, error: &io::Error)
        ensures rose { Rose self.old.faults self.new.faults }
        ensures later { self.old.faults ≤ self.new.faults }
    {
        report(self.rt, path, error);
        self.faults = self.faults.saturating_add(1);
    }

    /// The answer to an error at a sink.
    fn sink_fault(&mut self, name: &str, error: &io::Error) -> DeviceStop
        ensures failed { result ≡ DeviceStop.Failed }
        ensures rose { Rose self.old.faults self.new.faults }
        ensures later { self.old.faults ≤ self.new.faults }
    {
        match sink_path(name) {
            Ok(path) => self.fault(path.as_str(), error),
            Err(_) => self.fault(name, error),
        }
        DeviceStop::Failed
    }

    /// The answer to an error, which counts a fault but where memory was missing and nothing changed.
    fn fault_of(&mut self, path: &str, fault: PutFault) -> StoreFault
        ensures rose { result ≡ StoreFault.Failed → Rose self.old.faults self.new.faults }
        ensures steady { (result ≡ StoreFault.Failed) ⊎ (self.new.faults ≡ self.old.faults) }
        ensures later { self.old.faults ≤ self.new.faults }
        ensures never_stops { result ≡ StoreFault.Stopped → ⊥ }
    {
        let error = match fault {
            PutFault::Unchanged(error) => {
                if error.kind() == ErrorKind::OutOfMemory {
                    return StoreFault::NoMemory;
                }
                error
            }
            PutFault::Changed(error) => error,
        };
        self.fault(path, &error);
        StoreFault::Failed
    }

    fn place_of(&self, name: &str) -> Option<usize>
        ensures { IfSome result (λ place. place < vec_len self.now.readied) }
    {
        self.readied
            .iter()
            .position(|readied| readied.name.as_str() == name)
    }

    /// Puts a file into the folder, which is made before the first one.
    fn put(&mut self, path: &str, bytes: &[u8]) -> Result<(), PutFault>
        ensures { self.new.faults ≡ self.old.faults }
    {
        if !self.is_made {
            match make_folder(self.rt) {
                Ok(()) => self.is_made = true,
                Err(error) => return Err(PutFault::Unchanged(error)),
            }
        }
        put_file(self.rt, path, bytes)
    }

    /// The same, so that the file lasts.
    fn put_to_last(&mut self, path: &str, bytes: &[u8]) -> Result<(), PutFault>
        ensures { self.new.faults ≡ self.old.faults }
    {
        match self.put(path, bytes) {
            Ok(()) => {}
            Err(fault) => return Err(fault),
        }
        match sync_folder(self.rt) {
            Ok(()) => Ok(()),
            Err(error) => Err(PutFault::Changed(error)),
        }
    }

    /// Lets go of what was readied for a name before.
    fn forget(&mut self, name: &str)
        ensures { self.new.faults ≡ self.old.faults }
    {
        if let Some(place) = self.place_of(name) {
            let readied = self.readied.remove(place);
            // where this fails the file stays until the purge
            let _ = fs::remove_file(self.rt, ready_path(readied.number).as_str());
        }
    }

    /// Moves the file of a readied sink to the sink's name. Takes no memory.
    fn move_readied(&mut self, name: &str) -> io::Result<()>
        ensures { self.new.faults ≡ self.old.faults }
    {
        let Some(place) = self.place_of(name) else {
            return Err(io::Error::from(ErrorKind::NotFound));
        };
        let from = ready_path(self.readied[place].number);
        fs::rename(self.rt, from.as_str(), sink_path(name)?.as_str())?;
        self.readied.remove(place);
        sync_folder(self.rt)
    }
}

impl<R: Files + Eprint> OutputStore for FolderStore<'_, R> {
    ghost store = { λ _. None };

    ghost faults = { λ s. s.faults };

    ghost stops = { λ _. 0 };

    ghost lent = { λ _. 0 };

    ghost is_faultless = { λ _. ⊥ };

    ghost is_sure = { λ _. ⊥ };

    fn ready(&mut self, name: &str, bytes: &[u8]) -> Result<(), StoreFault> {
        let Ok(copy) = Name::copy_of(self.alloc, name) else {
            return Err(StoreFault::NoMemory);
        };
        if self.readied.reserve(1).is_err() {
            return Err(StoreFault::NoMemory);
        }
        let number = self.next;
        let path = ready_path(number);
        match self.put(path.as_str(), bytes) {
            Ok(()) => {
                self.next = number.saturating_add(1);
                self.forget(name);
                let _ = self.readied.push(Readied { name: copy, number });
                Ok(())
            }
            Err(fault) => Err(self.fault_of(path.as_str(), fault)),
        }
    }

    fn publish(&mut self, name: &str) -> Result<(), DeviceStop> {
        match self.move_readied(name) {
            Ok(()) => Ok(()),
            Err(error) => Err(self.sink_fault(name, &error)),
        }
    }

    fn is_published(&mut self, name: &str) -> Result<bool, DeviceStop> {
        match is_there(self.rt, name) {
            Ok(there) => Ok(there),
            Err(error) => Err(self.sink_fault(name, &error)),
        }
    }

    fn stage(&mut self, attempt: AttemptId, bytes: &[u8]) -> Result<(), StoreFault> {
        let path = stage_path(attempt);
        match self.put_to_last(path.as_str(), bytes) {
            Ok(()) => Ok(()),
            Err(fault) => Err(self.fault_of(path.as_str(), fault)),
        }
    }

    fn load(&mut self, alloc: Global, attempt: AttemptId) -> Result<Vec<u8>, StoreFault> {
        let path = stage_path(attempt);
        match read_up_to(alloc, self.rt, path.as_str(), u64::MAX) {
            Ok(bytes) => Ok(bytes),
            Err(error) => Err(self.fault_of(path.as_str(), PutFault::Unchanged(error))),
        }
    }

    fn purge(&mut self) -> Result<(), DeviceStop> {
        self.readied.clear();
        match remove_own_files(self.rt) {
            Ok(()) => Ok(()),
            Err(error) => {
                self.fault(FOLDER, &error);
                Err(DeviceStop::Failed)
            }
        }
    }

    ghost faultless_tells = { λ s h. absurd h };

    ghost sure_is_faultless = { λ s h. h };

    ghost sure_tells = { λ s h. absurd h };
}

fn is_there<R: Files>(rt: &R, name: &str) -> io::Result<bool> {
    fs::exists(rt, sink_path(name)?.as_str())
}
