//! A device that is lent to the program in a wrapper comes back to its lender, who knows what the call
//! left in it.
ghost use Rattle.std.specs.Prelude.{◌≡◌, map, string_bytes};
ghost use Rattle.tez_am.specs.Call.{reads_of, stored_of, writes_of};
ghost use Rattle.tez_am.specs.Cause.{Leaves};

use std::alloc::Global;
use std::test::Fail;
use tez_am::{Status, am_run, exit_code};
use tez_events::Trace;
use tez_ids::{AttemptId, Bytes, Name};
use tez_ports::{DeviceStop, InputFiles, OutputStore, StoreFault, TextOut};
use tez_ports_mem::{MemFiles, MemOut, MemStore, OpenGate, Picker, SureDisk};

const ONE: &str =
    "{\"name\":\"one\",\"vertices\":[{\"name\":\"only\",\"tasks\":1,\"source\":\"in.txt\",\"head\":{\"op\":\"each\"},\"sink\":\"kept\"}]}";

/// A store around another, that counts the texts that are put aside.
struct Counted<S> {
    inner: S,
    readied: u64,
}

impl<S: OutputStore> OutputStore for Counted<S> {
    ghost store = { λ s. S.store s.inner };

    ghost faults = { λ s. S.faults s.inner };

    ghost stops = { λ s. S.stops s.inner };

    ghost lent = { λ s. S.lent s.inner };

    ghost is_faultless = { λ s. S.is_faultless s.inner };

    ghost is_sure = { λ s. S.is_sure s.inner };

    fn ready(&mut self, name: &str, bytes: &[u8]) -> Result<(), StoreFault> {
        self.readied = self.readied.wrapping_add(1);
        self.inner.ready(name, bytes)
    }

    fn publish(&mut self, name: &str) -> Result<(), DeviceStop> {
        self.inner.publish(name)
    }

    fn is_published(&mut self, name: &str) -> Result<bool, DeviceStop> {
        self.inner.is_published(name)
    }

    fn stage(&mut self, attempt: AttemptId, bytes: &[u8]) -> Result<(), StoreFault> {
        self.inner.stage(attempt, bytes)
    }

    fn load(&mut self, alloc: Global, attempt: AttemptId) -> Result<Vec<u8>, StoreFault> {
        self.inner.load(alloc, attempt)
    }

    fn purge(&mut self) -> Result<(), DeviceStop> {
        self.inner.purge()
    }

    ghost faultless_tells = { λ s h. S.faultless_tells s.inner h };

    ghost sure_is_faultless = { λ s h. S.sure_is_faultless s.inner h };

    ghost sure_tells = { λ s h. S.sure_tells s.inner h };
}

/// A run over a store that is lent in a wrapper: the reference that comes back is the one that was lent,
/// and what it leads to is what the call left.
fn run_back<'a, F: InputFiles, S: OutputStore, O: TextOut>(
    alloc: Global,
    words: &[String],
    files: &mut F,
    store: &'a mut S,
    out: &mut O,
) -> (Status, u64, &'a mut S)
    ensures name { result.2.ghost_name ≡ store.entry.ghost_name }
    ensures leaves { Leaves (record {
      words = map string_bytes words.now;
      reads = reads_of F.files F.faults F.failed files.old files.new;
      store = stored_of S.store S.faults S.stops store.old result.2.now;
      out = writes_of O.written O.faults out.old out.new;
    }) result.0 }
{
    let mut counted = Counted {
        inner: store,
        readied: 0,
    };
    let mut disk = SureDisk::new(Vec::new(alloc), Picker::Keep, alloc);
    let mut trace = Trace::new(alloc);
    let status = am_run(
        alloc,
        words,
        files,
        &mut counted,
        &mut disk,
        out,
        &OpenGate {},
        &mut trace,
    );
    let Counted { inner, readied } = counted;
    (status, readied, inner)
}

/// What the run left in the wrapper is in the lender's store.
fn run_lent<F: InputFiles, S: OutputStore, O: TextOut>(
    alloc: Global,
    words: &[String],
    files: &mut F,
    store: &mut S,
    out: &mut O,
) -> (Status, u64)
    ensures leaves { Leaves (record {
      words = map string_bytes words.now;
      reads = reads_of F.files F.faults F.failed files.old files.new;
      store = stored_of S.store S.faults S.stops store.old store.new;
      out = writes_of O.written O.faults out.old out.new;
    }) result.0 }
{
    let (status, readied, _back) = run_back(alloc, words, files, store, out);
    (status, readied)
}

#[test]
fn a_store_in_a_wrapper(rt: HostRuntime) -> Result<(), Fail> {
    let alloc = rt.alloc();
    let mut entries = Vec::new(alloc);
    for (name, text) in [("one.json", ONE), ("in.txt", "b\na\n")] {
        entries.push((
            Name::copy_of(alloc, name)?,
            Bytes::new(text.as_bytes().to_vec(alloc)?),
        ))?;
    }
    let mut files = MemFiles::new(entries, [0].to_vec(alloc)?, alloc);
    let mut store = MemStore::new([0].to_vec(alloc)?, [0].to_vec(alloc)?, alloc);
    let mut out = MemOut::new([0].to_vec(alloc)?, alloc);
    let mut words = Vec::new(alloc);
    for word in ["run", "one.json"] {
        words.push(String::from_str(alloc, word)?)?;
    }
    let (status, readied) = run_lent(alloc, &words, &mut files, &mut store, &mut out);
    assert_eq!(rt; exit_code(&status), 0);
    assert_eq!(rt; readied, 1);
    assert_eq!(rt; store.publications().len(), 1);
    Ok(())
}
