//! The log.
ghost use Rattle.std.specs.Prelude.{◌≡◌, ◌+◌, ◌<◌, ◌≤◌, [], ◌∷◌, ◌++◌, length, reverse, OnOk, OnErr};
ghost use Rattle.tez_history.specs.History.{extend};

use std::alloc::{AllocError, Global};
use std::marker::Model;
use tez_events::{Entry, JournalRecord, Trace};

/// The trace of a run, and the records that it appended to its journal. Contracts see the trace as
/// a history, its latest entry first, and the room for more of both.
#[derive(Drop)]
pub struct Log {
    trace: Trace,
    records: Vec<JournalRecord>,
}

impl Model for Log {
    ghost use Rattle.std.specs.Prelude.{◌-◌, reverse, vec_len, vec_capacity};
    ghost use Rattle.tez_log.specs.Log.{LogState};

    ghost Value = { LogState };

    ghost view = { λ l. record { past = reverse l.trace.entries; records = l.records.items; entry_room = l.trace.spare; record_room = vec_capacity l.records - vec_len l.records } };
}

impl Log {
    /// The empty log. Takes no memory.
    pub fn new(alloc: Global) -> Log
        ensures past { result.past ≡ [] }
        ensures records { result.records ≡ [] }
    {
        Log {
            trace: Trace::new(alloc),
            records: Vec::new(alloc),
        }
    }

    /// Makes room for that many entries and records more.
    pub fn reserve(&mut self, entries: usize, records: usize) -> Result<(), AllocError>
        ensures past { self.new.past ≡ self.old.past }
        ensures records { self.new.records ≡ self.old.records }
        ensures entry_room { OnOk result (entries ≤ self.new.entry_room) }
        ensures record_room { OnOk result (records ≤ self.new.record_room) }
    {
        self.trace.reserve(entries as u64)?;
        self.records.reserve(records)
    }

    /// Adds an entry. Takes no memory.
    pub fn write(&mut self, e: Entry)
        requires { 0 < self.old.entry_room }
        ensures past { self.new.past ≡ e ∷ self.old.past }
        ensures records { self.new.records ≡ self.old.records }
        ensures entry_room { self.old.entry_room ≤ self.new.entry_room + 1 }
        ensures record_room { self.new.record_room ≡ self.old.record_room }
    {
        self.trace.push(e);
    }

    /// Adds entries in order of time. Takes no memory.
    pub fn write_all(&mut self, entries: &[Entry])
        requires { length entries.now ≤ self.old.entry_room }
        ensures past { self.new.past ≡ extend self.old.past entries.now }
        ensures records { self.new.records ≡ self.old.records }
        ensures record_room { self.new.record_room ≡ self.old.record_room }
    {
        for e in entries {
            self.write(*e);
        }
    }

    /// Adds a record. Takes no memory.
    pub fn note(&mut self, r: JournalRecord)
        requires { 0 < self.old.record_room }
        ensures past { self.new.past ≡ self.old.past }
        ensures records { self.new.records ≡ self.old.records ++ r ∷ [] }
        ensures entry_room { self.new.entry_room ≡ self.old.entry_room }
        ensures record_room { self.old.record_room ≤ self.new.record_room + 1 }
    {
        self.records.push_reserved(r);
    }

    /// Adds records in order. Takes no memory.
    pub fn note_all(&mut self, records: Vec<JournalRecord>)
        requires { length records.items ≤ self.old.record_room }
        ensures past { self.new.past ≡ self.old.past }
        ensures records { self.new.records ≡ self.old.records ++ records.items }
        ensures entry_room { self.new.entry_room ≡ self.old.entry_room }
    {
        for r in records {
            self.note(r);
        }
    }

    pub fn trace(&self) -> &Trace
        ensures { reverse result.now.entries ≡ self.now.past }
    {
        &self.trace
    }

    pub fn records(&self) -> &[JournalRecord]
        ensures { result.now ≡ self.now.records }
    {
        self.records.as_slice()
    }

    /// How many entries there are.
    pub fn len(&self) -> usize
        ensures { result ≡ length self.now.past }
    {
        self.trace.entries().len()
    }

    pub fn into_trace(self) -> Trace
        ensures { reverse result.entries ≡ self.past }
    {
        self.trace
    }
}
