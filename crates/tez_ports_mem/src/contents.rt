//! What a store in memory holds.
ghost use Rattle.std.specs.Prelude.{◌≡◌, ◌+◌, ◌≤◌, [], OnOk, OnErr, IfOk, IsErrOf, is_some, option_map};
ghost use Rattle.tez_ports.specs.Content.{Store, bytes_of, readies, publishes, stages, purges, staged_at};

use crate::named::{self, find, take_out};
use crate::room::push_in_room;
use crate::staged;
use std::alloc::{AllocError, Global};
use std::marker::Model;
use tez_ids::{AttemptId, Bytes, Name};

/// Lists in the order of the calls. Each readied sink has its place among the publications reserved.
#[derive(Drop)]
pub(crate) struct Contents {
    alloc: Global,
    staged: Vec<(AttemptId, Bytes)>,
    readied: Vec<(Name, Bytes)>,
    publications: Vec<(Name, Bytes)>,
    stage_calls: Vec<(AttemptId, Bytes)>,
}

impl Model for Contents {
    ghost use Rattle.std.specs.Prelude.{◌+◌, ◌≤◌};
    ghost use Rattle.std.specs.Vec.{vec_len, vec_capacity};
    ghost use Rattle.tez_ports.specs.Content.{Store};

    ghost Value = { Store };

    ghost view = { λ c. record {
      staged = c.staged.items;
      readied = c.readied.items;
      publications = c.publications.items;
      stage_calls = c.stage_calls.items;
    } };

    ghost invariant = { λ c. vec_len c.publications + vec_len c.readied ≤ vec_capacity c.publications };
}

impl Contents {
    pub(crate) fn new(alloc: Global) -> Self
        ensures { result ≡ record { staged = []; readied = []; publications = []; stage_calls = [] } }
    {
        Contents {
            alloc,
            staged: Vec::new(alloc),
            readied: Vec::new(alloc),
            publications: Vec::new(alloc),
            stage_calls: Vec::new(alloc),
        }
    }

    pub(crate) fn publications(&self) -> &[(Name, Bytes)]
        ensures { result.now ≡ self.now.publications }
    {
        self.publications.as_slice()
    }

    pub(crate) fn ready(&mut self, name: &str, bytes: &[u8]) -> Result<(), AllocError>
        ensures ok { OnOk result (self.new ≡ readies name.now bytes.now self.old) }
        ensures err { OnErr result (self.new ≡ self.old) }
    {
        let entry = named::entry_of(self.alloc, name, bytes)?;
        self.readied.reserve(1)?;
        self.publications.reserve(self.readied.len() + 1)?;
        named::remove_all(&mut self.readied, name);
        push_in_room(&mut self.readied, entry);
        Ok(())
    }

    /// Whether the name was readied. Takes no memory.
    pub(crate) fn publish(&mut self, name: &str) -> bool
        ensures after { self.new ≡ publishes name.now self.old }
        ensures readied { result ≡ is_some (bytes_of name.now self.old.readied) }
    {
        match take_out(&mut self.readied, name) {
            Some(entry) => {
                push_in_room(&mut self.publications, entry);
                true
            }
            None => false,
        }
    }

    pub(crate) fn is_published(&self, name: &str) -> bool
        ensures { result ≡ is_some (bytes_of name.now self.now.publications) }
    {
        find(&self.publications, name).is_some()
    }

    pub(crate) fn stage(&mut self, attempt: AttemptId, bytes: &[u8]) -> Result<(), AllocError>
        ensures ok { OnOk result (self.new ≡ stages attempt bytes.now self.old) }
        ensures err { OnErr result (self.new ≡ self.old) }
    {
        let entry = staged::entry_of(self.alloc, attempt, bytes)?;
        let call = staged::entry_of(self.alloc, attempt, bytes)?;
        self.staged.reserve(1)?;
        self.stage_calls.push(call)?;
        staged::remove_all(&mut self.staged, attempt);
        push_in_room(&mut self.staged, entry);
        Ok(())
    }

    /// The staged bytes of an attempt, if it is staged.
    pub(crate) fn staged(&self, attempt: AttemptId) -> Option<&[u8]>
        ensures { option_map (λ b. b.now) result ≡ staged_at attempt self.now.staged }
    {
        staged::find(&self.staged, attempt)
    }

    /// Takes no memory.
    pub(crate) fn purge(&mut self)
        ensures { self.new ≡ purges self.old }
    {
        self.staged.clear();
        self.readied.clear();
    }
}
