//! A place: who holds it, and the number of its container.
ghost use Rattle.std.specs.Prelude.{◌≡◌, cond, None};
ghost use Rattle.tez_pool.specs.Table.{free, is_free, is_taken, clear_place, holds, taken, send_place, freed_place, is_sent, is_within, who};

use tez_ids::{AttemptId, ContainerId};

/// Who holds a place, and whether its order went out.
#[derive(Clone, Copy)]
pub struct Held {
    pub attempt: AttemptId,
    pub sent: bool,
}

/// A place with the number of its container.
#[derive(Clone, Copy)]
pub struct Place {
    pub holder: Option<Held>,
    pub container: ContainerId,
}

impl Place {
    /// A free place whose container has this number.
    pub(crate) fn free(container: u128) -> Place
        ensures { result ≡ free container }
    {
        Place {
            holder: None,
            container: ContainerId(container),
        }
    }

    pub(crate) fn is_free(&self) -> bool
        ensures { result ≡ is_free self.now }
    {
        self.holder.is_none()
    }

    pub(crate) fn is_held_by(&self, attempt: AttemptId) -> bool
        ensures { result ≡ holds attempt self.now }
    {
        match self.holder {
            Some(held) => attempt == held.attempt,
            None => false,
        }
    }

    pub(crate) fn who(&self) -> Option<AttemptId>
        ensures { result ≡ who self.now }
    {
        match self.holder {
            Some(held) => Some(held.attempt),
            None => None,
        }
    }

    pub(crate) fn is_sent(&self) -> bool
        ensures { result ≡ is_sent self.now }
    {
        match self.holder {
            Some(held) => held.sent,
            None => false,
        }
    }

    /// The place with a new holder, which waits.
    pub(crate) fn taken(self, attempt: AttemptId) -> Place
        ensures { result ≡ taken attempt self }
    {
        Place {
            holder: Some(Held {
                attempt,
                sent: false,
            }),
            container: self.container,
        }
    }

    /// The place once the order of this attempt went out.
    pub(crate) fn sent(self, attempt: AttemptId) -> Place
        ensures { result ≡ send_place attempt self }
    {
        let holder = match self.holder {
            Some(held) if attempt == held.attempt => Some(Held {
                attempt: held.attempt,
                sent: true,
            }),
            other => other,
        };
        Place {
            holder,
            container: self.container,
        }
    }

    /// The place once its holder left it.
    pub(crate) fn freed(self, reuse: bool, next: u128) -> Place
        ensures { result ≡ freed_place reuse next self }
    {
        if reuse {
            Place {
                holder: None,
                container: self.container,
            }
        } else {
            Place::free(next)
        }
    }

    /// How many attempts hold the place: one or none.
    pub(crate) fn holders(&self) -> u128
        ensures { result ≡ cond (is_taken self.now) 1 0 }
    {
        if self.holder.is_some() { 1 } else { 0 }
    }

    /// The place once its holder left, where there is one.
    pub(crate) fn cleared(self, reuse: bool, next: u128) -> Place
        ensures { result ≡ clear_place reuse next self }
    {
        if self.holder.is_some() {
            self.freed(reuse, next)
        } else {
            self
        }
    }

    /// Whether the vertex of its holder, if it has one, is one of so many.
    pub(crate) fn is_within(&self, vertices: usize) -> bool
        ensures { result ≡ is_within vertices self.now }
    {
        match self.holder {
            Some(held) => (held.attempt.task.vertex.0 as usize) < vertices,
            None => true,
        }
    }
}
