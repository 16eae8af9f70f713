//! The machine of an attempt: how far it has come.
#![tactic(auto)]

ghost use Rattle.std.specs.Prelude.{◌≡◌};
ghost use Rattle.tez_attempt.specs.Table.{attempt_after, attempt_took};

use std::marker::Model;

/// How far an attempt has come.
#[derive(Clone, Copy, Debug, PartialEq, Eq)]
pub enum AttemptState {
    /// It waits for a place.
    Queued,
    /// It holds a place and fetches its inputs.
    Placed,
    /// Its order went out.
    Processing,
    Succeeded,
    Failed,
    Killed,
}

/// What may happen to an attempt.
#[derive(Clone, Copy, Debug, PartialEq, Eq)]
pub enum AttemptEvent {
    Place,
    Send,
    Succeed,
    Fail,
    Kill,
}

/// What an event did to an attempt.
#[derive(Clone, Copy, Debug, PartialEq, Eq)]
pub enum AttemptTook {
    Moved,
    /// The event did not fit, and nothing changed.
    Ignored,
}

/// An attempt. Contracts see its state.
#[derive(Clone, Copy)]
pub struct AttemptMachine {
    state: AttemptState,
}

impl Model for AttemptMachine {
    ghost use Rattle.tez_attempt.specs.declared.AttemptState.{AttemptState};

    ghost Value = { AttemptState };

    ghost view = { λ m. m.state };

    ghost inverse = { λ s. record { state = s } };
}

impl AttemptMachine {
    /// An attempt that is queued.
    pub fn new() -> AttemptMachine
        ensures { result ≡ AttemptState.Queued }
    {
        AttemptMachine {
            state: AttemptState::Queued,
        }
    }

    pub fn state(&self) -> AttemptState
        ensures { result ≡ self.now }
    {
        self.state
    }

    /// Takes an event. What does not fit is ignored, and changes nothing.
    pub fn take(&mut self, e: AttemptEvent) -> AttemptTook
        ensures after { self.new ≡ attempt_after self.old e }
        ensures took { result ≡ attempt_took self.old e }
    {
        let next = match (self.state, e) {
            (AttemptState::Queued, AttemptEvent::Place) => AttemptState::Placed,
            (AttemptState::Placed, AttemptEvent::Send) => AttemptState::Processing,
            (AttemptState::Processing, AttemptEvent::Succeed) => AttemptState::Succeeded,
            (AttemptState::Processing, AttemptEvent::Fail) => AttemptState::Failed,
            (AttemptState::Queued, AttemptEvent::Kill) => AttemptState::Killed,
            (AttemptState::Placed, AttemptEvent::Kill) => AttemptState::Killed,
            (AttemptState::Processing, AttemptEvent::Kill) => AttemptState::Killed,
            _ => return AttemptTook::Ignored,
        };
        self.state = next;
        AttemptTook::Moved
    }
}
