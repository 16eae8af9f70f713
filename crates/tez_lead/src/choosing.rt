//! The next event of its own.
ghost use Rattle.std.specs.Prelude.{◌≡◌, Option};
ghost use Rattle.std.specs.Option.{option_map};
ghost use Rattle.tez_ids.specs.declared.AttemptId.{AttemptId};
ghost use Rattle.tez_events.specs.declared.CoreEvent.{CoreEvent};
ghost use Rattle.tez_master_model.specs.Choice.{first_queued, place_choice, running_choice, choice_in};
ghost use Rattle.tez_master_model.specs.Victim.{IsVictim};

use crate::parts::Lead;
use tez_events::CoreEvent;
use tez_ids::AttemptId;

impl Lead {
    /// The event that comes next by the master's own choice: the first kind of which one may come,
    /// and of that kind the first. Takes time in the places, the vertices and the edges of the plan
    /// and the attempts that hold places, and logarithmic time in its tasks.
    pub fn choice(&self) -> Option<CoreEvent>
        ensures { (victim : Option AttemptId) × IsVictim self.now victim × (result ≡ choice_in self.now victim) }
    {
        let victim = self.victim();
        if self.core.is_running() {
            self.running_choice(victim)
        } else if self.core.may_purge() {
            Some(CoreEvent::Purge)
        } else {
            None
        }
    }

    fn running_choice(&self, victim: Option<AttemptId>) -> Option<CoreEvent>
        ensures { result ≡ running_choice self.now victim }
    {
        if let Some(e) = self.core.work_choice() {
            return Some(e);
        }
        if let Some(e) = self.place_choice() {
            return Some(e);
        }
        match victim {
            Some(a) => Some(CoreEvent::Preempt(a)),
            None => self.core.end_choice(),
        }
    }

    fn place_choice(&self) -> Option<CoreEvent>
        ensures { result ≡ place_choice self.now }
    {
        match self.core.free_place() {
            Some(place) => self.place_at(place),
            None => None,
        }
    }

    fn place_at(&self, place: u32) -> Option<CoreEvent>
        ensures { result ≡ option_map (λ a. CoreEvent.Place a place) (first_queued self.now) }
    {
        match self.first_queued() {
            Some(a) => Some(CoreEvent::Place(a, place)),
            None => None,
        }
    }

    /// The queued attempt of least depth, and of these the first in the order of tasks.
    pub fn first_queued(&self) -> Option<AttemptId>
        ensures { result ≡ first_queued self.now }
    {
        match self.queue.first() {
            Some(t) => self.core.queued_of(t),
            None => None,
        }
    }

    // The attempt that gives way to it, where no place is free.
    fn victim(&self) -> Option<AttemptId>
        ensures { IsVictim self.now result }
    {
        if self.core.free_place().is_some() {
            return None;
        }
        match self.first_queued() {
            Some(a) => self.core.victim(self.core.depth_of(a.task.vertex)),
            None => None,
        }
    }
}
