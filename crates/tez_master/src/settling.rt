//! Answers are put into effect.
ghost use Rattle.std.specs.Prelude.{◌≡◌, true, IsSome, None, Some};
ghost use Rattle.tez_master_model.specs.Enabled.{enabled_in};
ghost use Rattle.tez_master_model.specs.Settled.{settled};
ghost use Rattle.tez_master_model.specs.Steady.{IsSteady};
ghost use Rattle.tez_master.specs.Master.{Step, settled_by, step_of, IsUnprepared, IsReadyFor, HasNumbers};

use crate::master::Master;
use crate::pending::Pending;
use tez_events::CoreEvent;
use tez_lead::Lead;

impl Master {
    /// Puts the last answer into effect. Takes no memory.
    pub fn settle(&mut self)
        requires pending { IsSome self.old.pending }
        requires numbers { HasNumbers self.old.state }
        requires steady { IsSteady self.old.state }
        ensures state { (s : Step) → self.old.pending ≡ Some s → self.new.state ≡ settled_by self.old.state s }
        ensures settled { self.new.pending ≡ None }
    {
        if let Some(x) = self.pending.take() {
            take_effect(&mut self.lead, x);
        }
    }
}

#[tactic(auto, using(crate::proofs::Rooms::room_in, crate::proofs::Rooms::containers_left, crate::proofs::Rooms::queued_for, crate::proofs::Commit::asked_next))]
fn take_effect(lead: &mut Lead, x: Pending)
    requires ready { IsReadyFor lead.old x }
    requires numbers { HasNumbers lead.old }
    requires steady { IsSteady lead.old }
    ensures { lead.new ≡ settled_by lead.old (step_of x) }
{
    match x {
        Pending::Event(e) => take_event(lead, e),
        Pending::Configure(v, tasks) => lead.configure_prepared(v, tasks),
        Pending::Place(a, place, room) => lead.place_prepared(a, place, room),
        Pending::Report(a, made) => lead.done(a, made.as_slice()),
        Pending::Asked(v, there) => lead.asked(v, there),
    }
}

#[tactic(auto, using(crate::proofs::Rooms::room_in, crate::proofs::Rooms::room_behind, crate::proofs::Rooms::life_in, crate::proofs::Rooms::slot_there, crate::proofs::Rooms::containers_left, crate::proofs::Commit::published_next))]
fn take_event(lead: &mut Lead, e: CoreEvent)
    requires enabled { enabled_in lead.old e ≡ true }
    requires unprepared { IsUnprepared e }
    requires numbers { HasNumbers lead.old }
    ensures { lead.new ≡ settled lead.old e }
{
    match e {
        CoreEvent::Queue(t) => lead.queue(t),
        CoreEvent::Fetch(a, e, input) => lead.fetch(a, e, input),
        CoreEvent::Send(a) => lead.send(a),
        CoreEvent::Preempt(a) => lead.preempt(a),
        CoreEvent::Fail(a) => lead.fail(a),
        CoreEvent::LoseNode(slot) => lead.lose_node(slot),
        CoreEvent::LoseOutput(t) => lead.lose_output(t),
        CoreEvent::Ready(v) => lead.ready(v),
        CoreEvent::CommitStart => lead.start_commit(),
        CoreEvent::Publish(v) => lead.publish(v),
        CoreEvent::Finish => lead.finish(),
        CoreEvent::Purge => lead.purge(),
        CoreEvent::Open => {}
        CoreEvent::Restart => {}
        CoreEvent::Ask(_) => {}
        CoreEvent::Configure(_) => {}
        CoreEvent::Place(_, _) => {}
    }
}
