//! Events that ready no sink, start no commit and purge nothing keep what holds of the parts, where
//! seats and shelves are what the longer history says.
ghost use Rattle.std.specs.Prelude.{◌≡◌, ◌<◌, List, length, true};
ghost use Rattle.tez_ids.specs.declared.AttemptId.{AttemptId};
ghost use Rattle.tez_ids.specs.declared.NodeId.{NodeId};
ghost use Rattle.tez_conf.specs.declared.values.ConfValues.{ConfValues};
ghost use Rattle.tez_events.specs.declared.CoreEvent.{CoreEvent};
ghost use Rattle.tez_meaning.specs.Jobs.{Job};
ghost use Rattle.tez_history.specs.History.{Past};
ghost use Rattle.tez_laws.specs.Laws.{SpendsNot};
ghost use Rattle.tez_master_model.specs.Enabled.{enabled_in};
ghost use Rattle.tez_inflight.specs.Seats.{Seat};
ghost use Rattle.tez_work_view.specs.Holdings.{Pieces, seats_view, IsShelved};
ghost use Rattle.tez_work_view.specs.Events.{KeepsSeats, KeepsShelves};
ghost use Rattle.tez_world_invariant.specs.Keeping.{Parts, Holds, most_entries};
ghost use Rattle.tez_world_invariant.specs.Step.{IsPlain, later, stepped};

/// Whatever the seats and shelves are after the event, if they are what the longer history says.
pub fn event_keeps()
    ensures { (job : Job) (c : ConfValues) (ps : Parts) (past : Past) (e : CoreEvent) (seats : List Seat) (shelves : List (AttemptId × (NodeId × Pieces))) → IsPlain e → Holds job c ps past → enabled_in ps.master e ≡ true → SpendsNot c past e → length (later job c past e) < most_entries → seats ≡ seats_view job c (later job c past e) → IsShelved job c (later job c past e) shelves → Holds job c (stepped ps e seats shelves) (later job c past e) }
{}

/// A configuration, a queued attempt, a publication and the end concern no seat and no shelf.
pub fn quiet_event_keeps()
    ensures { (job : Job) (c : ConfValues) (ps : Parts) (past : Past) (e : CoreEvent) → IsPlain e → KeepsSeats e
        → KeepsShelves e → Holds job c ps past → enabled_in ps.master e ≡ true
        → length (later job c past e) < most_entries
        → Holds job c (stepped ps e ps.seats ps.shelves) (later job c past e) }
{}
