// The queue of all reports, and what the dispatcher's pass and each container's pass know of it.
use crossbeam_queue::protocol::{Join, Lesson, Outcome, Protocol, Split};
use crossbeam_queue::{Pass, RuledArrayQueue};
use std::collections::LinkedList;
use tez_ids::AttemptId;
use tez_orders::Report;

/// What a pass may do, and what it knows: a container its place and what it reported; the dispatcher
/// what it got, how many containers it made, and what those that it joined, in order of place, had
/// reported in all. No value of it is made.
pub struct EventView {
    pub reports: bool,
    pub gets: bool,
    pub place: u32,
    pub reported: LinkedList<AttemptId>,
    pub got: LinkedList<Report>,
    pub made: u32,
    pub known: LinkedList<LinkedList<AttemptId>>,
}

pub struct EventRule;

impl Protocol<Report, EventView> for EventRule {
    ghost use Rattle.std.specs.Prelude.{[]};
    ghost use Rattle.tez_crew.specs.Events.{getter, EventsFit};

    ghost holds = { EventsFit };

    ghost first = { getter [] 0 [] };
}

/// A new container.
pub struct SplitReporter;

impl Split<EventView> for SplitReporter {
    ghost use Rattle.std.specs.Prelude.{◌+◌, []};
    ghost use Rattle.tez_crew.specs.Events.{getter, reporter};

    ghost left = { λ v. getter v.got (v.made + 1) v.known };

    ghost right = { λ v. reporter v.made [] };
}

/// A container that ended hands over what it reported.
pub struct JoinReporter;

impl Join<EventView> for JoinReporter {
    ghost use Rattle.std.specs.Prelude.{◌++◌, ◌∷◌, []};
    ghost use Rattle.tez_crew.specs.Events.{getter, spent_view};

    ghost both = { λ v w. getter v.got v.made (v.known ++ w.reported ∷ []) };

    ghost spent = { spent_view };
}

pub struct PushReport;

impl Outcome<Report, EventView> for PushReport {
    ghost use Rattle.std.specs.Prelude.{◌≡◌, ◌++◌, ◌∷◌, []};
    ghost use Rattle.tez_crew.specs.Events.{reporter};

    ghost then = { λ v x w. w ≡ reporter v.place (v.reported ++ x.order.attempt ∷ []) };
}

pub struct PopReport;

impl Outcome<Report, EventView> for PopReport {
    ghost use Rattle.std.specs.Prelude.{◌≡◌, ◌++◌, ◌∷◌, []};
    ghost use Rattle.tez_crew.specs.Events.{getter};

    ghost then = { λ v x w. w ≡ getter (v.got ++ x ∷ []) v.made v.known };
}

impl Lesson<Report, EventView> for PopReport {
    ghost use Rattle.tez_crew.specs.Events.{KnowsAll};

    ghost fact = { λ v items. KnowsAll v items };
}

pub type EventQueue = RuledArrayQueue<Report, EventView, EventRule>;

pub type EventPass = Pass<Report, EventView>;
