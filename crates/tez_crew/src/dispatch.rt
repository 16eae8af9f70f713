// Who uses a crew, turn by turn.
ghost use Rattle.std.specs.Prelude.{◌≡◌, ◌↔◌, ℕ, List};
ghost use Rattle.tez_crew.specs.Lists.{Gains};
ghost use Rattle.tez_crew.specs.Desks.{places, put_at, got_at, own_of};
ghost use Rattle.tez_ids.specs.declared.AttemptId.{AttemptId};

use crate::desk::Desk;
use std::sync::Wait;
use tez_ports::Gate;

/// Whether a dispatcher wants more turns.
#[derive(Clone, Copy, PartialEq, Eq)]
pub enum Turn {
    More,
    Done,
}

/// Who gives orders to a crew. Contracts see which attempts it put, got and worked itself, in three
/// lists that grow with what its desk gives. What a run is to leave unchanged is said by `kept`.
pub trait Dispatch {
    /// For each place, the attempts for which `put_order` answered Queued.
    ghost queued: { Self → ℕ → List AttemptId };

    /// For each place, the attempts whose reports `take_report` gave.
    ghost got: { Self → ℕ → List AttemptId };

    /// The attempts for which `put_order` answered Own.
    ghost owned: { Self → List AttemptId };

    /// That no more turn is wanted.
    ghost finished: { Self → Type 0 };

    /// What stays as it was, between the value before and the value after.
    ghost kept: { Self → Self → Type 0 };

    /// One turn. The desk is there for this turn alone.
    fn turn<G: Gate, R: Wait>(&mut self, desk: &mut Desk<'_, G, R>) -> Turn
        ensures queued { (p : ℕ) → Gains (queued self.old p) (queued self.new p) (put_at desk.old p) (put_at desk.new p) }
        ensures got { (p : ℕ) → Gains (got self.old p) (got self.new p) (got_at desk.old p) (got_at desk.new p) }
        ensures owned { Gains (owned self.old) (owned self.new) (own_of desk.old) (own_of desk.new) }
        ensures done { result ≡ Turn.Done ↔ finished self.new }
        ensures kept { kept self.old self.new }
        ensures places { places desk.new ≡ places desk.old };

    ghost keeps_itself: { (s : Self) → kept s s };

    ghost keeps_on: { (a b c : Self) → kept a b → kept b c → kept a c };
}

/// Turns until it is done.
pub(crate) fn run_turns<G: Gate, H: Dispatch, R: Wait>(rt: &R, h: &mut H, desk: &mut Desk<'_, G, R>)
    ensures queued { (p : ℕ) → Gains (H.queued h.old p) (H.queued h.new p) (put_at desk.old p) (put_at desk.new p) }
    ensures got { (p : ℕ) → Gains (H.got h.old p) (H.got h.new p) (got_at desk.old p) (got_at desk.new p) }
    ensures owned { Gains (H.owned h.old) (H.owned h.new) (own_of desk.old) (own_of desk.new) }
    ensures finished { H.finished h.new }
    ensures kept { H.kept h.old h.new }
    ensures places { places desk.new ≡ places desk.old }
{
    for _ in rt.forever() {
        match h.turn(desk) {
            Turn::Done => return,
            Turn::More => {}
        }
    }
    unreachable!()
}
