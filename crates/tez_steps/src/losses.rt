//! Nodes and outputs are lost.
ghost use Rattle.std.specs.Prelude.{◌≡◌, ◌*◌, not, if◌then◌else◌, slice_get, None, IfSome};
ghost use Rattle.tez_ids.specs.declared.AttemptId.{AttemptId as Attempt};
ghost use Rattle.tez_ids.specs.Same.{same_attempt};
ghost use Rattle.tez_lists.specs.Numbers.{numbers_from};
ghost use Rattle.tez_events.specs.declared.CoreEvent.{CoreEvent};
ghost use Rattle.tez_shelves.specs.Shelf.{shelf, kept_if, same_node};
ghost use Rattle.tez_master_model.specs.Read.{winner_in};
ghost use Rattle.tez_inflight.specs.Seats.{after_leaves};
ghost use Rattle.tez_work_view.specs.Holdings.{node};
ghost use Rattle.tez_steps.specs.Holds.{parts_of, Holds};
ghost use Rattle.tez_steps.specs.Taking.{IsQuietStep};

use crate::asking::{ask, settle};
use crate::running::Running;
use crate::verdict::Took;
use std::alloc::{AllocError, Global};
use tez_conf::Conf;
use tez_events::CoreEvent;
use tez_ids::{NodeId, TaskId};
use tez_log::Log;
use tez_master::Handled;
use tez_meaning::Job;

/// A node is lost: who is at its places is killed, and what lies on its shelf is gone.
pub(crate) fn lose_node(
    alloc: Global,
    job: &Job,
    conf: &Conf,
    running: &mut Running,
    log: &mut Log,
    slot: u16,
) -> Result<Took, AllocError>
    requires holds { Holds job.now conf.now (parts_of running.old) log.old.past }
    ensures { IsQuietStep job.now conf.now (CoreEvent.LoseNode slot) running.old log.old result running.new log.new }
{
    let handled = ask(alloc, job, conf, running, log, &CoreEvent::LoseNode(slot))?;
    if let Handled::Ignored(why) = handled {
        return Ok(Took::Ignored(why));
    }
    empty_node(running, conf, slot);
    settle(running, log, handled);
    Ok(Took::Changed)
}

/// Clears the seats of a node's places, and its shelf.
fn empty_node(running: &mut Running, conf: &Conf, slot: u16)
    ensures master { running.new.master ≡ running.old.master }
    ensures seats { running.new.seats
        ≡ after_leaves running.old.seats (numbers_from (slot * conf.now.per_node) conf.now.per_node) }
    ensures shelves { IfSome (slice_get running.old.master.state.pool.lives slot) (λ life. (b : Attempt)
        → shelf b running.new.shelves
        ≡ kept_if (λ x. not (same_node x.0 (node slot life))) (shelf b running.old.shelves)) }
    ensures texts { running.new.texts ≡ running.old.texts }
    ensures sums { running.new.sums ≡ running.old.sums }
{
    let per_node = conf.values().per_node as u32;
    running.seats.leave_all(slot as u32 * per_node, per_node);
    if let Some(life) = running.master.life_of(slot) {
        running.shelves.lose_node(NodeId { slot, life });
    }
}

/// The output of a winner is lost, and nobody is told.
pub(crate) fn lose_output(
    alloc: Global,
    job: &Job,
    conf: &Conf,
    running: &mut Running,
    log: &mut Log,
    t: TaskId,
) -> Result<Took, AllocError>
    requires holds { Holds job.now conf.now (parts_of running.old) log.old.past }
    ensures { IsQuietStep job.now conf.now (CoreEvent.LoseOutput t) running.old log.old result running.new log.new }
{
    let handled = ask(alloc, job, conf, running, log, &CoreEvent::LoseOutput(t))?;
    if let Handled::Ignored(why) = handled {
        return Ok(Took::Ignored(why));
    }
    drop_winner(running, t);
    settle(running, log, handled);
    Ok(Took::Changed)
}

/// Takes what the winner of a task made from its shelf.
fn drop_winner(running: &mut Running, t: TaskId)
    ensures master { running.new.master ≡ running.old.master }
    ensures seats { running.new.seats ≡ running.old.seats }
    ensures shelves { IfSome (winner_in running.old.master.state t) (λ w. (b : Attempt)
        → shelf b running.new.shelves ≡ (if same_attempt w b then None else shelf b running.old.shelves)) }
    ensures texts { running.new.texts ≡ running.old.texts }
    ensures sums { running.new.sums ≡ running.old.sums }
{
    if let Some(w) = running.master.winner_of(t) {
        running.shelves.drop_attempt(w);
    }
}
