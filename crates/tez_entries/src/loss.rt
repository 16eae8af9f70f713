//! The entries of a lost node.
ghost use Rattle.std.specs.Prelude.{◌≡◌, ◌++◌, IfOk, OnOk};
ghost use Rattle.std.specs.List.{flat_map};
ghost use Rattle.tez_events.specs.declared.CoreEvent.{CoreEvent};
ghost use Rattle.tez_master_model.specs.Entries.{entries_in, node_loss_in, kill_in};
ghost use Rattle.tez_entries.specs.Lines.{lost_withdrawal, lost_withdrawals};
ghost use Rattle.tez_entries.specs.Ranges.{HasLife};

use crate::withdrawal::add_withdrawal;
use std::alloc::{AllocError, Global};
use tez_core::Core;
use tez_events::{Entry, KillCause};
use tez_ids::AttemptId;

/// The node of a slot is lost. Once the commit has begun nobody works any more, and nobody is
/// killed or withdrawn.
pub(crate) fn node_lost(alloc: Global, m: &Core, slot: u16) -> Result<Vec<Entry>, AllocError>
    requires { HasLife m.now slot }
    ensures { IfOk result (λ es. es.items ≡ entries_in m.now (CoreEvent.LoseNode slot)) }
{
    let mut entries = Vec::new(alloc);
    entries.push(Entry::NodeLost(slot, m.next_life(slot)))?;
    if m.is_committing() {
        return Ok(entries);
    }
    add_losses(&mut entries, alloc, m, slot)?;
    Ok(entries)
}

// Who holds a place of the node is killed, and then the winners whose pieces lay there are withdrawn.
fn add_losses(
    entries: &mut Vec<Entry>,
    alloc: Global,
    m: &Core,
    slot: u16,
) -> Result<(), AllocError>
    ensures { OnOk result (entries.new.items ≡ entries.old.items ++ node_loss_in m.now slot) }
{
    let held = m.held_on(alloc, slot)?;
    let lost = m.lost_on(alloc, slot)?;
    add_kills(entries, m, &held)?;
    add_withdrawals(entries, alloc, m, &held, &lost)
}

fn add_kills(entries: &mut Vec<Entry>, m: &Core, held: &[AttemptId]) -> Result<(), AllocError>
    ensures { OnOk result (entries.new.items ≡ entries.old.items ++ flat_map (kill_in m.now) held.now) }
{
    for a in held {
        add_kill(entries, m, *a)?;
    }
    Ok(())
}

fn add_kill(entries: &mut Vec<Entry>, m: &Core, a: AttemptId) -> Result<(), AllocError>
    ensures { OnOk result (entries.new.items ≡ entries.old.items ++ kill_in m.now a) }
{
    entries.push(Entry::Killed(a, KillCause::Node))?;
    entries.push(Entry::Queued(m.next_of(a.task)))?;
    Ok(())
}

// Those that are killed are told nothing.
fn add_withdrawals(
    entries: &mut Vec<Entry>,
    alloc: Global,
    m: &Core,
    held: &[AttemptId],
    lost: &[AttemptId],
) -> Result<(), AllocError>
    ensures { OnOk result (entries.new.items ≡ entries.old.items ++ lost_withdrawals m.now held.now lost.now) }
{
    for w in lost {
        add_lost(entries, alloc, m, held, *w)?;
    }
    Ok(())
}

fn add_lost(
    entries: &mut Vec<Entry>,
    alloc: Global,
    m: &Core,
    held: &[AttemptId],
    w: AttemptId,
) -> Result<(), AllocError>
    ensures { OnOk result (entries.new.items ≡ entries.old.items ++ lost_withdrawal m.now held.now w) }
{
    let notices = m.notices_except(alloc, w.task, held)?;
    add_withdrawal(entries, m, &notices, w)
}
