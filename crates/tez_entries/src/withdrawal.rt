//! The entries of a withdrawal.
ghost use Rattle.std.specs.Prelude.{◌≡◌, ◌++◌, OnOk, map};
ghost use Rattle.tez_master_model.specs.Entries.{notice_entry};
ghost use Rattle.tez_entries.specs.Lines.{withdrawal_by};

use std::alloc::AllocError;
use tez_core::Core;
use tez_events::Entry;
use tez_ids::AttemptId;
use tez_router::Notice;

/// A winner is withdrawn: those that wait for its output are told, and its task is queued again.
pub(crate) fn add_withdrawal(
    entries: &mut Vec<Entry>,
    m: &Core,
    notices: &[Notice],
    w: AttemptId,
) -> Result<(), AllocError>
    ensures { OnOk result (entries.new.items ≡ entries.old.items ++ withdrawal_by m.now notices.now w) }
{
    entries.push(Entry::Rerun(w))?;
    add_notices(entries, notices)?;
    entries.push(Entry::Queued(m.next_of(w.task)))?;
    Ok(())
}

fn add_notices(entries: &mut Vec<Entry>, notices: &[Notice]) -> Result<(), AllocError>
    ensures { OnOk result (entries.new.items ≡ entries.old.items ++ map notice_entry notices.now) }
{
    for notice in notices {
        entries.push(entry_of(*notice))?;
    }
    Ok(())
}

fn entry_of(notice: Notice) -> Entry
    ensures { result ≡ notice_entry notice }
{
    Entry::InputFailed(notice.attempt, notice.edge, notice.input, notice.lost)
}
