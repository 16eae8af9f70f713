//! The records of the journal that entries append.
ghost use Rattle.std.specs.Prelude.{◌≡◌, ◌++◌, IfOk, OnOk, option_to_list};
ghost use Rattle.tez_entries.specs.Records.{record_of, records_of};

use std::alloc::{AllocError, Global};
use tez_events::{Entry, JournalRecord};

/// The records that these entries append to the journal, in their order. Takes time in the entries.
pub fn records(alloc: Global, entries: &[Entry]) -> Result<Vec<JournalRecord>, AllocError>
    ensures { IfOk result (λ found. found.items ≡ records_of entries.now) }
{
    let mut found = Vec::new(alloc);
    for entry in entries {
        add_record(&mut found, *entry)?;
    }
    Ok(found)
}

fn add_record(found: &mut Vec<JournalRecord>, entry: Entry) -> Result<(), AllocError>
    ensures { OnOk result (found.new.items ≡ found.old.items ++ record_of entry) }
{
    if let Some(record) = record_of(entry) {
        found.push(record)?;
    }
    Ok(())
}

fn record_of(entry: Entry) -> Option<JournalRecord>
    ensures { option_to_list result ≡ record_of entry }
{
    match entry {
        Entry::Configured(vertex, tasks, base) => Some(JournalRecord::Configured {
            vertex,
            tasks,
            base,
        }),
        Entry::Succeeded(attempt) => Some(JournalRecord::TaskSucceeded { attempt }),
        Entry::Failed(attempt) => Some(JournalRecord::AttemptFailed { attempt }),
        Entry::Settled(vertex) => Some(JournalRecord::SinkPublished { vertex }),
        Entry::Published(vertex) => Some(JournalRecord::SinkPublished { vertex }),
        Entry::Finished => Some(JournalRecord::Finished),
        Entry::Opened(_)
        | Entry::Over
        | Entry::Stands(_, _, _)
        | Entry::Carried(_, _)
        | Entry::Kept(_)
        | Entry::Committing(_)
        | Entry::Queued(_)
        | Entry::Placed(_, _, _)
        | Entry::Fetched(_, _, _, _)
        | Entry::ReadError(_, _, _, _)
        | Entry::InputFailed(_, _, _, _)
        | Entry::Ordered(_)
        | Entry::Made(_, _, _)
        | Entry::Killed(_, _)
        | Entry::NodeLost(_, _)
        | Entry::OutputLost(_)
        | Entry::Rerun(_)
        | Entry::Stopped(_)
        | Entry::Ready(_)
        | Entry::Asked(_)
        | Entry::CommitStarted
        | Entry::Purged => None,
    }
}
