//! Attempts, each with its bytes, as a list. The time of each function grows with the list.
ghost use Rattle.std.specs.Prelude.{◌≡◌, ◌≤◌, IfOk, option_map};
ghost use Rattle.std.specs.Vec.{vec_len, vec_capacity};
ghost use Rattle.tez_ports.specs.Content.{staged_at, without_attempt};

use std::alloc::{AllocError, Global};
use tez_ids::{AttemptId, Bytes};

/// The bytes of an attempt.
pub(crate) fn find(entries: &[(AttemptId, Bytes)], attempt: AttemptId) -> Option<&[u8]>
    ensures { option_map (λ b. b.now) result ≡ staged_at attempt entries.now }
{
    for entry in entries {
        if entry.0 == attempt {
            return Some(entry.1.as_slice());
        }
    }
    None
}

/// An attempt and a copy of its bytes.
pub(crate) fn entry_of(
    alloc: Global,
    attempt: AttemptId,
    bytes: &[u8],
) -> Result<(AttemptId, Bytes), AllocError>
    ensures { IfOk result (λ e. e ≡ (attempt, bytes.now)) }
{
    Ok((attempt, Bytes::new(bytes.to_vec(alloc)?)))
}

/// Removes all entries of an attempt.
pub(crate) fn remove_all(entries: &mut Vec<(AttemptId, Bytes)>, attempt: AttemptId)
    ensures rest { entries.new.items ≡ without_attempt attempt entries.old.items }
    ensures len { vec_len entries.new ≤ vec_len entries.old }
    ensures capacity { vec_capacity entries.new ≡ vec_capacity entries.old }
{
    entries.retain(|entry| entry.0 != attempt);
}
