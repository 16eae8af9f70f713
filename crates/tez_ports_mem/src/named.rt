//! Names, each with its bytes, as a list. The time of each function grows with the list.
ghost use Rattle.std.specs.Prelude.{◌≡◌, ◌≤◌, ◌+◌, OnSome, IfNone, IfOk, option_map, position, bytes_eq};
ghost use Rattle.std.specs.Vec.{vec_len, vec_capacity};
ghost use Rattle.tez_ports.specs.Content.{bytes_of, without};

use std::alloc::{AllocError, Global};
use tez_ids::{Bytes, Name};

/// The bytes of a name.
pub(crate) fn find<'e>(entries: &'e [(Name, Bytes)], name: &str) -> Option<&'e [u8]>
    ensures { option_map (λ b. b.now) result ≡ bytes_of name.now entries.now }
{
    for entry in entries {
        if entry.0.as_str() == name {
            return Some(entry.1.as_slice());
        }
    }
    None
}

/// A copy of a name and its bytes.
pub(crate) fn entry_of(alloc: Global, name: &str, bytes: &[u8]) -> Result<(Name, Bytes), AllocError>
    ensures { IfOk result (λ e. e ≡ (name.now, bytes.now)) }
{
    Ok((
        Name::copy_of(alloc, name)?,
        Bytes::new(bytes.to_vec(alloc)?),
    ))
}

/// Removes all entries of a name.
pub(crate) fn remove_all(entries: &mut Vec<(Name, Bytes)>, name: &str)
    ensures rest { entries.new.items ≡ without name.now entries.old.items }
    ensures len { vec_len entries.new ≤ vec_len entries.old }
    ensures capacity { vec_capacity entries.new ≡ vec_capacity entries.old }
{
    entries.retain(|entry| entry.0.as_str() != name);
}

/// Where the first entry of a name stands.
fn place_of(entries: &[(Name, Bytes)], name: &str) -> Option<usize>
    ensures { result ≡ position (λ entry. bytes_eq entry.0 name.now) entries.now }
{
    entries.iter().position(|entry| entry.0.as_str() == name)
}

/// Removes all entries of a name, and gives the first of them. Takes no memory.
pub(crate) fn take_out(entries: &mut Vec<(Name, Bytes)>, name: &str) -> Option<(Name, Bytes)>
    ensures found { result ≡ option_map (λ bytes. (name.now, bytes)) (bytes_of name.now entries.old.items) }
    ensures rest { entries.new.items ≡ without name.now entries.old.items }
    ensures same { IfNone result (entries.new.items ≡ entries.old.items) }
    ensures shorter { OnSome result (vec_len entries.new + 1 ≤ vec_len entries.old) }
    ensures len { vec_len entries.new ≤ vec_len entries.old }
{
    match place_of(entries, name) {
        Some(place) => {
            let entry = entries.remove(place);
            remove_all(entries, name);
            Some(entry)
        }
        None => None,
    }
}
