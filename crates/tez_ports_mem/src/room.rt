//! Changes of a list where there is room, which take no memory.
ghost use Rattle.std.specs.Prelude.{◌≡◌, ◌≤◌, ◌+◌, ◌-◌, ◌<◌, ◌++◌, ◌∷◌, [], max, length, take, drop, replicate};
ghost use Rattle.std.specs.Vec.{vec_len, vec_capacity};
ghost use Rattle.tez_ports.specs.Image.{overwrite};

/// Puts an item at the end, in room that was taken before. Takes no memory.
pub(crate) fn push_in_room<T: Drop>(items: &mut Vec<T>, item: T)
    requires { vec_len items.old < vec_capacity items.old }
    ensures items { items.new.items ≡ items.old.items ++ item ∷ [] }
    ensures len { vec_len items.new ≡ vec_len items.old + 1 }
    ensures capacity { vec_capacity items.old ≤ vec_capacity items.new }
{
    let _ = items.push(item);
}

/// Puts an item in front of all others. The time grows with the list.
pub(crate) fn push_front_in_room<T: Drop>(items: &mut Vec<T>, item: T)
    requires { vec_len items.old < vec_capacity items.old }
    ensures items { items.new.items ≡ item ∷ items.old.items }
    ensures len { vec_len items.new ≡ vec_len items.old + 1 }
    ensures capacity { vec_capacity items.old ≤ vec_capacity items.new }
{
    let _ = items.insert(0, item);
}

/// Puts a copy of the bytes from `start` to `end`, if there are any, in front of the tail.
pub(crate) fn save_in_room(bytes: &[u8], start: usize, end: usize, tail: &mut Vec<u8>)
    requires inside { end ≤ length bytes.now }
    requires room { vec_len tail.old + (end - start) ≤ vec_capacity tail.old }
    ensures items { tail.new.items ≡ take (end - start) (drop start bytes.now) ++ tail.old.items }
    ensures len { vec_len tail.new ≡ vec_len tail.old + (end - start) }
    ensures capacity { vec_capacity tail.old ≤ vec_capacity tail.new }
{
    if start < end {
        let _ = tail.extend_from_slice(&bytes[start..end]);
        tail.rotate_right(end - start);
    }
}

/// Puts the bytes in place of those from `start` on.
pub(crate) fn overwrite_in_room(content: &mut Vec<u8>, start: usize, bytes: &[u8])
    requires start { start ≤ vec_len content.old }
    requires room { start + length bytes.now ≤ vec_capacity content.old }
    ensures items { content.new.items ≡ overwrite start bytes.now content.old.items }
    ensures len { vec_len content.new ≡ max (vec_len content.old) (start + length bytes.now) }
    ensures capacity { vec_capacity content.old ≤ vec_capacity content.new }
{
    if bytes.len() <= content.len() - start {
        content[start..start + bytes.len()].copy_from_slice(bytes);
    } else {
        content.truncate(start);
        let _ = content.extend_from_slice(bytes);
    }
}

/// Puts the byte in place of `len` of them.
pub(crate) fn fill_part(content: &mut Vec<u8>, start: usize, len: usize, byte: u8)
    requires { start + len ≤ vec_len content.old }
    ensures items { content.new.items ≡ overwrite start (replicate len byte) content.old.items }
    ensures len { vec_len content.new ≡ vec_len content.old }
    ensures capacity { vec_capacity content.old ≤ vec_capacity content.new }
{
    content[start..start + len].fill(byte);
}
