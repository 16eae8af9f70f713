// Admitted attempts in the order of their tasks.
ghost use Rattle.std.specs.Prelude.{◌≡◌, ◌≤◌, ◌<◌, true, false, List, [], length, nat_le, IfSome, IfNone, OnOk, OnErr, vec_capacity};
ghost use Rattle.std.specs.List.{AllByRecursion};
ghost use Rattle.tez_router.specs.State.{LinkState};
ghost use Rattle.tez_router.specs.Edges.{AreInto};
ghost use Rattle.tez_router.specs.Table.{before, admit_in};
ghost use Rattle.tez_router.specs.Order.{AreInOrder, IsPlaceOf, IsEndOf, IsOnly, IsNowhere, IsAt, IsNotAt, IsTaskAt, IsNotTaskAt};

use crate::admitted::Admitted;
use std::alloc::AllocError;
use tez_ids::{AttemptId, TaskId, VertexId};

fn comes_before(s: TaskId, t: TaskId) -> bool
    ensures { result ≡ before s t }
{
    s.vertex.0 < t.vertex.0 || (s.vertex.0 == t.vertex.0 && s.index < t.index)
}

/// How many of the attempts are at tasks before this one. Logarithmic.
pub fn place_of(admitted: &[Admitted], task: TaskId) -> usize
    requires { AreInOrder admitted.now }
    ensures inside { result ≤ length admitted.now }
    ensures place { IsPlaceOf admitted.now task result }
{
    admitted.partition_point(|x| comes_before(x.attempt().task, task))
}

fn is_up_to(x: &Admitted, vertex: VertexId) -> bool
    ensures { result ≡ nat_le x.now.attempt.task.vertex.0 vertex.0 }
{
    x.attempt().task.vertex.0 <= vertex.0
}

/// Where the attempts of the vertices behind this one begin. Logarithmic.
pub fn end_of(admitted: &[Admitted], vertex: VertexId) -> usize
    requires { AreInOrder admitted.now }
    ensures inside { result ≤ length admitted.now }
    ensures end { IsEndOf admitted.now vertex.0 result }
{
    admitted.partition_point(|x| is_up_to(x, vertex))
}

fn is_at(admitted: &[Admitted], at: usize, attempt: AttemptId) -> bool
    ensures yes { result ≡ true → IsAt admitted.now attempt at }
    ensures no { result ≡ false → IsNotAt admitted.now attempt at }
{
    at < admitted.len() && admitted[at].attempt() == attempt
}

fn is_task_at(admitted: &[Admitted], at: usize, task: TaskId) -> bool
    ensures yes { result ≡ true → IsTaskAt admitted.now task at }
    ensures no { result ≡ false → IsNotTaskAt admitted.now task at }
{
    at < admitted.len() && admitted[at].attempt().task == task
}

/// Where the attempt stands. Logarithmic.
pub fn find(admitted: &[Admitted], attempt: AttemptId) -> Option<usize>
    requires { AreInOrder admitted.now }
    ensures some { IfSome result (λ at. IsOnly admitted.now attempt at) }
    ensures none { IfNone result (IsNowhere admitted.now attempt) }
{
    let at = place_of(admitted, attempt.task);
    if is_at(admitted, at, attempt) {
        Some(at)
    } else {
        None
    }
}

/// Admits an attempt in the order of tasks, in place of another one of its task.
pub fn put(admitted: &mut Vec<Admitted>, x: Admitted) -> Result<(), AllocError>
    requires { AreInOrder admitted.old.items }
    ensures put { OnOk result (admitted.new.items ≡ admit_in x admitted.old.items) }
    ensures refused { OnErr result (admitted.new.items ≡ admitted.old.items) }
    ensures full { OnErr result (vec_capacity admitted.old ≤ length admitted.old.items) }
    ensures order { AreInOrder admitted.new.items }
    ensures into { (links : List LinkState) → AreInto links x → AllByRecursion (AreInto links) admitted.old.items → AllByRecursion (AreInto links) admitted.new.items }
{
    let task = x.attempt().task;
    let at = place_of(admitted.as_slice(), task);
    if is_task_at(admitted.as_slice(), at, task) {
        admitted[at] = x;
        return Ok(());
    }
    admitted.insert(at, x)?;
    Ok(())
}

// The attempts in other room. Takes no memory.
fn moved(admitted: &mut Vec<Admitted>, mut room: Vec<Admitted>) -> Vec<Admitted>
    requires empty { room.items ≡ [] }
    requires room { length admitted.old.items < vec_capacity room }
    ensures items { result.items ≡ admitted.old.items }
    ensures room { length result.items < vec_capacity result }
{
    if room.append(admitted).is_err() {
        prove!(false);
    }
    room
}

/// Does so by room that was taken before. Takes no memory, and time in the admitted attempts.
pub fn put_within(admitted: &mut Vec<Admitted>, room: Vec<Admitted>, x: Admitted)
    requires order { AreInOrder admitted.old.items }
    requires empty { room.items ≡ [] }
    requires room { length admitted.old.items < vec_capacity room }
    ensures put { admitted.new.items ≡ admit_in x admitted.old.items }
    ensures order { AreInOrder admitted.new.items }
    ensures into { (links : List LinkState) → AreInto links x → AllByRecursion (AreInto links) admitted.old.items → AllByRecursion (AreInto links) admitted.new.items }
{
    let mut all = moved(admitted, room);
    if put(&mut all, x).is_err() {
        prove!(false);
    }
    *admitted = all;
}
