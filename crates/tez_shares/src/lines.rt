// The lines of a source, and the tasks that get them.
ghost use Rattle.std.specs.Prelude.{◌≡◌, ◌≤◌, ◌<◌, ◌+◌, map, take, drop, IfOk, OnOk};
ghost use Rattle.std.specs.List.{flat_map, range_with_len};
ghost use Rattle.tez_record.specs.Line.{lines};
ghost use Rattle.tez_shares.specs.Shares.{first_line, share_of_lines};

use std::alloc::{AllocError, Global};
use tez_record::{Iter, Records};

/// Where the lines of task `t` start among the `n` lines of a source, and where they end, if its
/// vertex has that many tasks. Takes no memory.
pub fn lines_of_task(n: u64, tasks: u32, t: u32) -> (u64, u64)
    requires { t < tasks }
    ensures first { result.0 ≡ first_line n tasks t }
    ensures end { result.1 ≡ first_line n tasks (t + 1) }
    ensures in_order { result.0 ≤ result.1 }
    ensures inside { result.1 ≤ n }
{
    (first_line(n, tasks, t), first_line(n, tasks, t + 1))
}

fn first_line(n: u64, tasks: u32, t: u32) -> u64
    requires some { 0 < tasks }
    requires there { t ≤ tasks }
    ensures first { result ≡ first_line n tasks t }
    ensures inside { result ≤ n }
{
    let before = u128::from(n) * u128::from(t);
    (before / u128::from(tasks)) as u64
}

/// The lines of a source by the tasks of its vertex: list t has those of task t, in the order of
/// the source. Linear in the text, beside an entry for each task.
pub fn shares_of_lines(alloc: Global, rs: &Records, tasks: u32) -> Result<Vec<Records>, AllocError>
    requires { 0 < tasks }
    ensures shares { IfOk result (λ shares. shares.items ≡ map (share_of_lines rs.now tasks) (range_with_len 0 tasks)) }
    ensures whole { IfOk result (λ shares. flat_map (λ share. share) shares.items ≡ rs.now) }
{
    let n = rs.len() as u64;
    let mut rest = rs.iter();
    let mut shares = Vec::with_capacity(alloc, tasks as usize)?;
    for t in 0..tasks {
        let (first, end) = lines_of_task(n, tasks, t);
        shares.push(next_lines(alloc, &mut rest, end - first)?)?;
    }
    Ok(shares)
}

/// Takes so many lines, or all where there are fewer.
fn next_lines(alloc: Global, rest: &mut Iter<'_>, count: u64) -> Result<Records, AllocError>
    ensures taken { IfOk result (λ share. share ≡ take count (lines rest.old.rest.now)) }
    ensures left { OnOk result (lines rest.new.rest.now ≡ drop count (lines rest.old.rest.now)) }
{
    let mut share = Records::new(alloc);
    for _taken in 0..count {
        if let Some(line) = rest.next() {
            share.push(line)?;
        }
    }
    Ok(share)
}
