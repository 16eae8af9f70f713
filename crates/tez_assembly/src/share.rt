// The share of a task of the source file of its vertex.
ghost use Rattle.std.specs.Prelude.{◌≡◌, ◌<◌, [], take, drop, IfOk};
ghost use Rattle.std.specs.List.{find, position};
ghost use Rattle.std.specs.Option.{option_map_or};
ghost use Rattle.std.specs.Str.{bytes_eq};
ghost use Rattle.tez_record.specs.Line.{lines};
ghost use Rattle.tez_meaning.specs.Value.{lines_of};
ghost use Rattle.tez_shares.specs.Shares.{share_of_lines};

use std::alloc::{AllocError, Global};
use tez_ids::{Bytes, Name};
use tez_meaning::Job;
use tez_record::{Iter, Records};
use tez_shares::lines_of_task;

/// The lines of the source file of this name that task `t` of so many gets. It goes over the file
/// once to count its lines, and then up to the last line of the share; it copies the share alone.
pub fn share_of_source(
    alloc: Global,
    job: &Job,
    name: &str,
    tasks: u32,
    t: u32,
) -> Result<Records, AllocError>
    requires { t < tasks }
    ensures { IfOk result (λ rs. rs ≡ share_of_lines (lines_of job.now name.now) tasks t) }
{
    share_of_text(alloc, file_named(job.sources(), name), tasks, t)
}

/// The bytes of the file of this name, and none where it is not there.
fn file_named<'a>(files: &'a [(Name, Bytes)], name: &str) -> &'a [u8]
    ensures { lines result.now ≡ option_map_or (λ file. lines file.1) (find (λ file. bytes_eq file.0 name.now) files.now) [] }
{
    match place_named(files, name) {
        None => &[],
        Some(place) => files[place].1.as_slice(),
    }
}

fn place_named(files: &[(Name, Bytes)], name: &str) -> Option<usize>
    ensures { result ≡ position (λ file. bytes_eq file.0 name.now) files.now }
{
    files.iter().position(|file| file.0.as_str() == name)
}

fn share_of_text(alloc: Global, bytes: &[u8], tasks: u32, t: u32) -> Result<Records, AllocError>
    requires { t < tasks }
    ensures { IfOk result (λ rs. rs ≡ share_of_lines (lines bytes.now) tasks t) }
{
    let n = Iter::new(bytes).count();
    let (first, end) = lines_of_task(n as u64, tasks, t);
    let mut rest = Iter::new(bytes);
    skip_lines(&mut rest, first);
    next_lines(alloc, &mut rest, end - first)
}

/// Passes over so many lines, or all where there are fewer.
fn skip_lines(rest: &mut Iter<'_>, count: u64)
    ensures { lines rest.new.rest.now ≡ drop count (lines rest.old.rest.now) }
{
    for _passed in 0..count {
        if let Some(_line) = rest.next() {}
    }
}

/// Takes so many lines, or all where there are fewer.
fn next_lines(alloc: Global, rest: &mut Iter<'_>, count: u64) -> Result<Records, AllocError>
    ensures { IfOk result (λ share. share ≡ take count (lines rest.old.rest.now)) }
{
    let mut share = Records::new(alloc);
    for _taken in 0..count {
        if let Some(line) = rest.next() {
            share.push(line)?;
        }
    }
    Ok(share)
}
