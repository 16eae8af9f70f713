// What a line says.
ghost use Rattle.std.specs.Prelude.{◌≡◌, position, bytes_eq, IfSome, IsTrue};
ghost use Rattle.tez_script.specs.declared.line.Device.TheVariants as Device;
ghost use Rattle.tez_script.specs.Words.{words_behind, is_within};
ghost use Rattle.tez_script.specs.Grammar.{vertex_named, task_of, side_of, at_of, on_of, when_of, task_times_of, node_line, output_line, stop_of, stop_line, line_of, call_of, has_times};

use crate::line::{Device, ScriptLine, Stop, When};
use crate::words::{first_word, next_word, number, number_below, number_from_1, number_up_to};
use tez_conf::Conf;
use tez_ids::{TaskId, VertexId};
use tez_plan::{Plan, VertexSpec};

/// The place of the vertex of this name.
fn place_named(vertices: &[VertexSpec], name: &[u8]) -> Option<usize>
    ensures { result ≡ position (λ v. bytes_eq name.now v.name) vertices.now }
{
    vertices
        .iter()
        .position(|vertex| name == vertex.name.as_str().as_bytes())
}

/// The task of this vertex and this number.
fn task(p: &Plan, name: &[u8], index: &[u8]) -> Option<TaskId>
    ensures { result ≡ task_of p.now name.now index.now }
{
    let vertices = p.vertices();
    let v = place_named(vertices, name)?;
    let index = number_below(index, u64::from(vertices[v].tasks))?;
    Some(TaskId {
        vertex: VertexId(v as u16),
        index: index as u32,
    })
}

/// `N`, behind `at`.
fn at(rest: &[u8]) -> Option<When>
    ensures { result ≡ at_of (words_behind rest.now) }
{
    let (n, rest) = next_word(rest)?;
    match next_word(rest) {
        None => Some(When::At(number(n)?)),
        Some(_) => None,
    }
}

/// `V T`, behind `on`.
fn on(p: &Plan, rest: &[u8]) -> Option<When>
    ensures { result ≡ on_of p.now (words_behind rest.now) }
{
    let (name, rest) = next_word(rest)?;
    let (index, rest) = next_word(rest)?;
    match next_word(rest) {
        None => Some(When::On(task(p, name, index)?)),
        Some(_) => None,
    }
}

/// `at N` or `on V T`.
fn when(p: &Plan, rest: &[u8]) -> Option<When>
    ensures { result ≡ when_of p.now (words_behind rest.now) }
{
    let (word, rest) = next_word(rest)?;
    if word == b"at".as_slice() {
        at(rest)
    } else if word == b"on".as_slice() {
        on(p, rest)
    } else {
        None
    }
}

/// `V T N`, with N from 1 to the limit.
fn task_times(p: &Plan, most: u64, rest: &[u8]) -> Option<(TaskId, u64)>
    ensures value { result ≡ task_times_of p.now most (words_behind rest.now) }
    ensures within { IfSome result (λ t. IsTrue (is_within 1 most t.1)) }
{
    let (name, rest) = next_word(rest)?;
    let (index, rest) = next_word(rest)?;
    let (times, rest) = next_word(rest)?;
    match next_word(rest) {
        None => Some((task(p, name, index)?, number_up_to(times, most)?)),
        Some(_) => None,
    }
}

/// `S WHEN`, behind `lose-node`.
fn lose_node(p: &Plan, c: &Conf, rest: &[u8]) -> Option<ScriptLine>
    ensures value { result ≡ node_line p.now c.now (words_behind rest.now) }
    ensures times { IfSome result (λ x. IsTrue (has_times x)) }
{
    let (slot, rest) = next_word(rest)?;
    let slot = number_below(slot, u64::from(c.nodes()))? as u16;
    Some(ScriptLine::LoseNode {
        slot,
        when: when(p, rest)?,
    })
}

/// `V T WHEN`, behind `lose-output`.
fn lose_output(p: &Plan, rest: &[u8]) -> Option<ScriptLine>
    ensures value { result ≡ output_line p.now (words_behind rest.now) }
    ensures times { IfSome result (λ x. IsTrue (has_times x)) }
{
    let (name, rest) = next_word(rest)?;
    let (index, rest) = next_word(rest)?;
    Some(ScriptLine::LoseOutput {
        task: task(p, name, index)?,
        when: when(p, rest)?,
    })
}

/// The place of a word among the calls of a disk.
fn disk_call(word: &[u8]) -> Option<u8>
    ensures { result ≡ call_of Device.Disk word.now }
{
    if word == b"size".as_slice() {
        Some(0)
    } else if word == b"read".as_slice() {
        Some(1)
    } else if word == b"write".as_slice() {
        Some(2)
    } else if word == b"sync".as_slice() {
        Some(3)
    } else {
        None
    }
}

/// The place of a word among the calls of a store.
fn store_call(word: &[u8]) -> Option<u8>
    ensures { result ≡ call_of Device.Store word.now }
{
    if word == b"stage".as_slice() {
        Some(0)
    } else if word == b"load".as_slice() {
        Some(1)
    } else if word == b"ready".as_slice() {
        Some(2)
    } else if word == b"publish".as_slice() {
        Some(3)
    } else if word == b"asked".as_slice() {
        Some(4)
    } else if word == b"purge".as_slice() {
        Some(5)
    } else {
        None
    }
}

fn call(device: Device, word: &[u8]) -> Option<u8>
    ensures { result ≡ call_of device word.now }
{
    match device {
        Device::Disk => disk_call(word),
        Device::Store => store_call(word),
    }
}

/// Which side of the call.
fn is_after(word: &[u8]) -> Option<bool>
    ensures { result ≡ side_of word.now }
{
    if word == b"before".as_slice() {
        Some(false)
    } else if word == b"after".as_slice() {
        Some(true)
    } else {
        None
    }
}

/// `CALL N SIDE`, with a call of the device.
fn stop(device: Device, rest: &[u8]) -> Option<Stop>
    ensures { result ≡ stop_of device (words_behind rest.now) }
{
    let (kind, rest) = next_word(rest)?;
    let (n, rest) = next_word(rest)?;
    let (side, rest) = next_word(rest)?;
    match next_word(rest) {
        None => Some(Stop {
            call: call(device, kind)?,
            n: number_from_1(n)?,
            after: is_after(side)?,
        }),
        Some(_) => None,
    }
}

/// `disk CALL N SIDE` or `store CALL N SIDE`, behind `stop`.
fn stop_device(rest: &[u8]) -> Option<ScriptLine>
    ensures value { result ≡ stop_line (words_behind rest.now) }
    ensures times { IfSome result (λ x. IsTrue (has_times x)) }
{
    let (device, rest) = next_word(rest)?;
    if device == b"disk".as_slice() {
        Some(ScriptLine::StopDisk(stop(Device::Disk, rest)?))
    } else if device == b"store".as_slice() {
        Some(ScriptLine::StopStore(stop(Device::Store, rest)?))
    } else {
        None
    }
}

/// What a line says, None where it is outside the grammar.
#[tactic(auto, unfolding(crate::specs::Grammar::line_of))]
pub fn line_at(p: &Plan, c: &Conf, line: &[u8]) -> Option<ScriptLine>
    ensures value { result ≡ line_of p.now c.now line.now }
    ensures times { IfSome result (λ x. IsTrue (has_times x)) }
{
    let (word, rest) = first_word(line);
    if word == b"fail".as_slice() {
        let (task, times) = task_times(p, 1000, rest)?;
        Some(ScriptLine::Fail { task, times })
    } else if word == b"repeat".as_slice() {
        let (task, times) = task_times(p, 100, rest)?;
        Some(ScriptLine::Repeat { task, times })
    } else if word == b"lose-node".as_slice() {
        lose_node(p, c, rest)
    } else if word == b"lose-output".as_slice() {
        lose_output(p, rest)
    } else if word == b"restart".as_slice() {
        Some(ScriptLine::Restart {
            when: when(p, rest)?,
        })
    } else if word == b"stop".as_slice() {
        stop_device(rest)
    } else {
        None
    }
}
