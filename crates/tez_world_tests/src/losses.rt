//! Losses at chosen moments change no result.
use crate::worlds::{COUNTS, File, WC, WORDS, ends_with, next, step, sure_world};
use std::alloc::Global;
use std::test::Fail;
use tez_events::{CoreEvent, Entry};
use tez_ids::{TaskId, VertexId};
use tez_ports_mem::{SureDisk, SureStore};
use tez_world::{Event, Took, World};

/// A sum over one place.
const ONE_PLACE: &str =
    "{\"name\":\"one\",\"vertices\":[{\"name\":\"src\",\"tasks\":1,\"source\":\"in.txt\",\"head\":{\"op\":\"each\"}},{\"name\":\"agg\",\"tasks\":1,\"head\":{\"op\":\"sum\",\"value\":1},\"sink\":\"out\"}],\"edges\":[{\"from\":\"src\",\"to\":\"agg\",\"movement\":\"SCATTER_GATHER\",\"keys\":[0]}],\"conf\":{\"nodes\":1,\"per_node\":1}}";

/// What a run over one place writes down where the output of its first task is lost once it is made.
const LOST: &str =
    "open 1\nconfig 0 1 1\nconfig 1 1 1\nqueue 1.0.0.0\nplace 1.0.0.0 0 0\norder 1.0.0.0\ndone 1.0.0.0\nmade 1.0.0.0 0 4\noutputlost 1.0.0.0\nqueue 1.1.0.0\nplace 1.1.0.0 0 0\nreaderror 1.1.0.0 0 0 1.0.0.0\nrerun 1.0.0.0\ninputfailed 1.1.0.0 0 0 1.0.0.0\nqueue 1.0.0.1\nkill 1.1.0.0 preempt\nqueue 1.1.0.1\nplace 1.0.0.1 0 0\norder 1.0.0.1\ndone 1.0.0.1\nmade 1.0.0.1 0 4\nplace 1.1.0.1 0 0\nfetch 1.1.0.1 0 0 1.0.0.1\norder 1.1.0.1\ndone 1.1.0.1\nready 1\ncommit\npublish 1\nfinish\npurge\nend\n";

/// Orders by country: a lookup against users that are broadcast to it, then a sum.
const ORDERS: &str =
    "{\"name\":\"orders\",\"vertices\":[{\"name\":\"users\",\"tasks\":3,\"source\":\"users.txt\",\"head\":{\"op\":\"each\"}},{\"name\":\"orders\",\"tasks\":2,\"source\":\"orders.txt\",\"head\":{\"op\":\"lookup\",\"key\":[1],\"side_key\":[0]},\"steps\":[{\"op\":\"project\",\"cols\":[4,2]}]},{\"name\":\"by_country\",\"tasks\":2,\"head\":{\"op\":\"sum\",\"value\":1},\"sink\":\"out\"}],\"edges\":[{\"from\":\"users\",\"to\":\"orders\",\"movement\":\"BROADCAST\"},{\"from\":\"orders\",\"to\":\"by_country\",\"movement\":\"SCATTER_GATHER\",\"keys\":[0]}]}";

const ORDERS_FILES: [File; 2] = [
    ("users.txt", "ann\tFR\nbob\tDE\n"),
    ("orders.txt", "o1\tann\t30\no2\tbob\t15\no3\tann\t12\n"),
];

/// When a loss comes.
#[derive(Clone, Copy)]
enum When {
    /// Once the trace has so many entries.
    At(usize),
    /// Once this task has succeeded.
    On(TaskId),
    /// Once so many events were taken.
    Changed(usize),
}

fn has_succeeded(entries: &[Entry], task: TaskId) -> bool {
    for entry in entries {
        if let Entry::Succeeded(a) = entry {
            if a.task == task {
                return true;
            }
        }
    }
    false
}

fn is_due(entries: &[Entry], changed: usize, when: When) -> bool {
    match when {
        When::At(many) => entries.len() >= many,
        When::On(task) => has_succeeded(entries, task),
        When::Changed(many) => changed >= many,
    }
}

/// Drives a world until a loss is due, and loses it.
fn lose(
    alloc: Global,
    world: &mut World<SureDisk, SureStore>,
    when: When,
    loss: CoreEvent,
) -> Result<(), Fail> {
    let mut changed = 0usize;
    for _turn in 0..1000 {
        if is_due(world.trace().entries(), changed, when) {
            step(alloc, world, Event::Core(loss))?;
            return Ok(());
        }
        let Some(event) = next(alloc, world) else {
            return Err(Fail::new("nothing is next"));
        };
        match step(alloc, world, event)? {
            Took::Changed => changed = changed.saturating_add(1),
            Took::Ended(_) => return Err(Fail::new("the loss was not due")),
            Took::Ignored(_) => {}
        }
    }
    Err(Fail::new("no end"))
}

/// A job, what is lost and when, and what comes of it: the records and the text of its sink, and lines that
/// its trace has.
#[derive(Clone, Copy)]
struct Row {
    dag: &'static str,
    files: &'static [File],
    when: When,
    loss: CoreEvent,
    records: u64,
    sink: &'static str,
    lines: &'static str,
}

const NODE: Row = Row {
    dag: WC,
    files: &WORDS,
    when: When::Changed(8),
    loss: CoreEvent::LoseNode(0),
    records: 2,
    sink: COUNTS,
    lines: "\nnodelost 0 1\n",
};

const SOURCE: TaskId = TaskId {
    vertex: VertexId(0),
    index: 0,
};

const USERS: TaskId = TaskId {
    vertex: VertexId(0),
    index: 1,
};

const ROWS: [Row; 3] = [
    NODE,
    Row {
        dag: ONE_PLACE,
        files: &[("in.txt", "k\t5\n")],
        when: When::At(8),
        loss: CoreEvent::LoseOutput(SOURCE),
        records: 1,
        sink: "k\t5\n",
        lines: LOST,
    },
    // an output that is broadcast: a read misses it, and its task runs again
    Row {
        dag: ORDERS,
        files: &ORDERS_FILES,
        when: When::On(USERS),
        loss: CoreEvent::LoseOutput(USERS),
        records: 2,
        sink: "DE\t15\nFR\t42\n",
        lines: " 0 1 1.0.1.0\nrerun 1.0.1.0\n",
    },
];

#[test]
fn a_loss_changes_no_result(rt: HostRuntime) -> Result<(), Fail> {
    let alloc = rt.alloc();
    for row in &ROWS {
        let mut world = sure_world(alloc, row.dag, row.files)?;
        lose(alloc, &mut world, row.when, row.loss)?;
        ends_with(&rt, alloc, world, row.records, row.sink, row.lines)?;
    }
    Ok(())
}

#[test]
fn a_node_may_be_lost_at_any_moment(rt: HostRuntime) -> Result<(), Fail> {
    let alloc = rt.alloc();
    for at in 1..30 {
        let mut world = sure_world(alloc, NODE.dag, NODE.files)?;
        lose(alloc, &mut world, When::At(at), NODE.loss)?;
        ends_with(&rt, alloc, world, NODE.records, NODE.sink, "")?;
    }
    Ok(())
}
