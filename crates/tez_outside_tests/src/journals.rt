//! Journals over disks in memory.
ghost use Rattle.std.specs.Prelude.{OnOk};
ghost use Rattle.tez_events.specs.Body.{HasBody};
ghost use Rattle.tez_journal.specs.Gate.{IsOpenAt};
ghost use Rattle.tez_journal.specs.Journal.{disk_of, gate_of};

use std::alloc::Global;
use std::process::Abort;
use tez_events::{JournalRecord, encode};
use tez_ids::{AttemptId, Epoch, TaskId, VertexId};
use tez_journal::{Journal, JournalFault};
use tez_ports::{DeviceStop, JournalDisk};
use tez_ports_mem::{MemDisk, Picker, SureDisk};

// The record of a place in the journals below.
fn row(place: usize) -> JournalRecord
    ensures { HasBody result }
{
    match place {
        0 => JournalRecord::Opened { epoch: Epoch(1) },
        1 => JournalRecord::Configured {
            vertex: VertexId(0),
            tasks: 5,
            base: 1,
        },
        2 => JournalRecord::TaskSucceeded {
            attempt: AttemptId {
                epoch: Epoch(1),
                task: TaskId {
                    vertex: VertexId(0),
                    index: 2,
                },
                number: 3,
            },
        },
        _ => JournalRecord::Finished,
    }
}

// What tells the rows from one another.
fn mark(record: &JournalRecord) -> (u8, u64) {
    match record {
        JournalRecord::Opened { epoch } => (2, epoch.0),
        JournalRecord::Configured { tasks, .. } => (3, *tasks as u64),
        JournalRecord::TaskSucceeded { attempt } => (4, attempt.number),
        JournalRecord::Finished => (7, 0),
        _ => (0, 0),
    }
}

fn add<D: JournalDisk>(
    rt: &impl Abort,
    alloc: Global,
    journal: &mut Journal<D>,
    entry: &JournalRecord,
    synced: bool,
) -> Result<(), DeviceStop>
    requires body { HasBody entry.now }
    requires sound { IsOpenAt (D.disk (disk_of journal.old)) (gate_of journal.old) }
    ensures sound { OnOk result (IsOpenAt (D.disk (disk_of journal.new)) (gate_of journal.new)) }
{
    let body = encode(alloc, entry).expect(rt, "memory");
    assert!(rt; body.len() < 1000);
    journal.reserve(body.len() as u32).expect(rt, "memory");
    if synced {
        journal.append_synced(&body)
    } else {
        journal.append(&body)
    }
}

// Appends four records, the second one synced, and tells how many answered Ok.
fn append_four<D: JournalDisk>(rt: &impl Abort, alloc: Global, journal: &mut Journal<D>) -> usize
    requires { IsOpenAt (D.disk (disk_of journal.old)) (gate_of journal.old) }
{
    let Ok(()) = add(rt, alloc, journal, &row(0), false) else {
        return 0;
    };
    let Ok(()) = add(rt, alloc, journal, &row(1), true) else {
        return 1;
    };
    let Ok(()) = add(rt, alloc, journal, &row(2), false) else {
        return 2;
    };
    match add(rt, alloc, journal, &row(3), false) {
        Ok(()) => 4,
        Err(_) => 3,
    }
}

// From `least` up to `most` of the rows.
fn shows(rt: &impl Abort, records: &[JournalRecord], least: usize, most: usize) {
    assert!(rt; least <= records.len() && records.len() <= most);
    for place in 0..records.len() {
        assert_eq!(rt; mark(&records[place]), mark(&row(place)));
    }
}

// The disk's journal has from `least` up to `most` of the rows, also after a stop while it is opened.
fn reopens(rt: &impl Abort, alloc: Global, disk: MemDisk, least: usize, most: usize) {
    match Journal::open(alloc, disk) {
        Ok((_journal, records)) => shows(rt, &records, least, most),
        Err((mut disk, fault)) => {
            assert_eq!(rt; fault, JournalFault::Stopped);
            disk.power_cut();
            match Journal::open(alloc, disk) {
                Ok((_journal, records)) => shows(rt, &records, least, most),
                Err((_disk, _fault)) => panic!(rt; "open"),
            }
        }
    }
}

// Stops at a device call, cuts the power and opens again.
fn stops_at(rt: &impl Abort, alloc: Global, call: u64, pick: Picker) {
    let stop = vec![in alloc; call; 1].expect(rt, "memory");
    let disk = MemDisk::new(Vec::new(alloc), Vec::new(alloc), stop, pick, alloc);
    match Journal::open(alloc, disk) {
        Ok((mut journal, records)) => {
            assert!(rt; records.is_empty());
            let done = append_four(rt, alloc, &mut journal);
            let mut disk = journal.into_disk();
            disk.power_cut();
            match done {
                0 => reopens(rt, alloc, disk, 0, 1),
                1 => reopens(rt, alloc, disk, 0, 2),
                2 => reopens(rt, alloc, disk, 2, 3),
                3 => reopens(rt, alloc, disk, 2, 4),
                _ => reopens(rt, alloc, disk, 3, 4),
            }
        }
        Err((mut disk, fault)) => {
            assert_eq!(rt; fault, JournalFault::Stopped);
            disk.power_cut();
            reopens(rt, alloc, disk, 0, 0);
        }
    }
}

#[test]
fn a_stop_at_each_call_and_each_cut(rt: HostRuntime) {
    let alloc = rt.alloc();
    let picks = [
        Picker::Keep,
        Picker::Drop,
        Picker::Fill(0),
        Picker::Fill(1),
        Picker::Fill(255),
    ];
    for pick in &picks {
        for call in 1..20 {
            stops_at(&rt, alloc, call, *pick);
        }
    }
}

#[test]
fn the_bytes_of_two_appends(rt: HostRuntime) {
    let alloc = rt.alloc();
    let disk = SureDisk::new(Vec::new(alloc), Picker::Drop, alloc);
    let Ok((mut journal, records)) = Journal::open(alloc, disk) else {
        panic!(&rt; "open");
    };
    assert!(rt; records.is_empty());
    assert_eq!(rt; add(&rt, alloc, &mut journal, &row(0), false), Ok(()));
    let disk = journal.into_disk();
    let one = [1, 9, 0, 0, 0, 2, 1, 0, 0, 0, 0, 0, 0, 0, 0];
    assert_eq!(rt; disk.content(), one.as_slice());
    let Ok((mut journal, records)) = Journal::open(alloc, disk) else {
        panic!(&rt; "open");
    };
    assert_eq!(rt; records.len(), 1);
    assert_eq!(rt; add(&rt, alloc, &mut journal, &row(3), true), Ok(()));
    let two = [
        1, 9, 0, 0, 0, 2, 1, 0, 0, 0, 0, 0, 0, 0, 1, 1, 0, 0, 0, 7, 0,
    ];
    assert_eq!(rt; journal.into_disk().content(), two.as_slice());
}

// Opening a content of a few bytes, with the first of the listed calls failing.
fn opens(rt: &impl Abort, alloc: Global, bytes: &[u8], fail: u64) -> Result<usize, JournalFault> {
    assert!(rt; bytes.len() < 1000);
    let content = bytes.to_vec(alloc).expect(rt, "memory");
    let fail = vec![in alloc; fail; 1].expect(rt, "memory");
    let disk = MemDisk::new(content, fail, Vec::new(alloc), Picker::Keep, alloc);
    match Journal::open(alloc, disk) {
        Ok((_journal, records)) => Ok(records.len()),
        Err((_disk, fault)) => Err(fault),
    }
}

#[test]
fn opened_and_refused(rt: HostRuntime) {
    let alloc = rt.alloc();
    let rows: [(&[u8], Result<usize, JournalFault>); 8] = [
        (&[1, 1, 0, 0, 0, 7, 0], Ok(1)),
        (&[1, 1, 0, 0, 0, 9, 0], Err(JournalFault::Refused)),
        (&[1, 0, 0, 0, 0, 0], Err(JournalFault::Refused)),
        (&[1, 1, 0, 0, 0, 7], Err(JournalFault::Refused)),
        (&[1, 255], Err(JournalFault::Refused)),
        (&[2, 0], Ok(0)),
        (&[1], Ok(0)),
        (&[], Ok(0)),
    ];
    for row in &rows {
        assert_eq!(rt; opens(&rt, alloc, row.0, 0), row.1);
    }
    for call in 1..3 {
        assert_eq!(rt;
            opens(&rt, alloc, rows[0].0, call),
            Err(JournalFault::Failed)
        );
        assert_eq!(rt;
            opens(&rt, alloc, rows[7].0, call),
            Err(JournalFault::Failed)
        );
    }
}
