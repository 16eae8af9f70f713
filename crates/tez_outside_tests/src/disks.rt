//! What a cut of the power leaves of a disk in memory.
use std::alloc::Global;
use std::process::Abort;
use std::test::Fail;
use tez_ports::JournalDisk;
use tez_ports_mem::{MemDisk, Picker};

/// Takes room and writes, where the content reaches that far.
fn put(disk: &mut impl JournalDisk, start: u64, bytes: &[u8]) -> Result<(), Fail> {
    disk.reserve(bytes.len() as u64 + 1)?;
    if start <= disk.size()? {
        disk.write_at(start, bytes)?;
    }
    Ok(())
}

/// Writes behind a synced content and over it, the last in front of the first.
fn writes(rt: &impl Abort, disk: &mut impl JournalDisk) -> Result<(), Fail> {
    put(disk, 2, b"cde")?;
    assert_eq!(rt; disk.sync(), Ok(()));
    for (start, bytes) in [(4, &b"XYZ"[..]), (1, b"UV"), (7, b""), (8, b"never")] {
        put(disk, start, bytes)?;
    }
    assert_eq!(rt; disk.size(), Ok(7));
    Ok(())
}

fn disk(alloc: Global, fail: &[u64], stop: &[u64], pick: Picker) -> Result<MemDisk, Fail> {
    Ok(MemDisk::new(
        b"ab".to_vec(alloc)?,
        fail.to_vec(alloc)?,
        stop.to_vec(alloc)?,
        pick,
        alloc,
    ))
}

#[test]
fn a_power_cut_leaves_what_is_picked(rt: HostRuntime) -> Result<(), Fail> {
    let alloc = rt.alloc();
    let wants = [
        (Picker::Keep, b"aUVdXYZ".as_slice()),
        (Picker::Drop, b"abcde".as_slice()),
        (Picker::Fill(0), b"a\0\0d\0\0\0".as_slice()),
        (Picker::Fill(b'-'), b"a--d---".as_slice()),
    ];
    for want in wants.iter() {
        let mut disk = disk(alloc, &[], &[], want.0)?;
        writes(&rt, &mut &mut disk)?;
        assert_eq!(rt; disk.content(), b"aUVdXYZ".as_slice());
        disk.power_cut();
        assert_eq!(rt; disk.content(), want.1);
    }
    Ok(())
}
