//! Files and folders of the system.
use std::fs;
use std::test::Fail;
use tez_ids::{AttemptId, Epoch, TaskId, VertexId};
use tez_ports::{DeviceStop, InputFiles, JournalDisk, OutputStore, ReadFault, StoreFault};
use tez_ports_real::{FileDisk, FolderFiles, FolderStore};

#[test]
fn reads_files_of_the_folder(rt: HostRuntime) -> Result<(), Fail> {
    let alloc = rt.alloc();
    fs::create_dir(&rt, "in")?;
    fs::write(&rt, "in/a.txt", "one\n")?;
    let mut files = FolderFiles::new(alloc, &rt);
    let wants = [
        ("in/a.txt", 4, Ok("one\n")),
        ("in/a.txt", u64::MAX, Ok("one\n")),
        ("in/a.txt", 3, Err(ReadFault::TooLarge)),
        ("in/a.txt", 0, Err(ReadFault::TooLarge)),
        ("in/b.txt", 4, Err(ReadFault::Missing)),
        ("in", 4, Err(ReadFault::Failed)),
        // it has no end, so it is not read whole
        ("/dev/zero", 4, Err(ReadFault::TooLarge)),
    ];
    for want in wants.iter() {
        match files.read(alloc, want.0, want.1) {
            Ok(bytes) => {
                assert_eq!(rt;
                    Some(bytes.as_slice()),
                    want.2.ok().map(|text| text.as_bytes())
                )
            }
            Err(fault) => assert_eq!(rt; Some(fault), want.2.err(), "{}", want.0),
        }
    }
    Ok(())
}

fn attempt(number: u64) -> AttemptId {
    AttemptId {
        epoch: Epoch(u64::MAX),
        task: TaskId {
            vertex: VertexId(u16::MAX),
            index: u32::MAX,
        },
        number,
    }
}

#[test]
fn publishes_sinks_of_the_folder(rt: HostRuntime) -> Result<(), Fail> {
    let alloc = rt.alloc();
    let mut store = FolderStore::new(alloc, &rt);
    let mut long = String::new(alloc);
    for _ in 0..255 {
        long.push('s')?;
    }
    let long = long.as_str();
    assert_eq!(rt; store.purge(), Ok(()));
    assert_eq!(rt; store.is_published(long), Ok(false));
    assert_eq!(rt; store.ready(long, b"old"), Ok(()));
    assert_eq!(rt; store.ready("kept", b"ab\nb\n"), Ok(()));
    assert_eq!(rt; store.ready(long, b"new"), Ok(()));
    assert_eq!(rt; store.publish(long), Ok(()));
    assert_eq!(rt; store.publish("kept"), Ok(()));
    assert_eq!(rt; store.publish("kept"), Err(DeviceStop::Failed));
    assert_eq!(rt; store.is_published(long), Ok(true));
    let path = format!(in alloc; "tez.out/{long}")?;
    assert_eq!(rt; fs::read_to_string(&rt, path.as_str())?.as_str(), "new");
    assert_eq!(rt;
        fs::read_to_string(&rt, "tez.out/kept")?.as_str(),
        "ab\nb\n"
    );
    Ok(())
}

#[test]
fn stages_bytes_in_the_folder(rt: HostRuntime) -> Result<(), Fail> {
    let alloc = rt.alloc();
    let mut store = FolderStore::new(alloc, &rt);
    assert_eq!(rt; store.stage(attempt(0), b"old"), Ok(()));
    assert_eq!(rt; store.stage(attempt(0), b"new"), Ok(()));
    assert_eq!(rt; store.stage(attempt(u64::MAX), b""), Ok(()));
    let mut later = FolderStore::new(alloc, &rt);
    assert_eq!(rt;
        later.load(alloc, attempt(0))?.as_slice(),
        b"new".as_slice()
    );
    assert_eq!(rt; later.load(alloc, attempt(u64::MAX))?.len(), 0);
    assert_eq!(rt;
        later.load(alloc, attempt(1)).err(),
        Some(StoreFault::Failed)
    );
    assert_eq!(rt; later.ready("kept", b"ab"), Ok(()));
    assert_eq!(rt; later.publish("kept"), Ok(()));
    assert_eq!(rt; later.ready("next", b"c"), Ok(()));
    assert_eq!(rt; later.purge(), Ok(()));
    assert_eq!(rt;
        later.load(alloc, attempt(0)).err(),
        Some(StoreFault::Failed)
    );
    assert_eq!(rt; later.publish("next"), Err(DeviceStop::Failed));
    for entry in fs::read_dir(&rt, "tez.out")? {
        assert!(rt;
            !entry?.file_name().starts_with('.'),
            "a file of its own is left"
        );
    }
    assert_eq!(rt; later.is_published("kept"), Ok(true));
    Ok(())
}

#[test]
fn keeps_the_file_of_the_journal(rt: HostRuntime) -> Result<(), Fail> {
    fs::write(&rt, "tez.journal", "old")?;
    let mut disk = FileDisk::new(&rt);
    disk.reserve(6)?;
    assert_eq!(rt; disk.size(), Ok(3));
    assert_eq!(rt; disk.write_at(3, b"new"), Ok(()));
    assert_eq!(rt; disk.write_at(1, b"-"), Ok(()));
    assert_eq!(rt; disk.sync(), Ok(()));
    disk.power_cut();
    let mut into = [0u8; 5];
    let mut later = FileDisk::new(&rt);
    later.reserve(1)?;
    assert_eq!(rt; later.read_at(1, &mut into), Ok(()));
    assert_eq!(rt; into.as_slice(), b"-dnew".as_slice());
    assert_eq!(rt; later.size(), Ok(6));
    assert_eq!(rt; later.read_at(2, &mut into), Err(DeviceStop::Failed));
    assert_eq!(rt; later.write_at(u64::MAX, b""), Err(DeviceStop::Failed));
    assert_eq!(rt; fs::read_to_string(&rt, "tez.journal")?.as_str(), "o-dnew");
    fs::remove_file(&rt, "tez.journal")?;
    assert_eq!(rt; FileDisk::new(&rt).sync(), Ok(()));
    assert_eq!(rt; fs::read_to_string(&rt, "tez.journal")?.as_str(), "");
    Ok(())
}
