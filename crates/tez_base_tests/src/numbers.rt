//! Hashes of keys, and the formulas by which vertices shrink and start slowly.
use tez_partition::hash_key;
use tez_shrink::{base_of, ranges, slow_start, tasks_of, wanted};

#[test]
fn hashes_of_texts(rt: HostRuntime) {
    let cases: [(&[u8], u64, u64); 3] = [
        (b"", 14695981039346656037, 1),
        (b"a", 0xaf63dc4c8601ec8c, 0),
        (b"b", 0xaf63df4c8601f1a5, 1),
    ];
    for (bytes, hash, part) in cases {
        assert_eq!(rt; hash_key(bytes), hash);
        assert_eq!(rt; hash % 4, part);
    }
}

#[test]
fn tasks_for_partitions_and_bytes(rt: HostRuntime) {
    // partitions, tasks wanted, and the base and tasks that they give
    for (parts, tasks, base, count) in [(10, 3, 3, 4), (4, 3, 1, 4), (8, 9, 1, 8), (7, 1, 7, 1)] {
        assert_eq!(rt; base_of(parts, tasks), base, "base of {parts} for {tasks}");
        assert_eq!(rt; tasks_of(parts, base), count, "tasks of {parts} by {base}");
    }
    for (task, first, end) in [(0, 0, 3), (1, 3, 6), (2, 6, 9), (3, 9, 10)] {
        assert_eq!(rt; ranges(10, 3, task), (first, end), "task {task}");
    }
    // four source tasks, ten bytes a task
    for (finished, bytes, tasks) in [(1, 6, 3), (2, 30, 6)] {
        assert_eq!(rt;
            wanted(4, finished, bytes, 10, 1),
            tasks,
            "{finished} with {bytes} bytes"
        );
    }
    // of four source tasks, a quarter to three quarters, and eight tasks
    for (finished, tasks) in [(0, 0), (1, 0), (2, 4), (3, 8), (4, 8)] {
        assert_eq!(rt;
            slow_start(finished, 4, 8, 250, 750),
            tasks,
            "{finished} finished"
        );
    }
}
