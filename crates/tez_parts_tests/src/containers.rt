//! The numbers of containers where none is used again.
use std::process::Abort;
use tez_ids::{AttemptId, ContainerId, Epoch, TaskId, VertexId};
use tez_pool::Pool;

fn attempt(index: u32) -> AttemptId {
    AttemptId {
        epoch: Epoch(1),
        task: TaskId {
            vertex: VertexId(0),
            index,
        },
        number: 0,
    }
}

#[derive(Clone, Copy)]
enum Call {
    Place(u32, u32),
    Release(u32),
    Lose(u32),
    Clear,
}

// Makes a call for an attempt of vertex 0, or for the node of a place.
fn make(rt: &impl Abort, pool: &mut Pool, call: Call) -> Option<ContainerId> {
    assert!(rt; pool.next_container().0 < 99);
    match call {
        Call::Place(index, place) => {
            let a = attempt(index);
            assert!(rt; pool.place_of(a).is_none());
            return pool.place(a, place);
        }
        Call::Release(index) => pool.release(attempt(index)),
        Call::Lose(place) => {
            assert!(rt; place < pool.places());
            let node = pool.node_of(place);
            assert!(rt; node.life < 9);
            pool.lose_node(node.slot);
        }
        Call::Clear => pool.clear(),
    }
    None
}

#[test]
fn containers_are_numbered_in_order(rt: HostRuntime) {
    // each call, with the container that it answers, the least free place and the next number
    let rows = [
        (Call::Place(0, 0), Some(0), Some(1), 4),
        (Call::Place(1, 1), Some(1), Some(2), 4),
        (Call::Place(2, 1), None, Some(2), 4),
        (Call::Release(1), None, Some(1), 5),
        (Call::Lose(1), None, Some(0), 7),
        (Call::Place(3, 3), Some(3), Some(0), 7),
        (Call::Place(4, 1), Some(6), Some(0), 7),
        (Call::Clear, None, Some(0), 9),
    ];
    let mut pool = Pool::new(rt.alloc(), 2, 2, false).expect(&rt, "memory");
    for (call, container, free, next) in rows {
        let answer = make(&rt, &mut pool, call);
        assert_eq!(rt; answer.map(|c| c.0), container);
        assert_eq!(rt; pool.free_place(), free);
        assert_eq!(rt; pool.next_container().0, next);
    }
}
