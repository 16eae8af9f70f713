//! Each edge manager and each vertex manager as one by its trait.
ghost use Rattle.std.specs.Prelude.{◌≡◌, ◌≤◌, ◌<◌, ◌^◌};
ghost use Rattle.tez_vman.specs.Rules.{HasSources};

use std::alloc::{AllocError, Global};
use tez_edges::{Broadcast, EdgeManager, Manager, OneToOne, ScatterGather};
use tez_vman::{Config, Immediate, InputReady, Seen, Shuffle, VertexManager};

fn routes_of<M: EdgeManager>(alloc: Global, m: &M) -> Result<Vec<(u32, u32)>, AllocError> {
    let mut all = Vec::new(alloc);
    for source in 0..m.sources() {
        for output in 0..m.outputs_of(source) {
            for pair in m.route(alloc, source, output)? {
                all.push(pair)?;
            }
        }
    }
    Ok(all)
}

#[test]
fn each_edge_manager_has_its_routes(rt: HostRuntime) -> Result<(), AllocError> {
    let one = Manager::OneToOne(OneToOne { tasks: 2 });
    let all = Manager::Broadcast(Broadcast {
        sources: 2,
        consumers: 3,
    });
    let some = Manager::ScatterGather(ScatterGather {
        sources: 1,
        parts: 10,
        base: 3,
    });
    let rows: [(Manager, &[(u32, u32)]); 3] = [
        (one, &[(0, 0), (1, 0)]),
        (all, &[(0, 0), (1, 0), (2, 0), (0, 1), (1, 1), (2, 1)]),
        (
            some,
            &[
                (0, 0),
                (0, 1),
                (0, 2),
                (1, 0),
                (1, 1),
                (1, 2),
                (2, 0),
                (2, 1),
                (2, 2),
                (3, 0),
            ],
        ),
    ];
    for (manager, routes) in &rows {
        assert_eq!(rt; routes_of(rt.alloc(), manager)?.as_slice(), *routes);
    }
    Ok(())
}

#[test]
fn a_consumer_takes_a_run_of_partitions(rt: HostRuntime) {
    let m = ScatterGather {
        sources: 2,
        parts: 10,
        base: 3,
    };
    assert_eq!(rt; m.consumers(), 4);
    assert_eq!(rt; m.inputs_of(3), 2);
    assert_eq!(rt; m.route_error(0, 4), (1, 1));
    assert_eq!(rt; m.route_error(3, 1), (1, 9));
}

fn eight_partitions() -> Shuffle {
    Shuffle {
        parts: 8,
        auto_parallel: false,
        min_src: 250,
        max_src: 750,
        desired_bytes: 10,
        min_tasks: 1,
    }
}

// Four source tasks that have finished, and eight tasks of the vertex.
fn four_sources() -> Seen
    ensures sources { result.sources ≡ 4 }
    ensures finished { result.finished ≡ 4 }
    ensures bytes { result.bytes ≡ 40 }
{
    Seen {
        sources: 4,
        configured: true,
        finished: 4,
        bytes: 40,
        tasks: 8,
    }
}

fn started<M: VertexManager>(m: &M, seen: &Seen) -> (Option<Config>, u32)
    requires finished { seen.now.finished ≤ seen.now.sources }
    requires few { seen.now.sources < 2 ^ 32 }
    requires some { HasSources (M.rule m.now) seen.now }
    requires bytes { seen.now.bytes < 2 ^ 96 }
{
    (m.configure(seen), m.to_schedule(seen))
}

#[test]
fn each_vertex_manager_configures_and_schedules(rt: HostRuntime) {
    let seen = four_sources();
    assert_eq!(rt;
        started(&Immediate { tasks: 8 }, &seen),
        (Some(Config { tasks: 8, base: 1 }), 8)
    );
    assert_eq!(rt;
        started(&InputReady {}, &seen),
        (Some(Config { tasks: 4, base: 1 }), 8)
    );
    assert_eq!(rt;
        started(&eight_partitions(), &seen),
        (Some(Config { tasks: 8, base: 1 }), 8)
    );
}
