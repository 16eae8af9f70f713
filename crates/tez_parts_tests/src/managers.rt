//! The manager of a scheduled vertex as one by its trait.
ghost use Rattle.std.specs.Prelude.{◌≤◌, ◌<◌, ◌^◌};
ghost use Rattle.tez_vman.specs.Rules.{HasSources};

use tez_schedule::AnyManager;
use tez_vman::{Config, InputReady, Seen, VertexManager};

fn tasks_of<M: VertexManager>(m: &M, seen: &Seen) -> Option<Config>
    requires finished { seen.now.finished ≤ seen.now.sources }
    requires few { seen.now.sources < 2 ^ 32 }
    requires some { HasSources (M.rule m.now) seen.now }
    requires bytes { seen.now.bytes < 2 ^ 96 }
{
    m.configure(seen)
}

#[test]
fn any_manager_is_a_manager(rt: HostRuntime) {
    let seen = Seen {
        sources: 4,
        configured: true,
        finished: 4,
        bytes: 0,
        tasks: 8,
    };
    assert_eq!(rt;
        tasks_of(&AnyManager::InputReady(InputReady {}), &seen),
        Some(Config { tasks: 4, base: 1 })
    );
}
