ghost use Rattle.tez_vman.specs.Rules.{AtOnce};

use crate::{Config, Seen, VertexManager};

/// Of a vertex that reads a source. It has the planned tasks, and all start at once.
#[derive(Clone, Copy)]
pub struct Immediate {
    pub tasks: u32,
}

impl VertexManager for Immediate {
    ghost rule = { λ m. AtOnce m.tasks };

    fn configure(&self, _seen: &Seen) -> Option<Config> {
        Some(Config {
            tasks: self.tasks,
            base: 1,
        })
    }

    fn to_schedule(&self, seen: &Seen) -> u32 {
        seen.tasks
    }
}
