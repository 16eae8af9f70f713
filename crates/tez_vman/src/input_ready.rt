ghost use Rattle.tez_vman.specs.Rules.{AsSources};

use crate::{Config, Seen, VertexManager};

/// Of a vertex that is fed one to one: it has as many tasks as its source vertex.
#[derive(Clone, Copy)]
pub struct InputReady {}

impl VertexManager for InputReady {
    ghost rule = { λ m. AsSources };

    fn configure(&self, seen: &Seen) -> Option<Config> {
        if !seen.configured {
            return None;
        }
        Some(Config {
            tasks: seen.sources as u32,
            base: 1,
        })
    }

    fn to_schedule(&self, seen: &Seen) -> u32 {
        seen.tasks
    }
}
