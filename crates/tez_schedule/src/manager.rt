ghost use Rattle.tez_schedule.specs.Managers.{rule_of};

use tez_vman::{Config, Immediate, InputReady, Seen, Shuffle, VertexManager};

/// One of the three managers.
#[derive(Clone, Copy)]
pub enum AnyManager {
    Immediate(Immediate),
    InputReady(InputReady),
    Shuffle(Shuffle),
}

impl VertexManager for AnyManager {
    ghost rule = { rule_of };

    fn configure(&self, seen: &Seen) -> Option<Config> {
        match self {
            AnyManager::Immediate(m) => m.configure(seen),
            AnyManager::InputReady(m) => m.configure(seen),
            AnyManager::Shuffle(m) => m.configure(seen),
        }
    }

    fn to_schedule(&self, seen: &Seen) -> u32 {
        match self {
            AnyManager::Immediate(m) => m.to_schedule(seen),
            AnyManager::InputReady(m) => m.to_schedule(seen),
            AnyManager::Shuffle(m) => m.to_schedule(seen),
        }
    }
}
