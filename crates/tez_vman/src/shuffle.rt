ghost use Rattle.std.specs.Prelude.{◌≡◌, ◌≤◌, ◌<◌, ◌^◌};
ghost use Rattle.tez_vman.specs.Rules.{Gathers, Shuffling, shrunk};

use crate::{Config, Seen, VertexManager};
use tez_shrink::{base_of, slow_start, tasks_of, wanted};

/// Of a vertex that gathers partitions. With `auto_parallel` it waits for enough finished source
/// tasks to tell how many tasks of its own it needs. It starts its tasks slowly: none below the
/// fraction `min_src` of finished source tasks, and all from `max_src` on.
#[derive(Clone, Copy)]
pub struct Shuffle {
    /// The planned tasks: so many partitions has each output.
    pub parts: u32,
    /// Whether the vertex may shrink to fewer tasks.
    pub auto_parallel: bool,
    /// In thousandths.
    pub min_src: u16,
    /// In thousandths.
    pub max_src: u16,
    /// Bytes wanted for each task when shrinking.
    pub desired_bytes: u64,
    /// The least number of tasks wanted when shrinking.
    pub min_tasks: u32,
    pub ghost some: { 1 ≤ parts },
    pub ghost ordered: { min_src ≤ max_src },
    pub ghost whole: { max_src ≤ 1000 },
    pub ghost bytes: { 1 ≤ desired_bytes },
    pub ghost least: { 1 ≤ min_tasks },
}

impl VertexManager for Shuffle {
    ghost rule = { λ m. Gathers (record { parts = m.parts; auto_parallel = m.auto_parallel; min_src = m.min_src; max_src = m.max_src; desired_bytes = m.desired_bytes; min_tasks = m.min_tasks }) };

    fn configure(&self, seen: &Seen) -> Option<Config> {
        if !self.auto_parallel {
            return Some(Config {
                tasks: self.parts,
                base: 1,
            });
        }
        if !seen.configured || seen.finished < 1 {
            return None;
        }
        if 1000 * seen.finished < u64::from(self.min_src) * seen.sources {
            return None;
        }
        Some(shrink(self, seen))
    }

    fn to_schedule(&self, seen: &Seen) -> u32 {
        if !seen.configured {
            return 0;
        }
        slow_start(
            seen.finished,
            seen.sources,
            seen.tasks,
            self.min_src,
            self.max_src,
        )
    }
}

/// The tasks and partitions that suit the bytes to come in.
#[tactic(auto, using(crate::proofs::RuleLemmas::product_fits))]
fn shrink(m: &Shuffle, seen: &Seen) -> Config
    requires some { 1 ≤ seen.now.finished }
    requires few { seen.now.sources < 2 ^ 32 }
    requires bytes { seen.now.bytes < 2 ^ 96 }
    ensures { result ≡ shrunk (record { parts = m.now.parts; auto_parallel = m.now.auto_parallel; min_src = m.now.min_src; max_src = m.now.max_src; desired_bytes = m.now.desired_bytes; min_tasks = m.now.min_tasks }) seen.now }
{
    let tasks = wanted(
        seen.sources,
        seen.finished,
        seen.bytes,
        m.desired_bytes,
        m.min_tasks,
    );
    let base = base_of(m.parts, tasks);
    Config {
        tasks: tasks_of(m.parts, base),
        base,
    }
}
