ghost use Rattle.std.specs.Prelude.{◌≡◌, ◌≤◌, ◌<◌, ◌^◌};
ghost use Rattle.tez_vman.specs.Rules.{Rule, HasSources, StartsAll, configures, schedules};

use crate::{Config, Seen};

/// When the tasks of a vertex are fixed, and how many are to be scheduled.
pub trait VertexManager {
    /// The rule that it goes by.
    ghost rule: { Self → Rule };

    /// What the vertex is configured with, None as long as it is not to be configured.
    fn configure(&self, seen: &Seen) -> Option<Config>
        requires finished { seen.now.finished ≤ seen.now.sources }
        requires few { seen.now.sources < 2 ^ 32 }
        requires some { HasSources (rule self.now) seen.now }
        requires bytes { seen.now.bytes < 2 ^ 96 }
        ensures { result ≡ configures (rule self.now) seen.now };

    /// How many tasks of the vertex are to be scheduled, first ones first. A vertex that is fed one
    /// to one moreover waits for the source task of each.
    fn to_schedule(&self, seen: &Seen) -> u32
        requires finished { seen.now.finished ≤ seen.now.sources }
        requires few { seen.now.sources < 2 ^ 32 }
        requires some { HasSources (rule self.now) seen.now }
        requires bytes { seen.now.bytes < 2 ^ 96 }
        ensures { result ≡ schedules (rule self.now) seen.now };
}

/// Once all source tasks have finished, every vertex is configured and has all its tasks to
/// schedule.
pub fn sources_finished()
    ensures { (r : Rule) (seen : Seen) → StartsAll r seen }
{}
