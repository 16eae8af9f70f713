//! The parts of a master that begins.
ghost use Rattle.std.specs.Prelude.{◌≡◌, IfOk, IfErr};
ghost use Rattle.tez_pool.specs.Victim.{AreIn};
ghost use Rattle.tez_master_model.specs.Vertices.{AreRestorable};
ghost use Rattle.tez_master_model.specs.Recovery.{found, CanBeFound};
ghost use Rattle.tez_master_model.specs.Fresh.{fresh};
ghost use Rattle.tez_lead.specs.Found.{HasVersion};

use crate::parts::Lead;
use std::alloc::Global;
use tez_conf::Conf;
use tez_core::{Core, Kept};
use tez_ids::Epoch;
use tez_plan::Plan;
use tez_pool::Pool;
use tez_queue::TaskQueue;
use tez_standing::Standing;

impl Lead {
    /// The parts of a master that begins with these places, and goes on from what the journal tells of
    /// those before it and from the winners that it keeps. A commit that an earlier master started is
    /// taken up, where the journal is of version 2: only such a one tells which sinks are recorded. The
    /// places are handed back where there is no memory. Takes time in the tasks, and for each winner in
    /// the vertices and edges.
    pub fn fresh(
        alloc: Global,
        plan: Plan,
        conf: Conf,
        epoch: Epoch,
        s: &Standing,
        kept: &[Kept],
        pool: Pool,
    ) -> Result<Lead, Pool>
        // `Pool::is_within` is the test of this.
        requires within { AreIn plan pool.places }
        requires places { pool.per_node ≡ conf.per_node }
        requires version { HasVersion s.now }
        requires found { CanBeFound (fresh plan conf epoch.0 pool) s.now kept.now }
        ensures state { IfOk result (λ m. m ≡ found (fresh plan conf epoch.0 pool) s.now kept.now) }
        ensures handed_back { IfErr result (λ back. back ≡ pool) }
    {
        let mut lead = match Lead::new(alloc, plan, conf, epoch, pool) {
            Ok(lead) => lead,
            Err(pool) => return Err(pool),
        };
        match lead.find(alloc, s, kept) {
            Ok(()) => Ok(lead),
            Err(_) => Err(lead.into_pool()),
        }
    }

    // The parts of a master that begins with these places: nothing is configured, queued or won.
    fn new(alloc: Global, plan: Plan, conf: Conf, epoch: Epoch, pool: Pool) -> Result<Lead, Pool>
        requires within { AreIn plan pool.places }
        requires places { pool.per_node ≡ conf.per_node }
        ensures fresh { IfOk result (λ m. m ≡ fresh plan conf epoch.0 pool) }
        ensures limits { IfOk result (λ m. AreRestorable m.conf m.vertices) }
        ensures handed_back { IfErr result (λ back. back ≡ pool) }
    {
        let queue = match TaskQueue::new(alloc, &plan) {
            Ok(queue) => queue,
            Err(_) => return Err(pool),
        };
        let core = match Core::new(alloc, plan, conf, epoch, pool) {
            Ok(core) => core,
            Err(pool) => return Err(pool),
        };
        Ok(Lead { core, queue })
    }

    /// The places alone.
    pub fn into_pool(self) -> Pool
        ensures { result ≡ self.pool }
    {
        self.core.into_pool()
    }

    /// All that the parts tell.
    pub fn core(&self) -> &Core
        ensures { result.now ≡ self.now }
    {
        &self.core
    }
}
