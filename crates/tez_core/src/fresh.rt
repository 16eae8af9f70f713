//! The parts of a master that begins.
ghost use Rattle.std.specs.Prelude.{◌≡◌, ◌<◌, false, map, length, replicate, IfOk, IfErr};
ghost use Rattle.tez_plan.specs.Dag.{vertex};
ghost use Rattle.tez_vertex.specs.Table.{new_vertex};
ghost use Rattle.tez_master_model.specs.Vertices.{new_vertices};
ghost use Rattle.tez_router.specs.Planned.{planned_router};
ghost use Rattle.tez_schedule.specs.Planned.{planned_schedule};
ghost use Rattle.tez_master_model.specs.Fresh.{fresh, no_locations};

use crate::locations::Locations;
use crate::parts::Core;
use std::alloc::{AllocError, Global};
use tez_conf::Conf;
use tez_ids::{Epoch, VertexId};
use tez_plan::{Plan, VertexSpec};
use tez_pool::Pool;
use tez_router::Router;
use tez_schedule::Schedule;
use tez_vertex::VertexMachine;

// What a master begins with, beside its places.
#[derive(Drop)]
struct NewParts {
    vertices: Vec<VertexMachine>,
    router: Router,
    schedule: Schedule,
    locations: Vec<Locations>,
    readied: Vec<bool>,
    asked: Vec<bool>,
}

impl Core {
    /// The parts of a master that begins with these places: nothing is configured, queued or won. The
    /// places are handed back where there is no memory.
    pub fn new(
        alloc: Global,
        plan: Plan,
        conf: Conf,
        epoch: Epoch,
        pool: Pool,
    ) -> Result<Core, Pool>
        ensures fresh { IfOk result (λ m. m ≡ fresh plan conf epoch.0 pool) }
        ensures handed_back { IfErr result (λ back. back ≡ pool) }
    {
        let parts = match new_parts(alloc, &plan, &conf, epoch) {
            Ok(parts) => parts,
            Err(_) => return Err(pool),
        };
        let NewParts {
            vertices,
            router,
            schedule,
            locations,
            readied,
            asked,
        } = parts;
        Ok(Core {
            plan,
            conf,
            epoch,
            vertices,
            pool,
            router,
            schedule,
            locations,
            readied,
            asked,
            recorded: 0,
            committing: false,
            found: false,
            finished: false,
            up: true,
        })
    }

    /// The places alone.
    pub fn into_pool(self) -> Pool
        ensures { result ≡ self.pool }
    {
        self.pool
    }
}

fn new_parts(alloc: Global, plan: &Plan, conf: &Conf, epoch: Epoch) -> Result<NewParts, AllocError>
    ensures vertices { IfOk result (λ x. x.vertices.items ≡ new_vertices plan.now conf.now epoch.0) }
    ensures router { IfOk result (λ x. x.router ≡ planned_router plan.now) }
    ensures schedule { IfOk result (λ x. x.schedule ≡ planned_schedule plan.now conf.now) }
    ensures locations { IfOk result (λ x. x.locations.items ≡ map no_locations plan.now.vertices) }
    ensures readied { IfOk result (λ x. x.readied.items ≡ replicate (length plan.now.vertices) false) }
    ensures asked { IfOk result (λ x. x.asked.items ≡ replicate (length plan.now.vertices) false) }
{
    let count = plan.vertices().len();
    Ok(NewParts {
        vertices: new_vertices(alloc, plan, conf, epoch)?,
        router: Router::new(alloc, plan)?,
        schedule: Schedule::new(alloc, plan, conf)?,
        locations: no_locations(alloc, plan.vertices())?,
        readied: vec![in alloc; false; count]?,
        asked: vec![in alloc; false; count]?,
    })
}

fn new_vertices(
    alloc: Global,
    p: &Plan,
    c: &Conf,
    epoch: Epoch,
) -> Result<Vec<VertexMachine>, AllocError>
    ensures { IfOk result (λ vertices. vertices.items ≡ new_vertices p.now c.now epoch.0) }
{
    let mut vertices = Vec::new(alloc);
    let most = c.values().max_failed;
    for v in 0..p.vertices().len() as u16 {
        vertices.push(new_vertex(alloc, v, epoch, most))?;
    }
    Ok(vertices)
}

fn new_vertex(alloc: Global, v: u16, epoch: Epoch, max_failed: u32) -> VertexMachine
    requires { 0 < max_failed }
    ensures { result ≡ new_vertex (vertex v) epoch.0 max_failed }
{
    VertexMachine::new(alloc, VertexId(v), epoch, max_failed)
}

fn no_locations(alloc: Global, vertices: &[VertexSpec]) -> Result<Vec<Locations>, AllocError>
    ensures { IfOk result (λ rows. rows.items ≡ map no_locations vertices.now) }
{
    let mut rows = Vec::with_capacity(alloc, vertices.len())?;
    for spec in vertices {
        rows.push(Locations::new(alloc, spec.tasks)?)?;
    }
    Ok(rows)
}
