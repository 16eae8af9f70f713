//! The parts.
use crate::locations::Locations;
use std::marker::Model;
use tez_conf::Conf;
use tez_ids::Epoch;
use tez_plan::Plan;
use tez_pool::Pool;
use tez_router::Router;
use tez_schedule::Schedule;
use tez_vertex::VertexMachine;

/// The parts of a master that is up, and what it knows beside them.
#[derive(Drop)]
pub struct Core {
    pub(crate) plan: Plan,
    pub(crate) conf: Conf,
    pub(crate) epoch: Epoch,
    pub(crate) vertices: Vec<VertexMachine>,
    pub(crate) pool: Pool,
    pub(crate) router: Router,
    pub(crate) schedule: Schedule,
    pub(crate) locations: Vec<Locations>,
    pub(crate) readied: Vec<bool>,
    pub(crate) asked: Vec<bool>,
    pub(crate) recorded: u32,
    pub(crate) committing: bool,
    pub(crate) found: bool,
    pub(crate) finished: bool,
    pub(crate) up: bool,
}

impl Model for Core {
    ghost use Rattle.tez_master_model.specs.State.{MasterState};

    ghost Value = { MasterState };

    ghost view = { λ m. record { plan = m.plan; conf = m.conf; epoch = m.epoch.0; vertices = m.vertices.items; pool = m.pool; router = m.router; schedule = m.schedule; locations = m.locations.items; readied = m.readied.items; asked = m.asked.items; recorded = m.recorded; committing = m.committing; found = m.found; finished = m.finished; up = m.up } };
}
