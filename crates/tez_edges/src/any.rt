ghost use Rattle.tez_edges.specs.Managers.{table_of};
ghost use Rattle.tez_edges.specs.declared.any.Manager.TheVariants as manager;
ghost use Rattle.tez_tables.proofs.TableLemmas.{one_to_one_inside, broadcast_inside, scatter_gather_inside, one_to_one_covered, broadcast_covered, scatter_gather_covered};

use crate::{Broadcast, EdgeManager, OneToOne, ScatterGather};
use std::alloc::{AllocError, Global};

/// One of the three managers.
#[derive(Clone, Copy)]
pub enum Manager {
    OneToOne(OneToOne),
    Broadcast(Broadcast),
    ScatterGather(ScatterGather),
}

impl EdgeManager for Manager {
    ghost table = { table_of };

    fn sources(&self) -> u32 {
        match self {
            Manager::OneToOne(m) => m.sources(),
            Manager::Broadcast(m) => m.sources(),
            Manager::ScatterGather(m) => m.sources(),
        }
    }

    fn consumers(&self) -> u32 {
        match self {
            Manager::OneToOne(m) => m.consumers(),
            Manager::Broadcast(m) => m.consumers(),
            Manager::ScatterGather(m) => m.consumers(),
        }
    }

    fn inputs_of(&self, consumer: u32) -> u32 {
        match self {
            Manager::OneToOne(m) => m.inputs_of(consumer),
            Manager::Broadcast(m) => m.inputs_of(consumer),
            Manager::ScatterGather(m) => m.inputs_of(consumer),
        }
    }

    fn outputs_of(&self, source: u32) -> u32 {
        match self {
            Manager::OneToOne(m) => m.outputs_of(source),
            Manager::Broadcast(m) => m.outputs_of(source),
            Manager::ScatterGather(m) => m.outputs_of(source),
        }
    }

    fn route_error(&self, consumer: u32, input: u32) -> (u32, u32) {
        match self {
            Manager::OneToOne(m) => m.route_error(consumer, input),
            Manager::Broadcast(m) => m.route_error(consumer, input),
            Manager::ScatterGather(m) => m.route_error(consumer, input),
        }
    }

    fn route(
        &self,
        alloc: Global,
        source: u32,
        output: u32,
    ) -> Result<Vec<(u32, u32)>, AllocError> {
        match self {
            Manager::OneToOne(m) => m.route(alloc, source, output),
            Manager::Broadcast(m) => m.route(alloc, source, output),
            Manager::ScatterGather(m) => m.route(alloc, source, output),
        }
    }

    ghost inside = { elim [
      | manager.OneToOne m ↦ one_to_one_inside m.tasks
      | manager.Broadcast m ↦ broadcast_inside m.sources m.consumers
      | manager.ScatterGather m ↦ scatter_gather_inside m.sources m.parts m.base
    ] };

    ghost covered = { elim [
      | manager.OneToOne m ↦ one_to_one_covered m.tasks
      | manager.Broadcast m ↦ broadcast_covered m.sources m.consumers m.somewhere
      | manager.ScatterGather m ↦ scatter_gather_covered m.sources m.parts m.base m.based
    ] };
}
