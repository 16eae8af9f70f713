// What a container is to work.
ghost use Rattle.std.specs.Prelude.{◌≡◌, IsTrue, IfOk};
ghost use Rattle.tez_orders.specs.Fit.{is_order};

use crate::copies::{copy_inputs, copy_keys, copy_outs};
use crate::cut::Cut;
use std::alloc::{AllocError, Global};
use std::marker::Model;
use tez_ids::{AttemptId, EdgeId, VertexId};
use tez_operators::Inputs;
use tez_plan::{Columns, Program};

/// What an attempt is to do: run a program on inputs, and cut its value for edges. The inputs and
/// the key columns fit the head, each edge comes once, and each cut has at least one part.
#[derive(Drop)]
pub struct Order {
    attempt: AttemptId,
    place: u32,
    program: Program,
    keys: Vec<(VertexId, Columns)>,
    inputs: Inputs,
    outs: Vec<(EdgeId, Cut)>,
}

impl Model for Order {
    ghost use Rattle.std.specs.Prelude.{IsTrue};
    ghost use Rattle.tez_orders.specs.Orders.{OrderParts};
    ghost use Rattle.tez_orders.specs.Fit.{is_order};

    ghost Value = { OrderParts };

    ghost view = { λ o. record { attempt = o.attempt; place = o.place; program = o.program; keys = o.keys.items; inputs = o.inputs; outs = o.outs.items } };

    ghost invariant = { λ o. IsTrue (is_order o.program.head o.keys.items o.inputs o.outs.items) };
}

impl Order {
    /// The order of these parts, for the container of a place. `keys` has the vertices that feed
    /// the program by key, each with the key columns of its edge, the left one of a join first.
    /// `is_order` tells whether the parts fit.
    pub fn new(
        attempt: AttemptId,
        place: u32,
        program: Program,
        keys: Vec<(VertexId, Columns)>,
        inputs: Inputs,
        outs: Vec<(EdgeId, Cut)>,
    ) -> Order
        requires { IsTrue (is_order program.head keys.items inputs outs.items) }
        ensures { result ≡ record { attempt = attempt; place = place; program = program; keys = keys.items; inputs = inputs; outs = outs.items } }
    {
        Order {
            attempt,
            place,
            program,
            keys,
            inputs,
            outs,
        }
    }

    pub fn attempt(&self) -> AttemptId
        ensures { result ≡ self.now.attempt }
    {
        self.attempt
    }

    /// The number of the container's place.
    pub fn place(&self) -> u32
        ensures { result ≡ self.now.place }
    {
        self.place
    }

    pub fn program(&self) -> &Program
        ensures { result.now ≡ self.now.program }
    {
        &self.program
    }

    pub fn keys(&self) -> &[(VertexId, Columns)]
        ensures { result.now ≡ self.now.keys }
    {
        self.keys.as_slice()
    }

    pub fn inputs(&self) -> &Inputs
        ensures { result.now ≡ self.now.inputs }
    {
        &self.inputs
    }

    pub fn outs(&self) -> &[(EdgeId, Cut)]
        ensures same { result.now ≡ self.now.outs }
        ensures fit { IsTrue (is_order self.now.program.head self.now.keys self.now.inputs result.now) }
    {
        self.outs.as_slice()
    }

    /// The same order for another place. Takes no memory.
    pub fn at_place(self, place: u32) -> Order
        ensures { result ≡ record self { place = place } }
    {
        Order {
            attempt: self.attempt,
            place,
            program: self.program,
            keys: self.keys,
            inputs: self.inputs,
            outs: self.outs,
        }
    }

    /// An equal order. Takes memory for all of it.
    pub fn copy(&self, alloc: Global) -> Result<Order, AllocError>
        ensures { IfOk result (λ copy. copy ≡ self.now) }
    {
        Ok(Order {
            attempt: self.attempt,
            place: self.place,
            program: Program {
                head: self.program.head.copy(alloc)?,
                steps: self.program.steps.copy(alloc)?,
            },
            keys: copy_keys(alloc, &self.keys)?,
            inputs: copy_inputs(alloc, &self.inputs)?,
            outs: copy_outs(alloc, &self.outs)?,
        })
    }
}
