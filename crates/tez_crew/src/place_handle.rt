// The dispatcher's side of one place.
ghost use Rattle.std.specs.Prelude.{◌≡◌, ◌≤◌, ◌++◌, ◌∷◌, [], length, take, vec_len, OnOk, IfErr, OnErr, IsTrue, ◌↔◌};
ghost use Rattle.crossbeam_queue.specs.Passes.{view, IsPassOf, ruled_capacity};
ghost use Rattle.tez_crew.specs.Lists.{Begins};
ghost use Rattle.tez_crew.specs.Orders.{putter, taker};
ghost use Rattle.tez_crew.specs.Events.{getter, reporter};
ghost use Rattle.tez_crew.specs.Containers.{IsResultOf, IsSameContainer, WasFull};
ghost use Rattle.tez_crew.specs.Starts.{IsRunning};
ghost use Rattle.tez_crew.specs.declared.place_handle.ContainerThread.TheVariants.{Running, Refused};

use crate::book::PlaceRecord;
use crate::container::{Container, ContainerResult};
use crate::event_queue::{EventPass, JoinReporter};
use crate::order_queue::{OrderPass, PushOrder, PutIsTakenAndLeft, PutterAndTaker};
use std::sync::Wait;
use std::sync::atomic::Ordering;
use std::thread::{PromisedHandle, Threads};
use tez_ids::AttemptId;
use tez_orders::Order;

/// A container that runs, or one for which no thread could be made and which did nothing.
#[derive(Drop)]
pub enum ContainerThread<'a> {
    Running(PromisedHandle<ContainerResult, Container<'a>>),
    Refused(ContainerResult),
}

#[derive(Clone, Copy, PartialEq, Eq)]
pub enum Refusal {
    Busy,
    NoMemory,
}

#[derive(Drop)]
pub struct PlaceHandle<'a> {
    pub container: Container<'a>,
    pub pass: OrderPass,
    pub put: Vec<AttemptId>,
    pub start: ContainerThread<'a>,
    ghost puts: { IsPassOf container.mailbox.now.order_queue pass × (view pass ≡ putter put.items) × (ruled_capacity container.mailbox.now.order_queue ≡ 64) },
    ghost runs: { (h : _) → start ≡ Running h → IsSameContainer h.promise container },
    ghost refused: { (w : _) → start ≡ Refused w → IsResultOf container w },
}

impl<'a> PlaceHandle<'a> {
    pub fn is_running(&self) -> bool
        ensures { IsTrue result ↔ IsRunning self.now.start }
    {
        matches!(self.start, ContainerThread::Running(_))
    }

    pub fn offer<R: Wait>(&mut self, rt: &R, order: Order) -> Result<(), (Refusal, Order)>
        ensures queued { OnOk result (self.new.put.items ≡ self.old.put.items ++ order.attempt ∷ []) }
        ensures refused { IfErr result (λ e. (e.1 ≡ order) × (self.new.put.items ≡ self.old.put.items)) }
        ensures full { IfErr result (λ e. e.0 ≡ Refusal.Busy → WasFull self.old.put.items) }
        ensures same { IsSameContainer self.new.container self.old.container × (self.new.start ≡ self.old.start) }
    {
        if self.put.reserve(1).is_err() {
            return Err((Refusal::NoMemory, order));
        }
        let attempt = order.attempt();
        let order_queue = &self.container.mailbox.order_queue;
        match order_queue.push_as::<PushOrder, R>(rt, &mut self.pass, order) {
            Ok(()) => {
                self.put.push_reserved(attempt);
                Ok(())
            }
            Err(back) => Err((Refusal::Busy, back)),
        }
    }

    /// Waits for the container to end, and takes its passes in.
    pub fn join_container<R: Threads>(self, rt: &R, seen: &mut EventPass) -> PlaceRecord
        requires queue { IsPassOf self.container.events.now seen.old }
        requires next { (view seen.old ≡ getter (view seen.old).got (view seen.old).made (view seen.old).known)
            × (length (view seen.old).known ≡ self.container.place) }
        ensures queue { IsPassOf self.entry.container.events.now seen.new }
        ensures put { result.put.items ≡ self.entry.put.items }
        ensures known { (reported : _)
            × (view seen.new ≡ getter (view seen.old).got (view seen.old).made ((view seen.old).known ++ reported ∷ []))
            × Begins reported (take result.taken result.put.items) }
    {
        let PlaceHandle {
            container,
            mut pass,
            put,
            start,
        } = self;
        let ContainerResult {
            orders,
            reports,
            taken,
        } = join_thread(rt, container, start);
        let order_queue = &container.mailbox.order_queue;
        order_queue.absorb::<PutterAndTaker>(&mut pass, orders);
        order_queue.learn_as::<PutIsTakenAndLeft>(&mut pass);
        container.events.absorb::<JoinReporter>(seen, reports);
        PlaceRecord { put, taken }
    }
}

fn join_thread<'a, R: Threads>(
    rt: &R,
    container: Container<'a>,
    start: ContainerThread<'a>,
) -> ContainerResult
    requires runs { (h : _) → start ≡ ContainerThread.Running h → IsSameContainer h.promise container }
    requires refused { (w : _) → start ≡ ContainerThread.Refused w → IsResultOf container w }
    ensures { IsResultOf container.entry result }
{
    match start {
        ContainerThread::Running(thread) => thread.join(rt),
        ContainerThread::Refused(worked) => worked,
    }
}
