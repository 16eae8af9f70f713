// What a dispatcher is given.
ghost use Rattle.std.specs.Prelude.{◌≡◌, ℕ, ◌<◌, [], length, slice_index_or};
ghost use Rattle.crossbeam_queue.specs.Passes.{view, IsPassOf};
ghost use Rattle.tez_crew.specs.Events.{getter};

use crate::event_queue::{EventPass, EventQueue};
use crate::place_handle::PlaceHandle;
use std::alloc::Global;
use tez_ids::AttemptId;

/// A crew at work, as its dispatcher has it: it puts orders to places and takes reports. An order that
/// no container can take now is worked by the dispatcher's own thread.
pub struct Desk<'a, G, R> {
    pub(crate) rt: &'a R,
    pub(crate) alloc: Global,
    pub(crate) gate: &'a G,
    pub(crate) events: &'a EventQueue,
    pub(crate) seen: EventPass,
    pub(crate) handles: Vec<PlaceHandle<'a>>,
    pub(crate) own: Vec<AttemptId>,
    ghost sees: { IsPassOf events.now seen × (view seen ≡ getter (view seen).got (length handles.items) []) },
    ghost lined: { (i : ℕ) (d : _) → i < length handles.items → ((slice_index_or handles.items i d).container.place ≡ i)
        × ((slice_index_or handles.items i d).container.events.now.table.shared.table_id ≡ events.now.table.shared.table_id) },
}
