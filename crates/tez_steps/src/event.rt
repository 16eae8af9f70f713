//! What may happen to a world.
use tez_events::CoreEvent;
use tez_orders::Report as OrderReport;

/// An event of the master or of the devices, or the report of an order.
#[derive(Drop)]
pub enum Event {
    Core(CoreEvent),
    Report(OrderReport),
}
