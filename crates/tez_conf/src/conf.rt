ghost use Rattle.std.specs.Prelude.{◌≡◌, ◌↔◌, IfOk, IsOk, IsNone, true, false};
ghost use Rattle.std.specs.Result.{result_err};
ghost use Rattle.tez_conf.specs.Ranges.{IsInRange, first_fault};

use crate::values::{ConfFault, ConfValues};
use std::marker::Model;

/// A configuration. Each value is in its range, `min_src` is at most `max_src`, and there are at
/// most 64 places on all nodes together.
#[derive(Clone, Copy, Debug)]
pub struct Conf {
    values: ConfValues,
}

impl Model for Conf {
    ghost use Rattle.tez_conf.specs.declared.values.ConfValues.{ConfValues};
    ghost use Rattle.tez_conf.specs.Ranges.{IsInRange};

    ghost Value = { ConfValues };

    ghost view = { λ c. c.values };

    ghost invariant = { λ c. IsInRange c.values };

    ghost inverse = { λ values. record { values = values } };
}

impl Conf {
    /// The configuration of these values, or the first range that they are outside of.
    pub fn new(values: ConfValues) -> Result<Self, ConfFault>
        ensures values { IfOk result (λ c. c ≡ values) }
        ensures accepted { IsOk result ↔ IsInRange values }
        ensures fault { result_err result ≡ first_fault values }
    {
        match fault(&values) {
            Some(fault) => Err(fault),
            None => Ok(Conf { values }),
        }
    }

    /// All values.
    pub fn values(&self) -> ConfValues
        ensures same { result ≡ self.now }
        ensures in_range { IsInRange result }
    {
        self.values
    }

    /// Slow start's least fraction of finished source tasks, in thousandths.
    pub fn min_src(&self) -> u16
        ensures { result ≡ self.now.min_src }
    {
        self.values.min_src
    }

    /// Slow start's fraction from which all tasks are scheduled, in thousandths.
    pub fn max_src(&self) -> u16
        ensures { result ≡ self.now.max_src }
    {
        self.values.max_src
    }

    /// Whether a shuffle vertex may shrink to fewer tasks.
    pub fn auto_parallel(&self) -> bool
        ensures { result ≡ self.now.auto_parallel }
    {
        self.values.auto_parallel
    }

    /// Bytes wanted for each consumer task when shrinking.
    pub fn desired_bytes(&self) -> u64
        ensures { result ≡ self.now.desired_bytes }
    {
        self.values.desired_bytes
    }

    /// The least number of tasks wanted when shrinking.
    pub fn min_tasks(&self) -> u32
        ensures { result ≡ self.now.min_tasks }
    {
        self.values.min_tasks
    }

    /// The number of failures at which a task is spent.
    pub fn max_failed(&self) -> u32
        ensures { result ≡ self.now.max_failed }
    {
        self.values.max_failed
    }

    /// The number of stops at which a run ends.
    pub fn max_masters(&self) -> u32
        ensures { result ≡ self.now.max_masters }
    {
        self.values.max_masters
    }

    /// Whether a freed place keeps its container.
    pub fn reuse(&self) -> bool
        ensures { result ≡ self.now.reuse }
    {
        self.values.reuse
    }

    /// The number of nodes.
    pub fn nodes(&self) -> u16
        ensures { result ≡ self.now.nodes }
    {
        self.values.nodes
    }

    /// Places on each node.
    pub fn per_node(&self) -> u16
        ensures { result ≡ self.now.per_node }
    {
        self.values.per_node
    }
}

/// The first range that the values are outside of.
fn fault(values: &ConfValues) -> Option<ConfFault>
    ensures first { result ≡ first_fault values.now }
    ensures accepted { IsNone result ↔ IsInRange values.now }
{
    if values.min_src > 1000 {
        return Some(ConfFault::MinSrc);
    }
    if values.max_src > 1000 {
        return Some(ConfFault::MaxSrc);
    }
    if values.desired_bytes < 1 || values.desired_bytes > 1 << 40 {
        return Some(ConfFault::DesiredBytes);
    }
    if values.min_tasks < 1 || values.min_tasks > 10_000 {
        return Some(ConfFault::MinTasks);
    }
    if values.max_failed < 1 || values.max_failed > 100 {
        return Some(ConfFault::MaxFailed);
    }
    if values.max_masters < 1 || values.max_masters > 100 {
        return Some(ConfFault::MaxMasters);
    }
    if values.nodes < 1 || values.nodes > 64 {
        return Some(ConfFault::Nodes);
    }
    if values.per_node < 1 || values.per_node > 64 {
        return Some(ConfFault::PerNode);
    }
    if values.max_src < values.min_src {
        return Some(ConfFault::MaxSrcBelowMinSrc);
    }
    if values.nodes * values.per_node > 64 {
        return Some(ConfFault::TooManyPlaces);
    }
    None
}

/// What a DAG file leaves unsaid.
pub fn defaults() -> Conf
    ensures min_src { result.min_src ≡ 250 }
    ensures max_src { result.max_src ≡ 750 }
    ensures auto_parallel { result.auto_parallel ≡ false }
    ensures desired_bytes { result.desired_bytes ≡ 104857600 }
    ensures min_tasks { result.min_tasks ≡ 1 }
    ensures max_failed { result.max_failed ≡ 4 }
    ensures max_masters { result.max_masters ≡ 2 }
    ensures reuse { result.reuse ≡ true }
    ensures nodes { result.nodes ≡ 2 }
    ensures per_node { result.per_node ≡ 2 }
{
    Conf {
        values: ConfValues {
            min_src: 250,
            max_src: 750,
            auto_parallel: false,
            desired_bytes: 104_857_600,
            min_tasks: 1,
            max_failed: 4,
            max_masters: 2,
            reuse: true,
            nodes: 2,
            per_node: 2,
        },
    }
}
