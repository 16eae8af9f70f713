ghost use Rattle.std.specs.Prelude.{◌≡◌, IfOk};
ghost use Rattle.tez_plan.specs.Dag.{goes_one_to_one, goes_to_all, goes_by_key, columns};

use std::alloc::{AllocError, Global};
use std::marker::Model;
use tez_ids::{Bytes, Name};

/// The most tasks that a vertex may have, `most_tasks` of the contracts.
pub const MOST_TASKS: u32 = 10_000;

/// Columns of records, counted from 0, of which contracts see the list.
#[derive(Drop)]
pub struct Columns {
    items: Vec<u16>,
}

impl Model for Columns {
    ghost use Rattle.std.specs.Prelude.{List, ℕ};

    ghost Value = { List ℕ };

    ghost view = { λ c. c.items.items };
}

impl Columns {
    pub fn new(items: Vec<u16>) -> Self
        ensures { result ≡ items.items }
    {
        Columns { items }
    }

    pub fn as_slice(&self) -> &[u16]
        ensures { result.now ≡ self.now }
    {
        self.items.as_slice()
    }

    pub fn into_vec(self) -> Vec<u16>
        ensures { result.items ≡ self }
    {
        self.items
    }
}

/// What a filter asks of a field. `Lt` and `Gt` compare numbers, the others bytes.
#[derive(Drop)]
pub enum Test {
    Eq(Bytes),
    Ne(Bytes),
    Contains(Bytes),
    Lt(i64),
    Gt(i64),
}

/// One step of a program, done on each record. Fields are counted from 0.
#[derive(Drop)]
pub enum Step {
    /// The words of the record, each with the count 1.
    Tokenise,
    /// The record, where the test holds of the field.
    Filter { field: u16, test: Test },
    /// The fields at these columns.
    Project { cols: Columns },
}

/// Steps in order, of which contracts see the list.
#[derive(Drop)]
pub struct Steps {
    items: Vec<Step>,
}

impl Model for Steps {
    ghost use Rattle.std.specs.Prelude.{List};
    ghost use Rattle.tez_plan.specs.declared.parts.Step.{Step};

    ghost Value = { List Step };

    ghost view = { λ s. s.items.items };
}

impl Steps {
    pub fn new(items: Vec<Step>) -> Self
        ensures { result ≡ items.items }
    {
        Steps { items }
    }

    pub fn as_slice(&self) -> &[Step]
        ensures { result.now ≡ self.now }
    {
        self.items.as_slice()
    }

    pub fn into_vec(self) -> Vec<Step>
        ensures { result.items ≡ self }
    {
        self.items
    }
}

/// What a vertex makes of its inputs before the steps.
#[derive(Drop)]
pub enum Head {
    /// The primary records.
    Each,
    /// For each key the total of a field.
    Sum { value: u16 },
    /// For each key the number of records.
    Count,
    /// Each key once.
    Distinct,
    /// Pairs of records of two sources with equal keys, that of the vertex `left` first.
    Join { left: Name },
    /// Primary records with each side record of an equal key.
    Lookup { key: Columns, side_key: Columns },
    /// The primary records whose key is that of a side record.
    KeepIn { key: Columns, side_key: Columns },
    /// The primary records whose key is that of no side record.
    DropIn { key: Columns, side_key: Columns },
}

/// A head and the steps after it.
#[derive(Drop)]
pub struct Program {
    pub head: Head,
    pub steps: Steps,
}

/// How an edge moves data.
#[derive(Drop)]
pub enum Movement {
    /// Task i of the source feeds task i of the target.
    OneToOne,
    /// Each output goes to all tasks of the target.
    Broadcast,
    /// Outputs are parted by the key, and a task of the target gathers its parts from all tasks.
    ScatterGather { keys: Columns },
}

impl Movement {
    pub fn is_one_to_one(&self) -> bool
        ensures { result ≡ goes_one_to_one self.now }
    {
        matches!(self, Movement::OneToOne)
    }

    pub fn is_broadcast(&self) -> bool
        ensures { result ≡ goes_to_all self.now }
    {
        matches!(self, Movement::Broadcast)
    }

    pub fn is_scatter_gather(&self) -> bool
        ensures { result ≡ goes_by_key self.now }
    {
        matches!(self, Movement::ScatterGather { .. })
    }

    /// The columns of the key, and none where the edge does not go by key.
    pub fn keys(&self) -> &[u16]
        ensures { result.now ≡ columns self.now }
    {
        match self {
            Movement::ScatterGather { keys } => keys.as_slice(),
            Movement::OneToOne | Movement::Broadcast => &[],
        }
    }
}

/// A vertex of a plan.
#[derive(Drop)]
pub struct VertexSpec {
    pub name: Name,
    /// The number of tasks, 1 to `MOST_TASKS`, and of partitions where a scatter-gather edge leads in.
    pub tasks: u32,
    /// The file that is read.
    pub source: Option<Name>,
    pub head: Head,
    pub steps: Steps,
    /// The output that is published.
    pub sink: Option<Name>,
}

/// An edge of a plan, from the vertex named `source` to the vertex named `target`.
#[derive(Drop)]
pub struct EdgeSpec {
    pub source: Name,
    pub target: Name,
    pub movement: Movement,
}
