ghost use Rattle.std.specs.Prelude.{◌≡◌};

use std::marker::Model;
use tez_ids::{AttemptId, TaskId, VertexId};

/// Vertices with their tasks and the partitions of each task. Contracts see the list.
#[derive(Drop)]
pub struct Settings {
    items: Vec<(VertexId, u32, u32)>,
}

impl Model for Settings {
    ghost use Rattle.std.specs.Prelude.{List, ℕ};
    ghost use Rattle.tez_ids.specs.declared.VertexId.{VertexId};

    ghost Value = { List (VertexId × ℕ × ℕ) };

    ghost view = { λ s. s.items.items };
}

impl Settings {
    pub fn new(items: Vec<(VertexId, u32, u32)>) -> Self
        ensures { result ≡ items.items }
    {
        Settings { items }
    }

    pub fn as_slice(&self) -> &[(VertexId, u32, u32)]
        ensures { result.now ≡ self.now }
    {
        self.items.as_slice()
    }

    pub fn into_vec(self) -> Vec<(VertexId, u32, u32)>
        ensures { result.items ≡ self }
    {
        self.items
    }
}

/// The winners of tasks. Contracts see the list.
#[derive(Drop)]
pub struct Winners {
    items: Vec<AttemptId>,
}

impl Model for Winners {
    ghost use Rattle.std.specs.Prelude.{List};
    ghost use Rattle.tez_ids.specs.declared.AttemptId.{AttemptId};

    ghost Value = { List AttemptId };

    ghost view = { λ w. w.items.items };
}

impl Winners {
    pub fn new(items: Vec<AttemptId>) -> Self
        ensures { result ≡ items.items }
    {
        Winners { items }
    }

    pub fn as_slice(&self) -> &[AttemptId]
        ensures { result.now ≡ self.now }
    {
        self.items.as_slice()
    }

    pub fn into_vec(self) -> Vec<AttemptId>
        ensures { result.items ≡ self }
    {
        self.items
    }
}

/// Tasks with the number of their failures. Contracts see the list.
#[derive(Drop)]
pub struct Failures {
    items: Vec<(TaskId, u64)>,
}

impl Model for Failures {
    ghost use Rattle.std.specs.Prelude.{List, ℕ};
    ghost use Rattle.tez_ids.specs.declared.TaskId.{TaskId};

    ghost Value = { List (TaskId × ℕ) };

    ghost view = { λ f. f.items.items };
}

impl Failures {
    pub fn new(items: Vec<(TaskId, u64)>) -> Self
        ensures { result ≡ items.items }
    {
        Failures { items }
    }

    pub fn as_slice(&self) -> &[(TaskId, u64)]
        ensures { result.now ≡ self.now }
    {
        self.items.as_slice()
    }

    pub fn into_vec(self) -> Vec<(TaskId, u64)>
        ensures { result.items ≡ self }
    {
        self.items
    }
}
