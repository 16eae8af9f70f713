ghost use Rattle.std.specs.Prelude.{◌≡◌, IfOk};

use crate::parts::{Columns, EdgeSpec, Head, Movement, Step, Steps, Test, VertexSpec};
use std::alloc::{AllocError, Global};
use tez_ids::{Bytes, Name};

pub fn copy_vertices(alloc: Global, vertices: &[VertexSpec]) -> Result<Vec<VertexSpec>, AllocError>
    ensures { IfOk result (λ copies. copies.items ≡ vertices.now) }
{
    let mut copies = Vec::with_capacity(alloc, vertices.len())?;
    for vertex in vertices {
        copies.push(vertex.copy(alloc)?)?;
    }
    Ok(copies)
}

pub fn copy_edges(alloc: Global, edges: &[EdgeSpec]) -> Result<Vec<EdgeSpec>, AllocError>
    ensures { IfOk result (λ copies. copies.items ≡ edges.now) }
{
    let mut copies = Vec::with_capacity(alloc, edges.len())?;
    for edge in edges {
        copies.push(edge.copy(alloc)?)?;
    }
    Ok(copies)
}

fn copy_bytes(alloc: Global, bytes: &Bytes) -> Result<Bytes, AllocError>
    ensures { IfOk result (λ copy. copy ≡ bytes.now) }
{
    Ok(Bytes::new(Vec::from_slice(alloc, bytes.as_slice())?))
}

fn copy_name(alloc: Global, name: &Name) -> Result<Name, AllocError>
    ensures { IfOk result (λ copy. copy ≡ name.now) }
{
    Name::copy_of(alloc, name.as_str())
}

fn copy_if_any(alloc: Global, name: &Option<Name>) -> Result<Option<Name>, AllocError>
    ensures { IfOk result (λ copy. copy ≡ name.now) }
{
    match name {
        Some(name) => Ok(Some(copy_name(alloc, name)?)),
        None => Ok(None),
    }
}

impl Columns {
    /// Equal columns. Takes memory for them.
    pub fn copy(&self, alloc: Global) -> Result<Self, AllocError>
        ensures { IfOk result (λ copy. copy ≡ self.now) }
    {
        Ok(Columns::new(Vec::from_slice(alloc, self.as_slice())?))
    }
}

impl Test {
    /// An equal test. Takes memory for its text.
    pub fn copy(&self, alloc: Global) -> Result<Self, AllocError>
        ensures { IfOk result (λ copy. copy ≡ self.now) }
    {
        Ok(match self {
            Test::Eq(text) => Test::Eq(copy_bytes(alloc, text)?),
            Test::Ne(text) => Test::Ne(copy_bytes(alloc, text)?),
            Test::Contains(text) => Test::Contains(copy_bytes(alloc, text)?),
            Test::Lt(number) => Test::Lt(*number),
            Test::Gt(number) => Test::Gt(*number),
        })
    }
}

impl Step {
    /// An equal step. Takes memory for its text or columns.
    pub fn copy(&self, alloc: Global) -> Result<Self, AllocError>
        ensures { IfOk result (λ copy. copy ≡ self.now) }
    {
        Ok(match self {
            Step::Tokenise => Step::Tokenise,
            Step::Filter { field, test } => Step::Filter {
                field: *field,
                test: test.copy(alloc)?,
            },
            Step::Project { cols } => Step::Project {
                cols: cols.copy(alloc)?,
            },
        })
    }
}

impl Steps {
    /// Equal steps. Takes memory for them.
    pub fn copy(&self, alloc: Global) -> Result<Self, AllocError>
        ensures { IfOk result (λ copy. copy ≡ self.now) }
    {
        Ok(Steps::new(copy_steps(alloc, self.as_slice())?))
    }
}

fn copy_steps(alloc: Global, steps: &[Step]) -> Result<Vec<Step>, AllocError>
    ensures { IfOk result (λ copies. copies.items ≡ steps.now) }
{
    let mut copies = Vec::with_capacity(alloc, steps.len())?;
    for step in steps {
        copies.push(step.copy(alloc)?)?;
    }
    Ok(copies)
}

impl Head {
    /// An equal head. Takes memory for its name or columns.
    pub fn copy(&self, alloc: Global) -> Result<Self, AllocError>
        ensures { IfOk result (λ copy. copy ≡ self.now) }
    {
        Ok(match self {
            Head::Each => Head::Each,
            Head::Sum { value } => Head::Sum { value: *value },
            Head::Count => Head::Count,
            Head::Distinct => Head::Distinct,
            Head::Join { left } => Head::Join {
                left: copy_name(alloc, left)?,
            },
            Head::Lookup { key, side_key } => Head::Lookup {
                key: key.copy(alloc)?,
                side_key: side_key.copy(alloc)?,
            },
            Head::KeepIn { key, side_key } => Head::KeepIn {
                key: key.copy(alloc)?,
                side_key: side_key.copy(alloc)?,
            },
            Head::DropIn { key, side_key } => Head::DropIn {
                key: key.copy(alloc)?,
                side_key: side_key.copy(alloc)?,
            },
        })
    }
}

impl Movement {
    /// An equal movement. Takes memory for its columns.
    pub fn copy(&self, alloc: Global) -> Result<Self, AllocError>
        ensures { IfOk result (λ copy. copy ≡ self.now) }
    {
        Ok(match self {
            Movement::OneToOne => Movement::OneToOne,
            Movement::Broadcast => Movement::Broadcast,
            Movement::ScatterGather { keys } => Movement::ScatterGather {
                keys: keys.copy(alloc)?,
            },
        })
    }
}

impl VertexSpec {
    /// An equal vertex. Takes memory for all of it.
    pub fn copy(&self, alloc: Global) -> Result<Self, AllocError>
        ensures { IfOk result (λ copy. copy ≡ self.now) }
    {
        Ok(VertexSpec {
            name: copy_name(alloc, &self.name)?,
            tasks: self.tasks,
            source: copy_if_any(alloc, &self.source)?,
            head: self.head.copy(alloc)?,
            steps: self.steps.copy(alloc)?,
            sink: copy_if_any(alloc, &self.sink)?,
        })
    }
}

impl EdgeSpec {
    /// An equal edge. Takes memory for all of it.
    pub fn copy(&self, alloc: Global) -> Result<Self, AllocError>
        ensures { IfOk result (λ copy. copy ≡ self.now) }
    {
        Ok(EdgeSpec {
            source: copy_name(alloc, &self.source)?,
            target: copy_name(alloc, &self.target)?,
            movement: self.movement.copy(alloc)?,
        })
    }
}
