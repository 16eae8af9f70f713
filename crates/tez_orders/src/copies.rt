ghost use Rattle.std.specs.Prelude.{◌≡◌, IfOk};

use crate::cut::Cut;
use std::alloc::{AllocError, Global};
use tez_ids::{EdgeId, VertexId};
use tez_operators::{Inputs, Primary};
use tez_plan::Columns;
use tez_record::Records;

pub fn copy_keys(
    alloc: Global,
    keys: &[(VertexId, Columns)],
) -> Result<Vec<(VertexId, Columns)>, AllocError>
    ensures { IfOk result (λ copies. copies.items ≡ keys.now) }
{
    let mut copies = Vec::with_capacity(alloc, keys.len())?;
    for (vertex, cols) in keys {
        copies.push((*vertex, cols.copy(alloc)?))?;
    }
    Ok(copies)
}

pub fn copy_inputs(alloc: Global, inputs: &Inputs) -> Result<Inputs, AllocError>
    ensures { IfOk result (λ copy. copy ≡ inputs.now) }
{
    let primary = copy_parts(alloc, inputs.primary.as_slice())?;
    Ok(Inputs {
        primary: Primary::new(primary),
        side: copy_side(alloc, &inputs.side)?,
    })
}

fn copy_parts(
    alloc: Global,
    parts: &[(Option<VertexId>, Records)],
) -> Result<Vec<(Option<VertexId>, Records)>, AllocError>
    ensures { IfOk result (λ copies. copies.items ≡ parts.now) }
{
    let mut copies = Vec::with_capacity(alloc, parts.len())?;
    for (vertex, records) in parts {
        copies.push((*vertex, records.copy(alloc)?))?;
    }
    Ok(copies)
}

fn copy_side(alloc: Global, side: &Option<Records>) -> Result<Option<Records>, AllocError>
    ensures { IfOk result (λ copy. copy ≡ side.now) }
{
    match side {
        Some(records) => Ok(Some(records.copy(alloc)?)),
        None => Ok(None),
    }
}

impl Cut {
    /// An equal cut. Takes memory for its columns.
    pub fn copy(&self, alloc: Global) -> Result<Cut, AllocError>
        ensures { IfOk result (λ copy. copy ≡ self.now) }
    {
        Ok(match self {
            Cut::Whole => Cut::Whole,
            Cut::ByKey { cols, parts } => Cut::ByKey {
                cols: cols.copy(alloc)?,
                parts: *parts,
            },
        })
    }
}

pub fn copy_outs(alloc: Global, outs: &[(EdgeId, Cut)]) -> Result<Vec<(EdgeId, Cut)>, AllocError>
    ensures { IfOk result (λ copies. copies.items ≡ outs.now) }
{
    let mut copies = Vec::with_capacity(alloc, outs.len())?;
    for (edge, cut) in outs {
        copies.push((*edge, cut.copy(alloc)?))?;
    }
    Ok(copies)
}
