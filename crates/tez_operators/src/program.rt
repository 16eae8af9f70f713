ghost use Rattle.std.specs.Prelude.{◌≡◌, None, IfOk, IfErr, OnOk};
ghost use Rattle.tez_record.specs.Bag.{sort};
ghost use Rattle.tez_values.specs.Steps.{run, bad_in_steps};
ghost use Rattle.tez_values.specs.Program.{first_bad, least_of, output};
ghost use Rattle.tez_operators.specs.Process.{reads, IsBadAnswer};

use crate::fault::ProcessFault;
use crate::heads::head_rows;
use crate::inputs::Inputs;
use crate::steps::run_steps;
use std::alloc::{AllocError, Global};
use tez_ids::VertexId;
use tez_plan::{Columns, Program, Step};
use tez_record::Records;

/// The value of a program over its inputs: the sorted records that its head and then its steps make
/// of them. `keys` has the vertices that feed it, each with the key columns of its edge; the left
/// side of a join is what comes from the first of them, and the name in the head is not read.
///
/// Records are found by a hash of their key, so no two lists are compared record by record: the
/// cost is that of a sort of what is read and made, on average. It takes memory for a copy of the
/// primary records, for each distinct key once, and for the rows of one step beside the next.
pub fn process(
    alloc: Global,
    program: &Program,
    keys: &[(VertexId, Columns)],
    inputs: &Inputs,
) -> Result<Records, ProcessFault>
    ensures value { IfOk result (λ value. value ≡ output program.now.head program.now.steps (reads program.now.head keys.now inputs.now.primary inputs.now.side)) }
    ensures no_bad { IfOk result (λ value. first_bad program.now.head program.now.steps (reads program.now.head keys.now inputs.now.primary inputs.now.side) ≡ None) }
    ensures bad { IfErr result (λ fault. IsBadAnswer fault (first_bad program.now.head program.now.steps (reads program.now.head keys.now inputs.now.primary inputs.now.side))) }
{
    match head_rows(alloc, &program.head, keys, inputs) {
        Ok(rows) => value_of(alloc, program.steps.as_slice(), rows),
        Err(fault) => Err(fault),
    }
}

/// The sorted records that the steps make of the rows of a head.
fn value_of(alloc: Global, steps: &[Step], rows: Records) -> Result<Records, ProcessFault>
    ensures value { IfOk result (λ value. value ≡ sort (run steps.now rows)) }
    ensures no_bad { OnOk result (least_of (bad_in_steps steps.now rows) ≡ None) }
    ensures bad { IfErr result (λ fault. IsBadAnswer fault (least_of (bad_in_steps steps.now rows))) }
{
    match run_steps(alloc, steps, rows) {
        Ok(made) => match made.sorted(alloc) {
            Ok(value) => Ok(value),
            Err(AllocError) => Err(ProcessFault::NoMemory),
        },
        Err(fault) => Err(fault),
    }
}
