//! What no DAG file can say: records counted together, by a key of no columns.
use std::alloc::{AllocError, Global};
use tez_ids::VertexId;
use tez_operators::{Inputs, Primary, process};
use tez_plan::{Columns, Head, Program, Steps};
use tez_record::lines;

const V: VertexId = VertexId(3);

fn inputs(alloc: Global) -> Result<Inputs, AllocError> {
    let mut parts = Vec::new(alloc);
    parts.push((Some(V), lines(alloc, b"b\na\na\n")?))?;
    Ok(Inputs {
        primary: Primary::new(parts),
        side: None,
    })
}

#[test]
fn keys_of_no_columns(rt: HostRuntime) -> Result<(), AllocError> {
    let alloc = rt.alloc();
    let program = Program {
        head: Head::Count,
        steps: Steps::new(Vec::new(alloc)),
    };
    let mut keys = Vec::new(alloc);
    keys.push((V, Columns::new(Vec::new(alloc))))?;
    match process(alloc, &program, &keys, &inputs(alloc)?) {
        Ok(value) => assert_eq!(rt; value.text(), b"\t3\n".as_slice()),
        Err(_) => assert!(rt; false, "no value"),
    }
    Ok(())
}
