//! The pieces of a task.
use std::alloc::{AllocError, Global};
use tez_ids::EdgeId;
use tez_record::lines;
use tez_shelves::{Pieces, pieces_new};

fn pieces(alloc: Global) -> Result<Pieces, AllocError> {
    let mut parts = Vec::new(alloc);
    parts.push((EdgeId(0), 0, lines(alloc, b"a\t1\na\t1\n")?))?;
    parts.push((EdgeId(0), 1, lines(alloc, b"b\t1\n")?))?;
    pieces_new(alloc, parts)
}

#[test]
fn pieces_stand_in_one_block(rt: HostRuntime) -> Result<(), AllocError> {
    let ps = pieces(rt.alloc())?.copy(rt.alloc())?;
    assert_eq!(rt; ps.bytes(EdgeId(0)), Some(12));
    assert_eq!(rt; ps.bytes(EdgeId(1)), None);
    let first = ps.piece(EdgeId(0), 0).expect(&rt, "a piece");
    assert_eq!(rt; first.text(), b"a\t1\na\t1\n".as_slice());
    let second = ps.piece(EdgeId(0), 1).expect(&rt, "a piece");
    assert_eq!(rt; second.text(), b"b\t1\n".as_slice());
    Ok(())
}
