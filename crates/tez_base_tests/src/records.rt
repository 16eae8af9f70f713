//! Lines of texts, and records that a caller's filter keeps.
ghost use Rattle.std.specs.Prelude.{◌≡◌, IfOk};
ghost use Rattle.std.specs.List.{filter};
ghost use Rattle.tez_record.specs.Field.{field};
ghost use Rattle.tez_record.specs.Find.{has_part};

use std::alloc::{AllocError, Global};
use tez_record::{Records, contains, field, lines};

#[test]
fn a_text_has_its_lines(rt: HostRuntime) -> Result<(), AllocError> {
    let cases: [(&[u8], &[u8], usize); 6] = [
        (b"x\ny", b"x\ny\n", 2),
        (b"\n", b"\n", 1),
        (b"", b"", 0),
        (b"x\r\n", b"x\r\n", 1),
        (b"\n\nx", b"\n\nx\n", 3),
        (b"a\tb\n", b"a\tb\n", 1),
    ];
    for (bytes, text, count) in cases {
        let rs = lines(rt.alloc(), bytes)?;
        assert_eq!(rt; rs.text(), text);
        assert_eq!(rt; rs.iter().count(), count);
    }
    Ok(())
}

// A caller's filter, with nothing to prove beside its contract.
fn with_part(alloc: Global, rs: &Records, i: u16, part: &[u8]) -> Result<Records, AllocError>
    ensures { IfOk result (λ kept. kept ≡ filter (λ r. has_part (field r i) part.now) rs.now) }
{
    rs.kept(alloc, |r| contains(field(r, i), part))
}

#[test]
fn a_filter_keeps_records(rt: HostRuntime) -> Result<(), AllocError> {
    let rs = lines(rt.alloc(), b"ab\t7\nc\tb\nb\t5\n\n")?;
    let kept = with_part(rt.alloc(), &rs, 0, b"b")?;
    assert_eq!(rt; kept.text(), b"ab\t7\nb\t5\n".as_slice());
    Ok(())
}
