//! Text that two numbers make.
use std::test::Fail;
use tez_gen::generate;

/// Some seeds, among them the greatest, whose high bits do not matter.
#[test]
fn lines_of_seeds(rt: HostRuntime) -> Result<(), Fail> {
    let rows: [(u64, u32, &str); 6] = [
        (1, 1, "w838 w758 w113\n"),
        (7, 3, "w564 w806 w868\nw674 w531 w365\nw34 w790 w985\n"),
        (0, 1, "w0 w468 w988\n"),
        (2147483647, 2, "w929 w409 w862\nw718 w713 w226\n"),
        (18446744073709551615, 1, "w929 w409 w862\n"),
        (1, 0, ""),
    ];
    for (seed, lines, text) in rows {
        let made = generate(rt.alloc(), seed, lines)?;
        assert!(rt;
            made.as_slice() == text.as_bytes(),
            "{lines} lines of {seed}"
        );
    }
    assert_eq!(rt; generate(rt.alloc(), 7, 100_000)?.len(), 1_466_734);
    Ok(())
}
