//! The job that two numbers make.
use std::test::Fail;
use tez_drill::job;
use tez_meaning::meaning;

/// One line has three words, each of them once.
#[test]
fn drill_of_one_line(rt: HostRuntime) -> Result<(), Fail> {
    let job = job(rt.alloc(), 1, 1)?;
    match meaning(rt.alloc(), &job) {
        Ok(sinks) => {
            assert_eq!(rt; sinks.len(), 1);
            for (name, text) in &sinks {
                assert_eq!(rt; name.as_str(), "counts");
                assert!(rt; text.as_slice() == b"w113\t1\nw758\t1\nw838\t1\n".as_slice());
            }
        }
        Err(_) => assert!(rt; false, "no meaning"),
    }
    Ok(())
}
