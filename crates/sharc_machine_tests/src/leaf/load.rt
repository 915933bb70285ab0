//! The sizes of the text.

use sharc_load::make;
use std::test::Fail;

#[test]
fn sizes(rt: HostRuntime) -> Result<(), Fail> {
    for (n, bytes) in [(1, 486), (8, 829), (10000, 577_107)] {
        let text = make(rt.alloc(), n)?;
        assert_eq!(rt; text.len(), bytes, "at {n}");
    }
    Ok(())
}
