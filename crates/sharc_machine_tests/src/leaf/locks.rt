//! A log that is filled and emptied.

use sharc_locks::HeldLog;
use std::test::Fail;

#[test]
fn fills_to_the_limit_and_empties(rt: HostRuntime) -> Result<(), Fail> {
    let mut log = HeldLog::new();
    assert!(rt; log.is_empty());
    for k in 0..16u32 {
        assert!(rt; !log.holds(100 + k));
        assert!(rt; log.take(100 + k, u64::from(k) * 1000), "at {k}");
        assert!(rt; log.holds(100 + k));
    }
    assert!(rt; !log.holds(7));
    assert!(rt; !log.take(7, 7), "a seventeenth");
    assert!(rt; !log.holds(7));
    assert_eq!(rt; log.give(7), None);
    assert_eq!(rt; log.give(105), Some(5000));
    assert_eq!(rt; log.give(105), None, "given up already");
    assert!(rt; !log.holds(105));
    assert!(rt; log.take(105, 9));
    for k in 0..16u32 {
        assert!(rt; !log.is_empty());
        let object = if k == 5 { 9 } else { u64::from(k) * 1000 };
        assert_eq!(rt; log.give(100 + k), Some(object), "at {k}");
    }
    assert!(rt; log.is_empty());
    Ok(())
}
