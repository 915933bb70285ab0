//! Waiters 0, 7 and 30, woken in their order.

use sharc_locks::{enter, waits, wake};
use sharc_word::WordOp;

#[test]
fn wakes_in_order(rt: HostRuntime) {
    let mut word = 0u64;
    for thread in [30u32, 0, 7] {
        assert!(rt; !waits(word, thread));
        match enter(thread) {
            WordOp::Or(bit) => word |= bit,
            _ => panic!(rt; "no Or"),
        }
        assert!(rt; waits(word, thread));
    }
    assert_eq!(rt; word, 0x4000_0081);
    for (thread, rest) in [(0u32, 0x4000_0080u64), (7, 0x4000_0000), (30, 0)] {
        assert_eq!(rt; wake(word), Some((thread, rest)));
        word = rest;
    }
    assert_eq!(rt; wake(word), None);
}
