//! The steps, and the counts at which a cast may go on.

use sharc_heap::{lower, raise, sole, test};
use sharc_word::{WordOp, WordStep};

#[test]
fn steps_and_counts(rt: HostRuntime) {
    assert!(rt;
        matches!(
            raise(9),
            WordStep {
                word: 9,
                op: WordOp::Add(1)
            }
        )
    );
    assert!(rt;
        matches!(
            lower(9),
            WordStep {
                word: 9,
                op: WordOp::Sub(1)
            }
        )
    );
    assert!(rt;
        matches!(
            test(9),
            WordStep {
                word: 9,
                op: WordOp::Load
            }
        )
    );
    for (count, alone) in [(0, false), (1, true), (2, false), (u64::MAX, false)] {
        assert_eq!(rt; sole(count), alone, "at {count}");
    }
}
