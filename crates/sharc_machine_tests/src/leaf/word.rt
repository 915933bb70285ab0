//! Each operation on a word, by what a port promises.

ghost use Rattle.std.specs.Prelude.{◌<◌};

use sharc_word::{MemPort, Port, WordOp, WordStep};
use std::test::Fail;

// The answer of one step, by what a port promises and nothing else.
fn answer<P: Port>(port: &mut P, step: WordStep) -> u64
    requires { step.word < P.count port.old }
{
    port.step(step)
}

// Operations, the words that they find, and those that they leave.
static OPERATIONS: [(WordOp, u64, u64); 10] = [
    (WordOp::Load, 5, 5),
    (WordOp::Swap(7), 5, 7),
    (WordOp::Add(3), 5, 8),
    (WordOp::Add(1), u64::MAX, 0),
    (WordOp::Sub(3), 5, 2),
    (WordOp::Sub(1), 0, u64::MAX),
    (WordOp::Or(0b0110), 0b0011, 0b0111),
    (WordOp::And(0b0110), 0b0011, 0b0010),
    (WordOp::Cas(5, 9), 5, 9),
    (WordOp::Cas(6, 9), 5, 5),
];

#[test]
fn each_operation_answers_the_old_word(rt: HostRuntime) -> Result<(), Fail> {
    for (op, found, left) in &OPERATIONS {
        let mut port = MemPort::new(vec![in rt.alloc(); 1, *found, 2]?);
        assert_eq!(rt;
            answer(&mut port, WordStep { word: 1, op: *op }),
            *found,
            "at {op:?}"
        );
        let words = port.into_words();
        assert_eq!(rt; words.as_slice(), [1, *left, 2].as_slice(), "at {op:?}");
    }
    Ok(())
}
