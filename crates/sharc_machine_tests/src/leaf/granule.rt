//! Sizes of blocks, and New on arenas that just fit and just do not.

use sharc_heap::{NewState, NewTurn, block};
use sharc_word::{WordOp, WordStep};
use std::process::Abort;

fn asked(word: u32, op: WordOp) -> NewTurn {
    NewTurn::Do(WordStep { word, op })
}

#[test]
fn least_blocks(rt: HostRuntime) {
    for (cells, granules) in [
        (1u64, 2u64),
        (2, 2),
        (3, 4),
        (14, 8),
        (29, 16),
        (30, 16),
        (31, 32),
        (1 << 32, 1 << 32),
    ] {
        if 1 <= cells && cells <= 1 << 32 {
            assert_eq!(rt; block(cells), granules, "at {cells}");
        }
    }
}

#[test]
fn takes_the_last_room(rt: HostRuntime) {
    // Granules 1 to 8, room for two blocks of four; the cells of granule 0 are words 100 and 101. Another thread takes
    // the first block.
    let mut state = NewState::new(3, 3, 9, 100, 0);
    assert_eq!(rt; state.next(77), asked(1, WordOp::Load));
    assert_eq!(rt; state.next(1), asked(1, WordOp::Cas(1, 5)));
    assert_eq!(rt; state.next(5), asked(1, WordOp::Cas(5, 9)));
    assert_eq!(rt; state.next(5), asked(110, WordOp::Swap(1)));
    assert_eq!(rt; state.next(0), asked(111, WordOp::Swap(3)));
    assert_eq!(rt; state.next(0), NewTurn::Made(5));
    assert_eq!(rt; state.next(0), NewTurn::Made(5));
    assert_eq!(rt; state.head(), 0);
}

#[test]
fn finds_no_room(rt: HostRuntime) {
    // Another thread takes granule 4 alone, and after it there are three granules for a block of four.
    let mut state = NewState::new(3, 3, 8, 100, 0);
    assert_eq!(rt; state.next(0), asked(1, WordOp::Load));
    assert_eq!(rt; state.next(4), asked(1, WordOp::Cas(4, 8)));
    assert_eq!(rt; state.next(5), NewTurn::HeapFull);
    // A top that no sum of it and the block reaches.
    let mut state = NewState::new(1, 1, 8, 100, 0);
    assert_eq!(rt; state.next(0), asked(1, WordOp::Load));
    assert_eq!(rt; state.next(u64::MAX), NewTurn::HeapFull);
}

#[test]
fn takes_from_the_own_list(rt: HostRuntime) {
    let mut state = NewState::new(1, 2, 20, 100, 6);
    assert_eq!(rt; state.next(0), asked(113, WordOp::Load));
    assert_eq!(rt; state.head(), 6);
    assert_eq!(rt; state.next(12), asked(114, WordOp::Swap(0)));
    assert_eq!(rt; state.head(), 12);
    assert_eq!(rt; state.next(44), asked(115, WordOp::Swap(0)));
    assert_eq!(rt; state.next(45), asked(112, WordOp::Swap(1)));
    assert_eq!(rt; state.next(0), asked(113, WordOp::Swap(1)));
    assert_eq!(rt; state.next(12), NewTurn::Made(6));
    assert_eq!(rt; state.head(), 12);
}

// A New of an object of one cell, whose list begins with granule 6 and goes on with granule 8.
fn takes_a_small_block(rt: &impl Abort) {
    let mut state = NewState::new(1, 1, 20, 100, 6);
    assert_eq!(rt; state.next(0), asked(113, WordOp::Load));
    assert_eq!(rt; state.next(8), asked(114, WordOp::Swap(0)));
    assert_eq!(rt; state.next(9), asked(112, WordOp::Swap(1)));
    assert_eq!(rt; state.next(0), asked(113, WordOp::Swap(1)));
    assert_eq!(rt; state.next(8), NewTurn::Made(6));
    assert_eq!(rt; state.head(), 8);
}

// A New of an object of three cells, whose list is granule 12 alone.
fn takes_a_large_block(rt: &impl Abort) {
    let mut state = NewState::new(3, 3, 20, 100, 12);
    assert_eq!(rt; state.next(0), asked(125, WordOp::Load));
    assert_eq!(rt; state.next(0), asked(126, WordOp::Swap(0)));
    assert_eq!(rt; state.next(7), asked(127, WordOp::Swap(0)));
    assert_eq!(rt; state.next(7), asked(128, WordOp::Swap(0)));
    assert_eq!(rt; state.next(7), asked(124, WordOp::Swap(1)));
    assert_eq!(rt; state.next(0), asked(125, WordOp::Swap(3)));
    assert_eq!(rt; state.next(0), NewTurn::Made(12));
    assert_eq!(rt; state.head(), 0);
}

#[test]
fn lists_of_two_sizes_are_used_in_either_order(rt: HostRuntime) {
    takes_a_small_block(&rt);
    takes_a_large_block(&rt);
    takes_a_small_block(&rt);
}
