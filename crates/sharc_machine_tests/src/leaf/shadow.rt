//! The words of a granule that threads access in turn, and a table that is filled.

use sharc_heap::{
    AccessTable, Kind, bits, cleared, conflicts, epoch, first, is_written, stands, withdrawn,
};
use std::test::Fail;

#[test]
fn words_of_a_granule(rt: HostRuntime) {
    // Two reads, a write that finds them, and a read that finds the write.
    assert_eq!(rt; bits(0, Kind::Read), 2);
    assert_eq!(rt; 2 | bits(1, Kind::Read), 6);
    assert_eq!(rt; first(6, 2, Kind::Write, None), Some(0));
    assert_eq!(rt; 6 | bits(2, Kind::Write), 15);
    assert!(rt; conflicts(15, 0, Kind::Read, None));
    assert_eq!(rt; withdrawn(15, 1, None), 11);
    assert_eq!(rt; withdrawn(5, 1, Some(0)), 0);
    // A write, a read by another thread that finds it, and a read by the writer.
    assert_eq!(rt; bits(0, Kind::Write), 3);
    assert_eq!(rt; first(3, 1, Kind::Read, None), Some(0));
    assert_eq!(rt; 3 | bits(1, Kind::Read), 7);
    assert!(rt; !conflicts(7, 0, Kind::Read, Some(0)));
    assert!(rt; conflicts(7, 0, Kind::Read, Some(1)));
    // The last thread, and the last epoch.
    assert_eq!(rt; bits(30, Kind::Write), 0x8000_0001);
    assert_eq!(rt; first(0x8000_0002, 0, Kind::Write, None), Some(30));
    assert_eq!(rt; epoch(0x5_8000_0001), 5);
    assert_eq!(rt; cleared(0x5_8000_0001), 0x6_0000_0000);
    assert_eq!(rt; cleared(0xffff_ffff_0000_0003), 0);
    for (thread, is) in [(0u32, false), (1, true), (2, false), (30, true)] {
        if thread < 31 {
            assert_eq!(rt; stands(0x7_8000_0005, thread), is, "at {thread}");
        }
    }
    assert!(rt; is_written(0x7_8000_0005));
    assert!(rt; !is_written(0x7_8000_0004));
}

#[test]
fn table_of_notes(rt: HostRuntime) -> Result<(), Fail> {
    let mut table = AccessTable::new(rt.alloc(), 4)?;
    assert_eq!(rt; table.rows(), 0);
    assert_eq!(rt; table.site(3, Kind::Read, 0), None);
    table.note(3, Kind::Read, 0, 70);
    table.note(1, Kind::Write, 2, 71);
    table.note(3, Kind::Write, 0, 72);
    assert_eq!(rt; table.site(3, Kind::Read, 0), Some(70));
    assert_eq!(rt; table.site(3, Kind::Write, 0), Some(72));
    assert_eq!(rt; table.site(1, Kind::Write, 1), None);
    table.note(1, Kind::Write, 3, 73);
    assert_eq!(rt; table.site(1, Kind::Write, 2), None);
    assert_eq!(rt; table.site(1, Kind::Write, 3), Some(73));
    assert_eq!(rt; table.rows(), 2);
    for (i, granule) in [(0u32, 3u32), (1, 1)] {
        if i < table.rows() {
            assert_eq!(rt; table.row(i), granule);
        }
    }
    Ok(())
}
