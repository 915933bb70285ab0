//! A recorded file that is written and read again, and lines at fault.

use sharc_schedule::{FileFault, Places, read_file, write_file};
use std::test::Fail;

#[test]
fn what_was_written_is_read(rt: HostRuntime) -> Result<(), Fail> {
    let places = Places::new(vec![in rt.alloc(); (0, 5), (30, 4294967295)]?);
    let file = write_file(
        rt.alloc(),
        b"int x;\n".as_slice(),
        4096,
        1000,
        &places,
        b"42\n".as_slice(),
    )?;
    assert_eq!(rt;
        file.as_slice(),
        b"int x;\n\n%%schedule 4096 1000\n0 5\n30 4294967295\n%%text\n42\n".as_slice()
    );
    match read_file(rt.alloc(), file.as_slice()) {
        Ok(read) => {
            assert_eq!(rt; read.source.as_slice(), b"int x;\n".as_slice());
            assert_eq!(rt; read.heap, 4096);
            assert_eq!(rt; read.limit, 1000);
            assert_eq!(rt; read.places.as_slice().len(), 2);
        }
        Err(_) => assert!(rt; false, "it is a file"),
    }
    Ok(())
}

// The line at fault, 0 if there is none.
fn fault(rt: &HostRuntime, bytes: &[u8]) -> u32 {
    if bytes.len() > 1000 {
        return 0;
    }
    match read_file(rt.alloc(), bytes) {
        Err(FileFault::Line(n)) => n,
        _ => 0,
    }
}

#[test]
fn the_first_line_at_fault(rt: HostRuntime) -> Result<(), Fail> {
    assert_eq!(rt; fault(&rt, b"".as_slice()), 1);
    assert_eq!(rt; fault(&rt, b"int main(void) { }".as_slice()), 2);
    assert_eq!(rt; fault(&rt, b"int main(void) { }\n".as_slice()), 2);
    assert_eq!(rt; fault(&rt, b"a\n%%schedule 15 1\n%%text\n".as_slice()), 2);
    assert_eq!(rt; fault(&rt, b"a\n%%schedule 016 1\n%%text\n".as_slice()), 2);
    assert_eq!(rt;
        fault(&rt, b"a\n%%schedule 16 1\n31 1\n%%text\n".as_slice()),
        3
    );
    assert_eq!(rt;
        fault(&rt, b"a\n%%schedule 16 1\n0 0\n%%text\n".as_slice()),
        3
    );
    assert_eq!(rt;
        fault(&rt, b"a\n%%schedule 16 1\n0 1\n\n%%text\n".as_slice()),
        4
    );
    assert_eq!(rt; fault(&rt, b"a\n%%schedule 16 1\n0 1\n".as_slice()), 4);
    assert_eq!(rt; fault(&rt, b"%%schedule 16 1\n%%text\n".as_slice()), 3);
    assert_eq!(rt; fault(&rt, b"a\n%%schedule 16 1\n%%text".as_slice()), 0);
    Ok(())
}
