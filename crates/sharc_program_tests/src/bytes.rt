//! Reading and writing over sources and sinks that give little, fail and stall.

ghost use Rattle.std.specs.Prelude.{◌≡◌, ◌<◌, [], length, IfOk, OnOk, IsErrOf};

use crate::streams::{Dripping, Trickling};
use sharc_io::{
    Failed, MemSink, MemSource, ReadError, Source, StdSink, StdSource, SureSink, SureSource,
    WriteFault, read_all, write_all,
};
use std::alloc::Global;
use std::process::Abort;
use std::test::Fail;

type Answer = Result<Vec<u8>, ReadError>;

// What reading a sure source answers: there is no fault, and the bytes are its own.
fn read_surely(alloc: Global, source: &mut SureSource, limit: usize) -> Answer
    requires { limit < usize.MAX }
    ensures all { IfOk result (λ bytes. bytes.items ≡ source.old) }
    ensures end { OnOk result (source.new ≡ []) }
    ensures no_fault { ¬ IsErrOf result ReadError.ReadFault }
    ensures too_long { IsErrOf result ReadError.TooLong → limit < length source.old }
{
    read_all(alloc, source, limit)
}

// What reading a source of six bytes answers.
fn read_six(alloc: Global, limit: usize) -> Result<Answer, Fail>
    requires { limit < usize.MAX }
{
    let mut source = SureSource::new(b"abcdef".to_vec(alloc)?);
    let answer = read_surely(alloc, &mut source, limit);
    drop(source);
    Ok(answer)
}

// What reading a source answers that gives its three bytes one by one.
fn read_by_drops(alloc: Global, limit: usize) -> Result<Answer, Fail>
    requires { limit < usize.MAX }
{
    let mut source = Dripping(SureSource::new(b"abc".to_vec(alloc)?));
    let answer = read_all(alloc, &mut source, limit);
    drop(source);
    Ok(answer)
}

// A source in memory of these bytes, whose calls with these numbers fail.
fn source_of(alloc: Global, bytes: &[u8], fails: &[u64]) -> Result<MemSource, Fail> {
    let fails = fails.to_vec(alloc)?;
    Ok(MemSource::new(bytes.to_vec(alloc)?, fails))
}

// What reading it answers.
fn read_failing(alloc: Global, bytes: &[u8], fails: &[u64], limit: usize) -> Result<Answer, Fail>
    requires { limit < usize.MAX }
{
    let mut source = source_of(alloc, bytes, fails)?;
    let answer = read_all(alloc, &mut source, limit);
    drop(source);
    Ok(answer)
}

// Asserts the bytes that were read.
fn assert_read(rt: &impl Abort, answer: Answer, wanted: &[u8]) {
    match answer {
        Ok(bytes) => assert_eq!(rt; bytes.as_slice(), wanted),
        Err(error) => panic!(rt; "{error:?}"),
    }
}

// Asserts why nothing was read.
fn assert_error(rt: &impl Abort, answer: Answer, wanted: ReadError) {
    assert_eq!(rt; answer.err(), Some(wanted));
}

#[test]
fn reads_all_up_to_the_limit(rt: HostRuntime) -> Result<(), Fail> {
    for limit in [0, 1, 5] {
        assert_error(&rt, read_six(rt.alloc(), limit)?, ReadError::TooLong);
    }
    let mut source = SureSource::new(b"abcdef".to_vec(rt.alloc())?);
    assert_read(&rt, read_surely(rt.alloc(), &mut source, 6), b"abcdef");
    assert_read(&rt, read_surely(rt.alloc(), &mut source, 0), b"");
    drop(source);
    Ok(())
}

#[test]
fn reads_one_byte_at_a_time(rt: HostRuntime) -> Result<(), Fail> {
    assert_read(&rt, read_by_drops(rt.alloc(), 3)?, b"abc");
    assert_error(&rt, read_by_drops(rt.alloc(), 2)?, ReadError::TooLong);
    Ok(())
}

#[test]
fn reads_more_than_one_buffer(rt: HostRuntime) -> Result<(), Fail> {
    let mut bytes = vec![in rt.alloc(); b'a'; 20000]?;
    bytes.push(b'z')?;
    let answer = read_failing(rt.alloc(), &bytes, &[], 20001)?;
    assert_read(&rt, answer, &bytes);
    Ok(())
}

// The second of three calls fails, and loses nothing.
fn assert_nothing_lost(rt: &impl Abort, source: &mut MemSource) {
    let mut buf = [0; 2];
    assert_eq!(rt; source.read(&mut buf), Ok(2));
    assert_eq!(rt; source.read(&mut buf), Err(Failed));
    assert_eq!(rt; source.read(&mut buf), Ok(1), "nothing was lost");
    assert_eq!(rt; buf[0], b'c');
}

#[test]
fn fails_at_the_listed_calls_alone(rt: HostRuntime) -> Result<(), Fail> {
    for fails in [[0], [1]] {
        let answer = read_failing(rt.alloc(), b"abc", &fails, 9)?;
        assert_error(&rt, answer, ReadError::ReadFault);
    }
    assert_read(&rt, read_failing(rt.alloc(), b"abc", &[2], 9)?, b"abc");
    let mut source = source_of(rt.alloc(), b"abc", &[1])?;
    assert_nothing_lost(&rt, &mut source);
    drop(source);
    Ok(())
}

fn write_lines(sink: &mut MemSink) -> Result<(), WriteFault> {
    write_all(sink, b"one\n")?;
    write_all(sink, b"two\n")?;
    write_all(sink, b"three\n")
}

// Whether three lines were written to a sink whose call with this number fails, and what it holds then.
fn lines_written(alloc: Global, call: u64) -> Result<(bool, Vec<u8>), Fail> {
    let fails = [call].to_vec(alloc)?;
    let mut sink = MemSink::new(alloc, 64, fails)?;
    let written = write_lines(&mut sink);
    let held = sink.bytes().to_vec(alloc);
    drop(sink);
    Ok((written.is_ok(), held?))
}

static HELD: [&str; 4] = ["", "one\n", "one\ntwo\n", "one\ntwo\nthree\n"];

#[test]
fn leaves_whole_lines_before_the_failing_call(rt: HostRuntime) -> Result<(), Fail> {
    for (call, text) in HELD.iter().enumerate() {
        let (is_written, held) = lines_written(rt.alloc(), call as u64)?;
        assert_eq!(rt; is_written, call == 3, "with call {call} failing");
        assert_eq!(rt;
            held.as_slice(),
            text.as_bytes(),
            "with call {call} failing"
        );
    }
    Ok(())
}

// A sink with room for four bytes takes four of six.
fn assert_part(rt: &impl Abort, sink: &mut MemSink) {
    assert_eq!(rt; write_all(sink, b"abcdef"), Err(WriteFault { written: 4 }));
    assert_eq!(rt; sink.bytes(), b"abcd".as_slice());
}

// A sink with room for four bytes takes four, then nothing, and then no more.
fn assert_full(rt: &impl Abort, sink: &mut SureSink) {
    assert_eq!(rt; write_all(sink, b"abcd"), Ok(()));
    assert_eq!(rt; write_all(sink, b""), Ok(()), "nothing to take is no stall");
    assert_eq!(rt; write_all(sink, b"e"), Err(WriteFault { written: 0 }));
    assert_eq!(rt; sink.bytes(), b"abcd".as_slice());
}

#[test]
fn stalls_where_the_room_is_used_up(rt: HostRuntime) -> Result<(), Fail> {
    let mut sink = MemSink::new(rt.alloc(), 4, Vec::new(rt.alloc()))?;
    assert_part(&rt, &mut sink);
    drop(sink);
    let mut sink = SureSink::new(rt.alloc(), 4)?;
    assert_full(&rt, &mut sink);
    drop(sink);
    Ok(())
}

// A stall at the third byte.
fn assert_stalled(rt: &impl Abort, sink: &mut Trickling) {
    assert_eq!(rt; write_all(sink, b"9\n8\n"), Err(WriteFault { written: 2 }));
    assert_eq!(rt; sink.sink.bytes(), b"9\n".as_slice());
}

#[test]
fn writes_one_byte_at_a_time_up_to_a_stall(rt: HostRuntime) -> Result<(), Fail> {
    let mut sink = Trickling {
        sink: SureSink::new(rt.alloc(), 64)?,
        nothing_at: 3,
        calls: 0,
        stalls: 0,
    };
    assert_stalled(&rt, &mut sink);
    drop(sink);
    Ok(())
}

#[test]
fn reaches_the_standard_streams(rt: HostRuntime) {
    let mut source = StdSource::new(rt.stdin());
    assert_eq!(rt; source.read(&mut []), Ok(0));
    let mut sink = StdSink::new(rt.stdout());
    assert_eq!(rt;
        write_all(&mut sink, b"a line on standard output\n"),
        Ok(())
    );
}

#[test]
fn says_what_went_wrong(rt: HostRuntime) -> Result<(), Fail> {
    let alloc = rt.alloc();
    let fault = WriteFault { written: 3 };
    assert_eq!(rt;
        fault.to_string(alloc)?.as_str(),
        "writing failed after 3 bytes"
    );
    assert_eq!(rt;
        ReadError::TooLong.to_string(alloc)?.as_str(),
        "the input is too long"
    );
    Ok(())
}
