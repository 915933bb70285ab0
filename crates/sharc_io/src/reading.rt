//! Reading all that a source has left.

ghost use Rattle.std.specs.Prelude.{◌≡◌, ◌<◌, ◌≤◌, ◌+◌, ◌++◌, length, vec_len, take, OnOk, OnErr, IfOk, IfSome};
ghost use Rattle.std.specs.{Prelude.IsErrOf, Io.KnownBytes.{Consumes, IsAtEnd}};
ghost use Rattle.sharc_io.specs.{Causes.Rose, Reading.{TakesFront, TakesAtMost}};

use crate::{Failed, Source};
use std::alloc::Global;
use thiserror::Error;

// How many bytes are asked for in one call at most.
const CHUNK: usize = 8192;

/// Why not all of a source was read.
#[derive(Clone, Copy, Debug, PartialEq, Eq, Error)]
pub enum ReadError {
    /// The source failed.
    #[error("reading failed")]
    ReadFault,
    /// More bytes came than are allowed.
    #[error("the input is too long")]
    TooLong,
    /// No memory was found for the bytes.
    #[error("out of memory")]
    Memory,
}

/// Reads all that a source has left, where that is at most `limit` bytes.
///
/// After an error the bytes that came are lost: a front part of what was left has been taken.
pub fn read_all<S: Source>(
    alloc: Global,
    source: &mut S,
    limit: usize,
) -> Result<Vec<u8>, ReadError>
    requires { limit < usize.MAX }
    // The answer is all that was left.
    ensures all { IfOk result (λ bytes. IfSome (S.left source.old) (λ left. bytes.items ≡ left)) }
    ensures end { OnOk result (IsAtEnd (S.left source.new)) }
    ensures within { IfOk result (λ bytes. vec_len bytes ≤ limit) }

    // `TooLong` comes exactly where one byte more than the limit came: with no other answer did as many come.
    ensures too_long { IsErrOf result ReadError.TooLong
        → TakesFront (S.left source.old) (S.left source.new) (limit + 1) }
    ensures longer { IsErrOf result ReadError.TooLong → IfSome (S.left source.old) (λ left. limit < length left) }
    ensures fault_in_limit { IsErrOf result ReadError.ReadFault
        → TakesAtMost (S.left source.old) (S.left source.new) limit }
    ensures memory_in_limit { IsErrOf result ReadError.Memory
        → TakesAtMost (S.left source.old) (S.left source.new) limit }

    // `ReadFault` comes only where the source's count of faults rose in this call.
    ensures fault { IsErrOf result ReadError.ReadFault → Rose (S.faults source.old) (S.faults source.new) }
    ensures counted { S.faults source.old ≤ S.faults source.new }
{
    let mut bytes = Vec::new(alloc);
    let mut chunk = [0u8; CHUNK];
    loop {
        let room = limit - bytes.len();
        let most = CHUNK.min(room + 1);
        if append_some(source, &mut bytes, &mut chunk[..most], room)? == 0 {
            return Ok(bytes);
        }
    }
}

// One read, by a buffer of at most one byte more than `room`. Appends the bytes that came and answers how many they
// are, 0 only at the end of input. More than `room` are too many.
fn append_some<S: Source>(
    source: &mut S,
    bytes: &mut Vec<u8>,
    buf: &mut [u8],
    room: usize,
) -> Result<usize, ReadError>
    requires some { 0 < length buf.old }
    requires fits { length buf.old ≤ room + 1 }
    ensures appended { IfOk result (λ count. bytes.new.items ≡ bytes.old.items ++ take count buf.new) }
    ensures taken { IfOk result (λ count. Consumes (S.left source.old) (S.left source.new) (take count buf.new)) }
    ensures in_buf { IfOk result (λ count. count ≤ length buf.new) }
    ensures in_room { IfOk result (λ count. count ≤ room) }
    ensures end { IfOk result (λ count. count ≡ 0 → IsAtEnd (S.left source.new)) }
    ensures too_long { IsErrOf result ReadError.TooLong
        → TakesFront (S.left source.old) (S.left source.new) (room + 1) }
    ensures fault_in_room { IsErrOf result ReadError.ReadFault → TakesAtMost (S.left source.old) (S.left source.new) 0 }
    ensures memory_in_room { IsErrOf result ReadError.Memory
        → TakesAtMost (S.left source.old) (S.left source.new) room }
    ensures fault { IsErrOf result ReadError.ReadFault → Rose (S.faults source.old) (S.faults source.new) }
    ensures counted { S.faults source.old ≤ S.faults source.new }
{
    match source.read(buf) {
        Err(Failed) => Err(ReadError::ReadFault),
        Ok(count) if count > room => Err(ReadError::TooLong),
        Ok(count) => match bytes.extend_from_slice(&buf[..count]) {
            Ok(()) => Ok(count),
            Err(_) => Err(ReadError::Memory),
        },
    }
}
