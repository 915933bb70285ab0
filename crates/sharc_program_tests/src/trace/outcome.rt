//! What the call answers over sources and sinks in memory.

use sharc_io::{MemSink, MemSource, Sink, Source, SureSink, SureSource};
use sharc_traced::{Ended, sharc_trace};
use sharc_tree::held::both;
use std::alloc::{AllocError, Global};

/// Room for a reply.
const ROOM: usize = 100_000;

/// How a call ended, and what its sink then held.
#[derive(Drop)]
pub(crate) struct Outcome {
    pub(crate) ended: Ended,
    pub(crate) text: Vec<u8>,
}

fn words_of(alloc: Global, words: &[&str]) -> Result<Vec<String>, AllocError> {
    let mut all = Vec::new(alloc);
    for word in words {
        all.push(String::from_str(alloc, word)?)?;
    }
    Ok(all)
}

/// How the call ends over this source and this sink.
fn called<S: Source, O: Sink>(
    alloc: Global,
    words: &[&str],
    source: &mut S,
    sink: &mut O,
) -> Result<Ended, AllocError> {
    let words = words_of(alloc, words)?;
    Ok(sharc_trace(alloc, &words, source, sink))
}

fn outcome_of(
    ended: Result<Ended, AllocError>,
    text: Result<Vec<u8>, AllocError>,
) -> Result<Outcome, AllocError> {
    Ok(Outcome {
        text: text?,
        ended: ended?,
    })
}

/// The outcome of the call over an input that never fails, and a sink with this much room.
pub(crate) fn full(
    alloc: Global,
    words: &[&str],
    input: &[u8],
    room: usize,
) -> Result<Outcome, AllocError> {
    let source = SureSource::new(input.to_vec(alloc)?);
    let (mut source, mut sink) = both(source, SureSink::new(alloc, room))?;
    let ended = called(alloc, words, &mut source, &mut sink);
    outcome_of(ended, sink.bytes().to_vec(alloc))
}

fn failing_source(alloc: Global, input: &[u8], fails: &[u64]) -> Result<MemSource, AllocError> {
    let (input, fails) = both(input.to_vec(alloc)?, fails.to_vec(alloc))?;
    Ok(MemSource::new(input, fails))
}

fn failing_sink(alloc: Global, fails: &[u64]) -> Result<MemSink, AllocError> {
    MemSink::new(alloc, ROOM, fails.to_vec(alloc)?)
}

/// The outcome of the call where these calls of the source and of the sink fail, counted from 0.
pub(crate) fn failing(
    alloc: Global,
    words: &[&str],
    input: &[u8],
    read_fails: &[u64],
    write_fails: &[u64],
) -> Result<Outcome, AllocError> {
    let source = failing_source(alloc, input, read_fails)?;
    let (mut source, mut sink) = both(source, failing_sink(alloc, write_fails))?;
    let ended = called(alloc, words, &mut source, &mut sink);
    outcome_of(ended, sink.bytes().to_vec(alloc))
}
