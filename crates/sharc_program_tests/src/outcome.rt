//! What the top call answers, and programs that it runs. What its runtime has to offer is said in this file alone.

use sharc_io::{Sink, Source};
use sharc_rounds::Gate;
use sharc_top::sharc_top;
use std::alloc::{AllocError, Global};
use std::process::Abort;
use std::sync::Wait;
use std::thread::Threads;

/// Three threads print a readonly field, which is 9.
pub(crate) const READERS: &str = "struct cfg { int readonly k; };
void r(struct cfg dynamic * c) {
  print(c->k);
}
int main(void) {
  struct cfg private * p = malloc(sizeof(struct cfg));
  p->k = 9;
  struct cfg dynamic * c = SCAST(struct cfg dynamic *, p);
  int a = spawn(r, c);
  int b = spawn(r, c);
  join(a);
  join(b);
  print(c->k);
  return 0;
}
";

/// What a call answered, and what its sink then held.
#[derive(Debug, Drop)]
pub(crate) struct Outcome {
    pub(crate) status: u8,
    pub(crate) text: Vec<u8>,
}

/// The status of the call with the words of this line, which are separated by single spaces.
pub(crate) fn called<R: Threads + Wait + Sync, G: Gate + Sync, S: Source, O: Sink>(
    rt: &R,
    gate: &G,
    alloc: Global,
    line: &str,
    source: &mut S,
    sink: &mut O,
) -> Result<u8, AllocError> {
    let mut words = Vec::new(alloc);
    for word in line.split(' ') {
        words.push(String::from_str(alloc, word)?)?;
    }
    Ok(sharc_top(rt, gate, alloc, &words, source, sink))
}

/// Asserts the status and the text.
pub(crate) fn assert_outcome(
    rt: &impl Abort,
    found: &Outcome,
    label: &str,
    status: u8,
    text: &str,
) {
    assert_eq!(rt; found.status, status, "{label}");
    assert_eq!(rt; found.text.as_slice(), text.as_bytes(), "{label}");
}
