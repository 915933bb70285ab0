//! The lines that are written of verdicts and of faults of event files.

ghost use Rattle.std.specs.Prelude.{◌≡◌, ◌++◌, codes, decimal, Some, IfOk, OnOk};
ghost use Rattle.sharc_judge.specs.Judged.{number};
ghost use Rattle.sharc_audit.specs.Texts.{fault_words, verdict_words, verdict_line, file_fault_line};

use crate::audit::{EventFault, Verdict};
use crate::file::FileFault;
use itoa::Buffer;
use sharc_judge::rule::Rule;
use std::alloc::{AllocError, Global};

fn put_number(text: &mut Vec<u8>, number: u64) -> Result<(), AllocError>
    ensures { OnOk result (text.new.items ≡ text.old.items ++ decimal number) }
{
    let mut buffer = Buffer::new();
    text.extend_from_slice(buffer.format(number).as_bytes())
}

fn put_numbered(
    text: &mut Vec<u8>,
    before: &[u8],
    number: u64,
    after: &[u8],
) -> Result<(), AllocError>
    ensures { OnOk result (text.new.items ≡ text.old.items ++ (before.now ++ decimal number ++ after.now)) }
{
    text.extend_from_slice(before)?;
    put_number(text, number)?;
    text.extend_from_slice(after)
}

/// The number of a rule, from 1.
fn number(rule: Rule) -> u8
    ensures { result ≡ number rule }
{
    match rule {
        Rule::Live => 1,
        Rule::OneMode => 2,
        Rule::Owner => 3,
        Rule::NotWritten => 4,
        Rule::UnderItsLock => 5,
        Rule::ReadSharedOrOneThread => 6,
    }
}

fn put_fault(text: &mut Vec<u8>, fault: EventFault) -> Result<(), AllocError>
    ensures { OnOk result (text.new.items ≡ text.old.items ++ fault_words fault) }
{
    match fault {
        EventFault::NotAsked => text.extend_from_slice(b"E1 not asked for"),
        EventFault::NotLegal => text.extend_from_slice(b"E2 not legal"),
        EventFault::Rule(rule) => { put_numbered(text, b"E3 rule ", u64::from(number(rule)), b"") }
    }
}

fn put_verdict(text: &mut Vec<u8>, verdict: Verdict, fuel: u64) -> Result<(), AllocError>
    ensures { OnOk result (text.new.items ≡ text.old.items ++ verdict_words fuel verdict) }
{
    match verdict {
        Verdict::Obeys(n) => put_numbered(text, b"obeys ", u64::from(n), b" events"),
        Verdict::Fails(n, fault) => {
            put_numbered(text, b"event ", u64::from(n), b": ")?;
            put_fault(text, fault)
        }
        Verdict::Fuel(n) => {
            put_numbered(text, b"event ", u64::from(n), b": U1 fuel ")?;
            put_numbered(text, b"", fuel, b" spent")
        }
    }
}

/// The line of a verdict at this fuel, with its newline.
pub fn verdict_text(alloc: Global, verdict: Verdict, fuel: u64) -> Result<Vec<u8>, AllocError>
    ensures { IfOk result (λ text. text.items ≡ verdict_line fuel verdict) }
{
    let mut text = Vec::new(alloc);
    put_verdict(&mut text, verdict, fuel)?;
    text.extend_from_slice(b"\n")?;
    Ok(text)
}

/// The line of a text that is no event file, or that has too many events, with its newline. Being out of memory has
/// none, and is passed on.
pub fn file_fault_text(alloc: Global, fault: FileFault) -> Result<Vec<u8>, AllocError>
    ensures { IfOk result (λ text. file_fault_line fault ≡ Some text.items) }
{
    let mut text = Vec::new(alloc);
    match fault {
        FileFault::Line(n) => put_numbered(
            &mut text,
            b"V2 not an event file at line ",
            u64::from(n),
            b"\n",
        )?,
        FileFault::Many => text.extend_from_slice(b"V3 over 4096 events\n")?,
        FileFault::Memory => return Err(AllocError),
    }
    Ok(text)
}
