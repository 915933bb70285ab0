//! A source, read line by line.

ghost use Rattle.std.specs.Prelude.{◌≡◌, ◌+◌, ◌==◌, ◌-◌, ◌<◌, ◌≤◌, ◌^◌, length, IfOk, IfErr, OnOk, OnErr};
ghost use Rattle.std.specs.List.{prefix_len, position_or_len};
ghost use Rattle.sharc_lex.specs.{Bytes.is_blank, Faults.{Fails, Tells, Refuses, Gives}, Laws.AreTokensOf};
ghost use Rattle.sharc_lex.specs.{Laws.TellsPlace, Grammar.{IsWithin, opening, text_line, marker_line, line_read}};
ghost use Rattle.sharc_lex.specs.Grammar.{with_place, fault_at, tokens_read, reading};

use crate::fault::{LexFault, LineFailure, LineFault, SourceLine, TokenFault};
use crate::files::Files;
use crate::lines::read_tokens;
use crate::markers::{marker, marker_at};
use sharc_tree::token::{FaultAt, Site, Token, TokenList, Tokens};
use std::alloc::{AllocError, Global};

/// What was read so far.
#[derive(Drop)]
pub struct Reading<'a> {
    pub tokens: Vec<Token>,
    pub files: Files<'a>,
    /// The place of the last line that was read.
    pub here: SourceLine,
    /// The place of the line after it.
    pub next: SourceLine,
}

/// The fault with its place.
fn fault_at(
    alloc: Global,
    files: &Files<'_>,
    place: SourceLine,
    found: LineFault,
) -> Result<FaultAt<TokenFault>, AllocError>
    requires { place.file < length files.now }
    ensures { IfOk result (λ made. made ≡ fault_at files.now place found) }
{
    let file = files.name(alloc, place.file)?;
    let text = found.fault.text(alloc)?;
    Ok(FaultAt {
        code: found.fault,
        file,
        line: place.line,
        offset: found.offset as u64,
        text,
    })
}

impl<'a> Reading<'a> {
    ghost use Rattle.sharc_lex.specs.Seen.{read_of};

    /// Before the first line: the file is `input`, and lines are counted from 1.
    fn new(alloc: Global) -> Result<Self, AllocError>
        ensures { IfOk result (λ made. read_of made ≡ opening) }
    {
        let first = SourceLine { file: 0, line: 1 };
        Ok(Reading {
            tokens: Vec::new(alloc),
            files: Files::of(alloc, b"input")?,
            here: first,
            next: first,
        })
    }

    /// Reads a line of text, which begins at an offset.
    fn text_line(&mut self, alloc: Global, offset: usize, line: &[u8]) -> Result<(), LineFailure>
        requires fits { offset + length line.now ≤ 2 ^ 20 }
        requires room { self.old.next.line < 2 ^ 32 - 1 }
        ensures read { OnOk result (text_line (read_of self.old) offset line.now ≡ Ok (read_of self.new)) }
        ensures failed { IfErr result (λ e. Fails e (text_line (read_of self.old) offset line.now)) }
        ensures kept { OnErr result (self.new.files ≡ self.old.files) }
    {
        read_tokens(alloc, &mut self.tokens, self.next, offset, line)?;
        self.here = self.next;
        self.next.line += 1;
        Ok(())
    }

    /// Reads a line marker, whose `#` is at a place of the line.
    fn marker_line(
        &mut self,
        offset: usize,
        start: usize,
        line: &'a [u8],
    ) -> Result<(), LineFailure>
        requires fits { offset + length line.now ≤ 2 ^ 20 }
        requires starts { start ≡ prefix_len is_blank line.now }
        requires within { start < length line.now }
        requires room { length self.old.files < 2 ^ 32 }
        ensures read { OnOk result (marker_line (read_of self.old) offset line.now ≡ Ok (read_of self.new)) }
        ensures failed { IfErr result (λ e. Fails e (marker_line (read_of self.old) offset line.now)) }
        ensures kept { OnErr result (self.new.files ≡ self.old.files) }
    {
        match marker(&line[start + 1..]) {
            Some(found) => {
                let file = self.files.place(found.file)?;
                self.here = self.next;
                self.next = SourceLine {
                    file,
                    line: found.line,
                };
                Ok(())
            }
            None => Err(LineFailure::At(LineFault {
                offset: offset + start,
                fault: TokenFault::Marker,
            })),
        }
    }

    /// Reads a line of either kind.
    fn either_line(
        &mut self,
        alloc: Global,
        offset: usize,
        line: &'a [u8],
    ) -> Result<(), LineFailure>
        requires fits { offset + length line.now ≤ 2 ^ 20 }
        requires within { IsWithin offset (read_of self.old) }
        ensures read { OnOk result (line_read (read_of self.old) offset line.now ≡ Ok (read_of self.new)) }
        ensures failed { IfErr result (λ e. Fails e (line_read (read_of self.old) offset line.now)) }
        ensures kept { OnErr result (self.new.files ≡ self.old.files) }
    {
        match marker_at(line) {
            Some(start) => self.marker_line(offset, start, line),
            None => self.text_line(alloc, offset, line),
        }
    }

    /// Reads a line; a fault gets its place.
    fn line(&mut self, alloc: Global, offset: usize, line: &'a [u8]) -> Result<(), LexFault>
        requires fits { offset + length line.now ≤ 2 ^ 20 }
        requires within { IsWithin offset (read_of self.old) }
        ensures read { OnOk result (with_place (read_of self.old) (line_read (read_of self.old) offset line.now)
            ≡ Ok (read_of self.new)) }
        ensures failed { IfErr result
            (λ e. Refuses e (with_place (read_of self.old) (line_read (read_of self.old) offset line.now))) }
    {
        let place = self.next;
        match self.either_line(alloc, offset, line) {
            Ok(()) => Ok(()),
            Err(LineFailure::At(found)) => Err(LexFault::At(fault_at(
                alloc,
                &self.files,
                place,
                found,
            )?)),
            Err(LineFailure::Memory) => Err(LexFault::Memory),
        }
    }

    /// The tokens that were read, with the end of input on the last line.
    fn finish(self, alloc: Global) -> Result<Tokens, AllocError>
        requires { length self.tokens.items ≤ 2 ^ 20 + 1 }
        ensures { IfOk result (λ made. made ≡ tokens_read (read_of self.entry)) }
    {
        let Reading {
            tokens,
            files,
            here,
            next: _,
        } = self;
        let files = files.names(alloc)?;
        let end = Site {
            file: here.file,
            line: here.line,
            token: tokens.len() as u32,
        };
        let list = TokenList::of(tokens);
        Ok(Tokens { list, files, end })
    }
}

/// How many bytes there are before the first newline.
fn line_len(bytes: &[u8]) -> usize
    ensures len { result ≡ position_or_len (λ b. b == 10) bytes.now }
    ensures within { result ≤ length bytes.now }
{
    for (i, byte) in bytes.iter().enumerate() {
        if *byte == b'\n' {
            return i;
        }
    }
    bytes.len()
}

/// The tokens of a preprocessed source, or its first fault.
pub fn lex(alloc: Global, source: &[u8]) -> Result<Tokens, LexFault>
    requires { length source.now ≤ 1_048_576 }
    // The answer is the grammar's: the one reading, or the first fault. Only running out of memory is left open.
    ensures exact { Gives result (reading source.now) }
    // What the layers above ask of tokens: each is the longest that is there, and has the file and the line of its
    // place.
    ensures tokens { IfOk result (AreTokensOf source.now) }
    // A fault has the file and the line of its offset.
    ensures place { IfErr result (TellsPlace source.now) }
{
    let mut reading = Reading::new(alloc)?;
    let mut at = 0;
    while at <= source.len() {
        let rest = &source[at..];
        let len = line_len(rest);
        reading.line(alloc, at, &rest[..len])?;
        at += len + 1;
    }
    Ok(reading.finish(alloc)?)
}
