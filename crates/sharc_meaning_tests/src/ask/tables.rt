//! Tables of sources with what their threads ask for, as one text: a source, a line `--`, and lines of a question, ` =
//! ` and what is wanted; a line `==` is between two cases. What begins with `..` is the end of what is wanted, and what
//! follows `gives up` is what is given up after the last event.

use crate::ask::question::question_of;
use crate::ask::told::{asked_text, given_up_text};
use crate::sources::{inferred, parts};
use sharc_ask::asked::Asked;
use sharc_ask::thread::ask;
use sharc_mode::moded::Moded;
use std::alloc::AllocError;
use std::process::Abort;
use std::test::Fail;

/// What is answered to a question.
fn answer_to(
    rt: &(impl Abort + AllocGlobal),
    m: &Moded,
    question: &str,
) -> Result<Asked, AllocError> {
    let q = question_of(rt.alloc(), m.typed(), question)?;
    ask(
        rt.alloc(),
        m,
        q.function,
        q.argument,
        q.answers.as_slice(),
        q.fuel,
    )
}

/// Asserts what is asked for in one line, or what is given up after its last event where the line begins so.
fn assert_line(
    rt: &(impl Abort + AllocGlobal),
    m: &Moded,
    source: &str,
    question: &str,
    wanted: &str,
) -> Result<(), Fail> {
    let asked = answer_to(rt, m, question)?;
    match wanted.strip_prefix("gives up ") {
        None => assert_asked(rt, &asked, source, question, wanted),
        Some(given) => {
            let text = given_up_text(rt.alloc(), &asked)?;
            assert_eq!(rt; text.as_str(), given, "{question} of {source}");
            Ok(())
        }
    }
}

/// Asserts the events, and how far it came.
fn assert_asked(
    rt: &(impl Abort + AllocGlobal),
    asked: &Asked,
    source: &str,
    question: &str,
    wanted: &str,
) -> Result<(), Fail> {
    let text = asked_text(rt.alloc(), asked)?;
    match wanted.strip_prefix("..") {
        None => assert_eq!(rt; text.as_str(), wanted, "{question} of {source}"),
        Some(end) => assert!(rt; text.ends_with(end), "{text} of {source}"),
    }
    Ok(())
}

/// Asserts what is asked for in these lines.
pub(crate) fn assert_lines(
    rt: &(impl Abort + AllocGlobal),
    source: &str,
    lines: &str,
) -> Result<(), Fail> {
    let m = inferred(rt, source)?;
    for line in lines.lines() {
        let (question, wanted) = parts(rt, line, " = ")?;
        assert_line(rt, &m, source, question, wanted)?;
    }
    Ok(())
}

/// Asserts what is asked for in each case of a table.
pub(crate) fn assert_table(rt: &(impl Abort + AllocGlobal), table: &str) -> Result<(), Fail> {
    for case in table.split("==\n") {
        let (source, lines) = parts(rt, case, "--\n")?;
        assert_lines(rt, source, lines)?;
    }
    Ok(())
}

/// Asserts what a thread prints of an expression, or where it stops.
fn assert_value(
    rt: &(impl Abort + AllocGlobal),
    expression: &str,
    wanted: &str,
) -> Result<(), Fail> {
    let source = format!(in rt.alloc(); "int main(void) {{ print({expression}); return 0; }}")?;
    let m = inferred(rt, source.as_str())?;
    let outcome = if wanted.starts_with("X") {
        format!(in rt.alloc(); "{wanted} at line 1")?
    } else {
        format!(in rt.alloc(); "wants print {wanted}, holds")?
    };
    assert_line(rt, &m, source.as_str(), "main 0 100", outcome.as_str())
}

/// Asserts the same of each line: an expression, ` = ` and what is wanted.
pub(crate) fn assert_values(rt: &(impl Abort + AllocGlobal), table: &str) -> Result<(), Fail> {
    for line in table.lines() {
        let (expression, wanted) = parts(rt, line, " = ")?;
        assert_value(rt, expression, wanted)?;
    }
    Ok(())
}
