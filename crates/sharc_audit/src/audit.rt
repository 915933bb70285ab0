// The auditor.

ghost use Rattle.std.specs.Prelude.{◌≡◌, ◌<◌, ◌^◌, IfOk, length, MatchOption};
ghost use Rattle.sharc_audit.specs.{Audited.Audits, Breaking.{IsPassed, IsFault}};
ghost use Rattle.sharc_judge.specs.Kept.{AreUnbroken};

use crate::line::EventLines;
use crate::matching::is_line;
use crate::reported::told_to_each;
use crate::runs::Runs;
use crate::threads::{NextEvent, accept, next_asked};
use sharc_check::Checked;
use sharc_judge::Past;
use sharc_judge::laws::rule_laws;
use sharc_judge::rule::Rule;
use sharc_judge::starts::main_of;
use sharc_meaning::laws::{ask_laws, run_laws, store_laws};
use sharc_mode::moded::Moded;
use sharc_tree::event::SourceEvent;
use std::alloc::{AllocError, Global};

/// Why an event is not accepted.
#[derive(Clone, Copy, PartialEq, Eq, Debug, Drop)]
pub enum EventFault {
    /// Its thread does not ask for it.
    NotAsked,
    /// What the events before left refuses it.
    NotLegal,
    /// It breaks a rule of the modes: the lowest.
    Rule(Rule),
}

/// What is answered of a list of event lines. Lines are counted from 1.
#[derive(Clone, Copy, PartialEq, Eq, Debug, Drop)]
pub enum Verdict {
    /// They are a run at this fuel that obeys the modes: this many events.
    Obeys(u32),
    /// This event is the first that is not accepted.
    Fails(u32, EventFault),
    /// This event is, since its thread's fuel is spent before it.
    Fuel(u32),
}

/// Why the event, which is asked for, is not accepted after these, none of which breaks a rule.
fn fault_of(program: &Moded, past: &Past, e: &SourceEvent) -> Option<EventFault>
    requires { AreUnbroken past.now }
    ensures { MatchOption result (IsPassed program.now past.now e.now)
        (λ fault. IsFault program.now past.now e.now fault) }
{
    if !past.may_come(program.typed(), e) {
        return Some(EventFault::NotLegal);
    }
    match past.broken_by(e) {
        None => None,
        Some(rule) => Some(EventFault::Rule(rule)),
    }
}

/// Audits a list of event lines with a fuel for each thread.
pub fn audit(
    alloc: Global,
    checked: &Checked,
    lines: &EventLines,
    fuel: u64,
) -> Result<Verdict, AllocError>
    requires { length lines.now < 2 ^ 32 }
    ensures { IfOk result (λ v. Audits checked.now fuel lines.now v) }
{
    ask_laws();
    store_laws();
    run_laws();
    rule_laws();
    let m = checked.moded();
    let main = main_of(m.typed())?;
    let all = lines.as_slice();
    let mut past = Past::new(alloc);
    let reported = told_to_each(alloc, all)?;
    let mut runs = Runs::new(alloc);
    for i in 0..all.len() {
        let n = i as u32 + 1;
        let line = &all[i];
        let rest = &all[i + 1..];
        let next = next_asked(alloc, m, main, fuel, &past, line, rest, &mut runs)?;
        match next {
            NextEvent::Spent => return Ok(Verdict::Fuel(n)),
            NextEvent::Nothing => return Ok(Verdict::Fails(n, EventFault::NotAsked)),
            NextEvent::Wants(e) => {
                if !is_line(m.typed(), line, &e) {
                    return Ok(Verdict::Fails(n, EventFault::NotAsked));
                }
                if let Some(fault) = fault_of(m, &past, &e) {
                    return Ok(Verdict::Fails(n, fault));
                }
                accept(
                    alloc, m, main, fuel, &past, line, rest, &reported, &mut runs,
                )?;
                past = past.with(alloc, e)?;
            }
        }
    }
    Ok(Verdict::Obeys(all.len() as u32))
}
