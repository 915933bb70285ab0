// Laws of the definitions.

ghost use Rattle.sharc_audit.specs.{Audited.OneVerdict, FileLaws.FileLaws, Running.RunsNeverFail};

use sharc_judge::laws::{entry_laws, rule_laws};
use sharc_meaning::laws::{ask_laws, run_laws, store_laws};

/// A list of event lines has one verdict at most.
pub fn audit_laws()
    ensures { OneVerdict }
{
    ask_laws();
    store_laws();
    run_laws();
    rule_laws();
    entry_laws();
}

/// The lines of a source run that obeys never fail: with each fuel they obey, or the fuel of a thread is spent.
pub fn runs_never_fail()
    ensures { RunsNeverFail }
{
    ask_laws();
    store_laws();
    run_laws();
    rule_laws();
    entry_laws();
}

/// A text is one event file at most, and then no line is the first that continues none; that line is one; and a text
/// with a newline has what stands before it as its first line.
pub fn file_laws()
    ensures { FileLaws }
{}
