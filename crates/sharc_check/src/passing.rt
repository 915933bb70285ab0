// What is passed at a call or a spawn, and to which parameters.

ghost use Rattle.std.specs.Prelude.{◌≡◌, drop};
ghost use Rattle.sharc_mode.specs.{Rows.{at_call, argument_use}, View.view_reading};
ghost use Rattle.sharc_check.specs.Passed.{view_passed};

use sharc_ctype::typed::Typed;
use sharc_mode::read::spawn_argument_use;
use sharc_mode::row::{PathReading, argument_use};
use sharc_tree::tree::{Declaration, Expr};

/// The arguments of a call, or the one of a spawn.
#[derive(Clone, Copy)]
pub enum Passed<'a> {
    All(&'a [Expr]),
    One(&'a Expr),
}

/// The parameters of what is called or spawned, and what is passed.
#[derive(Clone, Copy)]
pub struct Passing<'a> {
    pub parameters: &'a [Declaration],
    pub passed: Passed<'a>,
}

/// The parameters after the first that is left.
pub fn without_first(left: &[Declaration]) -> &[Declaration]
    ensures { result.now ≡ drop 1 left.now }
{
    match left {
        [] => left,
        [_, rest @ ..] => rest,
    }
}

impl<'a> Passing<'a> {
    /// How the lock paths of the parameters' types are read there.
    pub fn reading(self) -> PathReading<'a>
        ensures { view_reading result ≡ at_call self.entry.parameters.now (view_passed self.entry.passed) }
    {
        match self.passed {
            Passed::All(arguments) => PathReading::Call(self.parameters, arguments),
            Passed::One(value) => PathReading::Spawn(self.parameters, value),
        }
    }

    /// What is passed for the parameter that this token declares, where it is a constant variable.
    pub(crate) fn argument_use(self, typed: &Typed, wanted: u32) -> Option<u32>
        ensures { result ≡ argument_use typed.now self.entry.parameters.now (view_passed self.entry.passed) wanted }
    {
        match self.passed {
            Passed::All(arguments) => argument_use(typed, self.parameters, arguments, wanted),
            Passed::One(value) => spawn_argument_use(typed, self.parameters, value, wanted),
        }
    }
}
