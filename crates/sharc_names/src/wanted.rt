// What the arguments of a call are wanted to be, in their order.

ghost use Rattle.std.specs.Prelude.{◌≡◌, length, drop};
ghost use Rattle.sharc_names.specs.{View.{view_kinds, view_wanted}, Wants.first_wanted};

use crate::kind::{ExpressionKind, declared_kind};
use crate::meaning::ConditionCall;
use sharc_tree::tree::Declaration;

/// What arguments are wanted to be. A contract sees the list of their kinds.
#[derive(Clone, Copy)]
pub enum Wanted<'a> {
    /// What these parameters are declared as.
    Parameters(&'a [Declaration]),
    /// What a known call takes.
    Condition(ConditionCall),
    /// A pointer to a mutex, which is the second argument of `wait`.
    MutexPointer,
}

/// The number of arguments.
pub fn count_of(wanted: Wanted<'_>) -> usize
    ensures { result ≡ length (view_wanted wanted.entry) }
{
    match wanted {
        Wanted::Parameters(list) => list.len(),
        Wanted::Condition(ConditionCall::Wait) => 2,
        Wanted::Condition(ConditionCall::Signal) => 1,
        Wanted::Condition(ConditionCall::Broadcast) => 1,
        Wanted::MutexPointer => 1,
    }
}

/// What the first argument is wanted to be, if one is wanted.
pub fn first_wanted(wanted: Wanted<'_>) -> Option<ExpressionKind<'_>>
    ensures { view_kinds result ≡ first_wanted (view_wanted wanted.entry) }
{
    match wanted {
        Wanted::Parameters([]) => None,
        Wanted::Parameters([first, ..]) => Some(declared_kind(&first.written)),
        Wanted::Condition(_) => Some(ExpressionKind::condition_pointer()),
        Wanted::MutexPointer => Some(ExpressionKind::mutex_pointer()),
    }
}

/// What the arguments after the first have to be.
pub fn rest_wanted(wanted: Wanted<'_>) -> Wanted<'_>
    ensures { view_wanted result ≡ drop 1 (view_wanted wanted.entry) }
{
    match wanted {
        Wanted::Parameters([]) => wanted,
        Wanted::Parameters([_, rest @ ..]) => Wanted::Parameters(rest),
        Wanted::Condition(ConditionCall::Wait) => Wanted::MutexPointer,
        Wanted::Condition(_) => Wanted::Parameters(&[]),
        Wanted::MutexPointer => Wanted::Parameters(&[]),
    }
}
