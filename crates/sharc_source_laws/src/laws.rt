//! The laws: each is the contract of a function that does nothing.

ghost use Rattle.sharc_source_laws.specs.Constants.{ConstantsAreHeld, EachConstantIsHeld};
ghost use Rattle.sharc_source_laws.specs.Laws.{NumbersHaveNoSign, ProgramsHoldNoEvents, ProgramsHoldNoSchedule};

/// No newline of a program is followed by `%%schedule `: so a recorded file of a program ends it where the schedule
/// begins.
pub fn programs_hold_no_schedule()
    ensures { ProgramsHoldNoSchedule }
{}

/// Nor is any followed by `%%events `: so an event file of a program ends it where the events begin.
pub fn programs_hold_no_events()
    ensures { ProgramsHoldNoEvents }
{}

/// No number at which a global of a program begins has a sign of its own: its minus, if there is one, is a token before
/// it.
pub fn numbers_have_no_sign()
    ensures { NumbersHaveNoSign }
{}

/// The type of each number and of each character in the functions of a program holds its value, as the lexer types them
/// (C11 6.4.4.1, 6.4.4.4).
pub fn constants_are_held()
    ensures { ConstantsAreHeld }
{}

/// So does the type of each constant among the expressions of a function.
pub fn each_constant_is_held()
    ensures { EachConstantIsHeld }
{
    constants_are_held();
}
