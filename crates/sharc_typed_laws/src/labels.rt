//! Laws of flattened code.

ghost use Rattle.sharc_typed_laws.specs.{Begun.LabelsStand, Blocks.BlocksAreTyped, Decided.DecisionsAreTyped};
ghost use Rattle.sharc_typed_laws.specs.{Declared.LocalsAreTyped, Ended.EndsAreTyped, Left.JumpsAreTyped};
ghost use Rattle.sharc_typed_laws.specs.{Left.LeavesAreTyped, Returned.{NothingReturns, ValuesReturn}};
ghost use Rattle.sharc_typed_laws.specs.LabelsLaws.{ExpressionsAreTyped, LinesAreTyped, LinesKnow, LinesTell};
ghost use Rattle.sharc_typed_laws.specs.LabelsLaws.{PartsAreTyped, SimplesAreTyped, StretchesJoin, TestsAreTyped};

/// Lines that stand in a table of marks are typed whatever checks are remembered.
pub fn lines_law()
    ensures { LinesAreTyped }
{}

/// Before each of them is said what is remembered there of copies and of the numbers at hand.
pub fn tells_law()
    ensures { LinesTell }
{}

/// So at each access it is said of the base and of the index of its cell.
pub fn knows_law()
    ensures { LinesKnow }
{}

/// Typed stretches of code one after the other are one.
pub fn stretches_law()
    ensures { StretchesJoin }
{}

/// The parts of expressions that speak of no type of the source are typed.
pub fn parts_law()
    ensures { PartsAreTyped }
{}

/// The code of an expression of which the types of the source say what is asked is typed.
pub fn expressions_law()
    ensures { ExpressionsAreTyped }
{}

/// So is that of an assignment, or of a call whose value is dropped.
pub fn simples_law()
    ensures { SimplesAreTyped }
{}

/// Choices and loops of typed code are typed.
pub fn decisions_law()
    ensures { DecisionsAreTyped }
{}

/// So is a test.
pub fn tests_law()
    ensures { TestsAreTyped }
{}

/// A variable of a block is declared, and what is known with it is known behind it.
pub fn locals_law()
    ensures { LocalsAreTyped }
{}

/// At the end of a block its variables are given up, and what was known before it is known again.
pub fn ends_law()
    ensures { EndsAreTyped }
{}

/// A jump to a line to which code may lead is typed.
pub fn jumps_law()
    ensures { JumpsAreTyped }
{}

/// A function may be left where its variables are given up and nothing is given back.
pub fn returns_nothing_law()
    ensures { NothingReturns }
{}

/// So it may with a value, which goes to its first register after the variables are given up.
pub fn values_return_law()
    ensures { ValuesReturn }
{}

/// Statements and blocks at a line are typed.
pub fn blocks_law()
    ensures { BlocksAreTyped }
{}

/// Blocks that are open one in the other end one after the other.
pub fn leaves_law()
    ensures { LeavesAreTyped }
{}

/// What the types of the variables say may be said where a function begins, and before each of its statements.
pub fn labels_law()
    ensures { LabelsStand }
{}
