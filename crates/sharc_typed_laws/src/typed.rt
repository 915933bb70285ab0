//! Laws of code that is made of typed flat code.

ghost use Rattle.sharc_typed_laws.specs.TypedLaws.{PiecesAreTyped, PiecesAreScoped, TypedFlatIsTyped, AnyhowIsTyped};
ghost use Rattle.sharc_typed_laws.specs.TypedLaws.{CodeIsTyped};

/// The statements that an operation becomes are typed one after the other, from what is known before its line to what
/// may be known after it.
pub fn pieces_law()
    ensures { PiecesAreTyped }
{}

/// What is known at each of their places names registers of the frame that hold something.
pub fn scopes_law()
    ensures { PiecesAreScoped }
{}

/// The code of typed flat code is typed.
pub fn typed_law()
    ensures { TypedFlatIsTyped }
{}

/// Flat code that is typed whatever checks are remembered is typed with those that are, and without the checks that
/// repeat one.
pub fn anyhow_law()
    ensures { AnyhowIsTyped }
{}

/// So is the code that is made of it.
pub fn code_law()
    ensures { CodeIsTyped }
{
    anyhow_law();
    typed_law();
}
