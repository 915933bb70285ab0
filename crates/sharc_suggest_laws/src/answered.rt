// What `apply` of sharc_suggest_laws answers of a cast that is suggested.

ghost use Rattle.std.specs.Prelude.{◌≡◌, Some};
ghost use Rattle.sharc_tree.specs.{Low.IsLow, Placed.IsPlaced};
ghost use Rattle.sharc_suggest_laws.specs.{Applied.assignment_with, Gone.IsGone};
ghost use Rattle.sharc_suggest.specs.Casts.{IsSuggested};

use crate::laws::repairs_where_typed;
use sharc_mode::error::{Cast, ModeError};
use sharc_mode::moded::Moded;

/// Of a program that was read, what `apply` answers of the cast that is suggested for an error has no M1 at the place
/// of that error.
pub fn is_repaired(program: &Moded, error: &ModeError, cast: &Cast, repaired: &Moded)
    ensures { IsPlaced program.now.typed.program → IsLow program.now.typed.program
        → IsSuggested program.now error.now (Some cast.now) → repaired.now ≡ assignment_with cast.now program.now
        → IsGone repaired.now error.now.site.token }
{
    repairs_where_typed();
    program.typed().program();
    program.position_count();
    repaired.typed().program();
}
