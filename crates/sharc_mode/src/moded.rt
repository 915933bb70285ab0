// A typed program with a mode for each of its positions.

ghost use Rattle.std.specs.Prelude.{◌≡◌, ◌<◌, length, slice_index_or, IfOk};
ghost use Rattle.sharc_tree.specs.declared.ctype.Mode.TheVariants.{Private as PrivateMode};
ghost use Rattle.sharc_mode.specs.{Moded.{position_count, IsWhole, mode_at, reason_at}, View.view_sharing};

use crate::position::{Modes, Reason, Reasons};
use crate::sharing::{Sharing, sharing_of};
use sharc_ctype::typed::Typed;
use sharc_tree::ctype::Mode;
use sharc_tree::listed::Listed;
use std::alloc::{AllocError, Global};
use std::marker::Model;

/// A typed program with a mode for each position, and a reason for each that was inferred to be dynamic. A contract
/// sees it as these.
pub struct Moded {
    typed: Typed,
    modes: Modes,
    reasons: Reasons,
}

/// A drop that is written out is proved here once; one that is derived is proved in each crate that drops a program
/// with its modes.
impl Drop for Moded {
    fn drop(self) {
        let Moded {
            typed,
            modes,
            reasons,
        } = self;
        drop(typed);
        drop(modes);
        drop(reasons);
    }
}

impl Model for Moded {
    ghost use Rattle.std.specs.Coded.{codes};
    ghost use Rattle.sharc_ctype.specs.Codes.{coded_expression, coded_statements};
    ghost use Rattle.sharc_mode.specs.Moded.{Assignment, IsWhole};

    ghost Value = { Assignment };

    ghost coded = { Prim.hlevel (codes, coded_statements (Prim.hlevel (codes, coded_expression (Prim.hlevel codes)))) };

    ghost view = { λ m. record { typed = m.typed; modes = m.modes; reasons = m.reasons } };

    ghost invariant = { λ m. IsWhole (record { typed = m.typed; modes = m.modes; reasons = m.reasons }) };
}

/// The same modes once more.
fn copied(alloc: Global, modes: &[Mode]) -> Result<Vec<Mode>, AllocError>
    ensures { IfOk result (λ list. list.items ≡ modes.now) }
{
    let mut list = Vec::with_capacity(alloc, modes.len())?;
    for mode in modes {
        list.push(mode.copy(alloc)?)?;
    }
    Ok(list)
}

impl Moded {
    /// The program with these modes and reasons, by position.
    pub fn assign(typed: Typed, modes: Modes, reasons: Reasons) -> Moded
        requires modes { length modes ≡ position_count typed }
        requires reasons { length reasons ≡ position_count typed }
        ensures { result ≡ record { typed = typed; modes = modes; reasons = reasons } }
    {
        Moded {
            typed,
            modes,
            reasons,
        }
    }

    /// The program.
    pub fn typed(&self) -> &Typed
        ensures { result.now ≡ self.now.typed }
    {
        &self.typed
    }

    /// How many positions the program has. There is a mode for each.
    pub fn position_count(&self) -> u32
        ensures count { result ≡ position_count self.now.typed }
        ensures whole { IsWhole self.now }
    {
        self.typed.position_count()
    }

    /// The mode of a position.
    pub fn mode(&self, position: u32) -> &Mode
        requires { position < position_count self.now.typed }
        ensures { result.now ≡ slice_index_or self.now.modes position PrivateMode }
    {
        let modes = &self.modes;
        modes.at(position as usize)
    }

    /// Why a position was inferred to be dynamic; none of any other.
    pub fn reason(&self, position: u32) -> Option<Reason>
        requires { position < position_count self.now.typed }
        ensures { result ≡ reason_at self.now position }
    {
        let reasons = &self.reasons;
        *reasons.at(position as usize)
    }

    /// The mode of a position with what its lock path names; private past the last one.
    pub fn sharing(&self, position: u32) -> Sharing<'_>
        ensures { view_sharing result ≡ mode_at self.now position }
    {
        let modes = self.modes.as_slice();
        let position = position as usize;
        if position < modes.len() {
            sharing_of(&modes[position])
        } else {
            Sharing::Private
        }
    }

    /// The same program with the same modes and reasons once more.
    pub fn copy(&self, alloc: Global) -> Result<Self, AllocError>
        ensures { IfOk result (λ m. m ≡ self.now) }
    {
        let typed = self.typed.copy(alloc)?;
        let modes = copied(alloc, self.modes.as_slice())?;
        let reasons = Vec::from_slice(alloc, self.reasons.as_slice())?;
        Ok(Moded {
            typed,
            modes: Listed::of(modes),
            reasons: Listed::of(reasons),
        })
    }
}
