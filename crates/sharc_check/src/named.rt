// Which variables and globals lock paths name.

ghost use Rattle.std.specs.Prelude.{◌≡◌, false, slice_index_or};

use std::marker::Model;

/// Which variables and globals the lock paths of a program name. A contract sees it as a flag for each token that may
/// declare one; there are none for the tokens past the last that is named.
#[derive(Drop)]
pub struct NamedVariables {
    flags: Vec<bool>,
}

impl Model for NamedVariables {
    ghost use Rattle.std.specs.Prelude.{List, Bool};

    ghost Value = { List Bool };

    ghost view = { λ v. v.flags.items };
}

impl NamedVariables {
    /// Those with these flags.
    pub(crate) fn of(flags: Vec<bool>) -> NamedVariables
        ensures { result ≡ flags.items }
    {
        NamedVariables { flags }
    }

    /// Whether a lock path names the variable or the global that this token declares. It takes no memory and one step.
    pub fn has(&self, token: u32) -> bool
        ensures { result ≡ slice_index_or self.now token false }
    {
        let place = token as usize;
        if place < self.flags.len() {
            self.flags[place]
        } else {
            false
        }
    }
}
