// Which variables are constant, by the tokens that declare them.

ghost use Rattle.std.specs.Prelude.{◌≡◌, ℕ, ◌&&◌, not, IfOk};
ghost use Rattle.sharc_tree.specs.View.{view_items};
ghost use Rattle.sharc_ctype.specs.Constants.{is_among, HasConstants};

use crate::variables::variables_in;
use indexmap::IndexSet;
use sharc_names::fault::Named;
use sharc_tree::tree::Item;
use std::alloc::{AllocError, Global};

/// The set of these tokens.
fn set_of(alloc: Global, tokens: &[u32]) -> Result<IndexSet<u32>, AllocError>
    ensures { IfOk result (λ set. (q : ℕ) → is_among q set.keys ≡ is_among q tokens.now) }
{
    let mut set = IndexSet::new(alloc);
    for token in tokens {
        set.insert(*token)?;
    }
    Ok(set)
}

/// The set of those tokens that are not among the others.
fn set_without(
    alloc: Global,
    tokens: &[u32],
    others: &IndexSet<u32>,
) -> Result<IndexSet<u32>, AllocError>
    ensures { IfOk result (λ set. (q : ℕ)
        → is_among q set.keys ≡ (is_among q tokens.now && not (is_among q others.now.keys))) }
{
    let mut set = IndexSet::new(alloc);
    for token in tokens {
        if !others.contains(token) {
            set.insert(*token)?;
        }
    }
    Ok(set)
}

/// The tokens that declare the constant variables of these items, whose tokens name this.
pub(crate) fn constants_in(
    alloc: Global,
    names: &[Named],
    items: &[Item],
) -> Result<IndexSet<u32>, AllocError>
    ensures { IfOk result (λ set. HasConstants names.now (view_items items.now) set.keys) }
{
    let variables = variables_in(alloc, names, items)?;
    let assigned = set_of(alloc, variables.assigned.as_slice())?;
    set_without(alloc, variables.initialised.as_slice(), &assigned)
}
