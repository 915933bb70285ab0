// What is suggested for errors.

ghost use Rattle.std.specs.{Prelude.{◌≡◌, map, IfOk}, Option.option_copied};
ghost use Rattle.sharc_check.specs.Named.{TellNamed};
ghost use Rattle.sharc_suggest.specs.{Casts.{AreCasts, cast_at, cast_for, AreSuggested}, Firsts.{HasFirst, row_for}};

use crate::repair::Known;
use crate::statement::items;
use indexmap::IndexMap;
use sharc_check::named::NamedVariables;
use sharc_mode::error::{Cast, ModeError, ModeErrors};
use sharc_mode::moded::Moded;
use std::alloc::{AllocError, Global};

/// The casts that are suggested in a program, in source order.
fn casts(alloc: Global, program: &Moded, named: &NamedVariables) -> Result<Vec<Cast>, AllocError>
    requires { TellNamed program.now named.now }
    ensures { IfOk result (λ casts. AreCasts program.now casts.items) }
{
    let known = Known {
        moded: program,
        named,
    };
    let tree = program.typed().program();
    let mut casts = Vec::new(alloc);
    items(known, tree.items.as_slice(), &mut casts)?;
    Ok(casts)
}

/// The first cast at each token. The last are written before the first, which replace them.
fn by_token<'a>(alloc: Global, casts: &'a [Cast]) -> Result<IndexMap<u32, &'a Cast>, AllocError>
    ensures { IfOk result (λ first. HasFirst casts.now first.entries) }
{
    let mut first = IndexMap::new(alloc);
    let mut left = casts.len();
    while left > 0 {
        left -= 1;
        let cast = &casts[left];
        first.insert(cast.site.token, cast)?;
    }
    Ok(first)
}

/// The same once more.
fn copied(alloc: Global, cast: Option<&Cast>) -> Result<Option<Cast>, AllocError>
    ensures { IfOk result (λ c. c ≡ option_copied cast.entry) }
{
    match cast {
        None => Ok(None),
        Some(cast) => {
            let to = cast.to.copy(alloc)?;
            Ok(Some(Cast {
                site: cast.site,
                to,
                from: cast.from,
                until: cast.until,
            }))
        }
    }
}

/// The cast for an error, if one is suggested.
fn found<'a>(first: &IndexMap<u32, &'a Cast>, error: &ModeError) -> Option<&'a Cast>
    ensures { option_copied result ≡ row_for first.now.entries error.now }
{
    if !error.code.is_mismatch() {
        return None;
    }
    match first.get(&error.site.token) {
        None => None,
        Some(cast) => Some(*cast),
    }
}

/// The cast for each of a list of errors, if one is suggested.
fn all_found(
    alloc: Global,
    first: &IndexMap<u32, &Cast>,
    errors: &[ModeError],
) -> Result<Vec<Option<Cast>>, AllocError>
    ensures { IfOk result (λ answer. answer.items ≡ map (row_for first.now.entries) errors.now) }
{
    let mut answer = Vec::with_capacity(alloc, errors.len())?;
    for error in errors {
        answer.push(copied(alloc, found(first, error))?)?;
    }
    Ok(answer)
}

/// Beside each of the errors of a program the cast that would repair it, if one is suggested. It takes one pass over
/// the program. `named` is what `check` answers beside the errors.
pub fn suggest_all(
    alloc: Global,
    program: &Moded,
    named: &NamedVariables,
    errors: &ModeErrors,
) -> Result<Vec<Option<Cast>>, AllocError>
    requires { TellNamed program.now named.now }
    ensures { IfOk result (λ answer. AreSuggested program.now errors.now answer.items) }
{
    let casts = casts(alloc, program, named)?;
    let first = by_token(alloc, casts.as_slice())?;
    all_found(alloc, &first, errors.as_slice())
}
