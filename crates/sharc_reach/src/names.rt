// The names in types and declarations.

ghost use Rattle.std.specs.Prelude.{◌≡◌, [], ◌∷◌, ◌++◌, OnOk};
ghost use Rattle.sharc_tree.specs.Marks.{path_marks, mode_marks, level_marks, base_marks, type_marks};
ghost use Rattle.sharc_tree.specs.Marks.{declaration_marks, declarations_marks};
ghost use Rattle.sharc_reach.specs.Mentions.{mention, names, bottom_marks};

use crate::mention::{Mention, NameUse};
use sharc_tree::ctype::{Base, Mode, Path};
use sharc_tree::tree::{Declaration, WrittenType};
use std::alloc::AllocError;

/// Adds one name.
pub(crate) fn add(
    function: u32,
    token: u32,
    role: NameUse,
    list: &mut Vec<Mention>,
) -> Result<(), AllocError>
    ensures { OnOk result (list.new.items ≡ list.old.items ++ mention function token role ∷ []) }
{
    list.push(Mention {
        function,
        token,
        role,
    })?;
    Ok(())
}

/// Adds the names of a lock path. Tokens past the 32 bits of a number are refused as out of memory.
fn path(function: u32, path: &Path, list: &mut Vec<Mention>) -> Result<(), AllocError>
    ensures { OnOk result (list.new.items ≡ list.old.items ++ names function (path_marks path.now)) }
{
    match path {
        Path::One(_, token) => add(function, *token, NameUse::Named, list),
        Path::Through(_, token, _) => {
            add(function, *token, NameUse::Named, list)?;
            match token.checked_add(2) {
                Some(second) => add(function, second, NameUse::Named, list),
                None => Err(AllocError),
            }
        }
    }
}

fn mode(function: u32, mode: &Mode, list: &mut Vec<Mention>) -> Result<(), AllocError>
    ensures { OnOk result (list.new.items ≡ list.old.items ++ names function (mode_marks mode.now)) }
{
    match mode {
        Mode::Locked(of) => path(function, of, list),
        Mode::Private => Ok(()),
        Mode::Readonly => Ok(()),
        Mode::Racy => Ok(()),
        Mode::Dynamic => Ok(()),
    }
}

fn level(function: u32, level: &Option<Mode>, list: &mut Vec<Mention>) -> Result<(), AllocError>
    ensures { OnOk result (list.new.items ≡ list.old.items ++ names function (level_marks level.now)) }
{
    match level {
        None => Ok(()),
        Some(written) => mode(function, written, list),
    }
}

fn base(function: u32, base: &Base, token: u32, list: &mut Vec<Mention>) -> Result<(), AllocError>
    ensures { OnOk result (list.new.items ≡ list.old.items ++ names function (base_marks base.now token)) }
{
    match base {
        Base::Struct(_) => add(function, token, NameUse::Named, list),
        Base::Int => Ok(()),
        Base::Char => Ok(()),
        Base::Long => Ok(()),
        Base::Mutex => Ok(()),
        Base::Void => Ok(()),
    }
}

/// Adds the names of the base and of the mode of the level at it, in the order in which they are written.
#[tactic(auto, using(crate::proofs::NameLemmas::names_both))]
fn bottom(
    function: u32,
    written: &WrittenType,
    lowest: &Option<Mode>,
    list: &mut Vec<Mention>,
) -> Result<(), AllocError>
    ensures { OnOk result (list.new.items ≡ list.old.items ++ names function (bottom_marks written.now lowest.now)) }
{
    let token = written.base.token;
    if written.mode_first {
        level(function, lowest, list)?;
        base(function, &written.ctype.base, token, list)
    } else {
        base(function, &written.ctype.base, token, list)?;
        level(function, lowest, list)
    }
}

/// Adds the names of a type, from its base up.
pub(crate) fn type_names(
    function: u32,
    written: &WrittenType,
    list: &mut Vec<Mention>,
) -> Result<(), AllocError>
    ensures { OnOk result (list.new.items ≡ list.old.items ++ names function (type_marks written.now)) }
{
    let levels = written.ctype.levels.as_slice();
    let mut above = levels.len();
    while above > 0 {
        above -= 1;
        if above + 1 == levels.len() {
            bottom(function, written, &levels[above], list)?;
        } else {
            level(function, &levels[above], list)?;
        }
    }
    Ok(())
}

/// Adds the names of a declaration.
#[tactic(auto, using(crate::proofs::NameLemmas::names_both))]
pub(crate) fn declaration(
    function: u32,
    declaration: &Declaration,
    list: &mut Vec<Mention>,
) -> Result<(), AllocError>
    ensures { OnOk result (list.new.items ≡ list.old.items ++ names function (declaration_marks declaration.now)) }
{
    type_names(function, &declaration.written, list)?;
    add(function, declaration.name.site.token, NameUse::Named, list)
}

/// Adds the names of declarations that follow one another.
pub(crate) fn declarations(
    function: u32,
    all: &[Declaration],
    list: &mut Vec<Mention>,
) -> Result<(), AllocError>
    ensures { OnOk result (list.new.items ≡ list.old.items ++ names function (declarations_marks all.now)) }
{
    for one in all {
        declaration(function, one, list)?;
    }
    Ok(())
}
