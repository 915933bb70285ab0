// What is wrong with the modes of a program, and what is said beside it.

ghost use Rattle.std.specs.Prelude.{◌≡◌};
ghost use Rattle.sharc_mode.specs.Errors.{number_of, is_mismatch};

use sharc_tree::ctype::CType;
use sharc_tree::listed::Listed;
use sharc_tree::name::Name;
use sharc_tree::token::Site;

/// The eleven cases, M1 to M11.
#[derive(Clone, Copy)]
pub enum ErrorCode {
    /// M1: the modes of the targets of two types differ where they have to agree.
    ModeMismatch,
    /// M2: an assignment writes a cell of mode readonly.
    ReadonlyWrite,
    /// M3: a level that is not private is directly above a private target.
    PrivateTarget,
    /// M4: a lock path is none of the allowed forms.
    LockPathNotConstant,
    /// M5: a mode is where it is not allowed.
    ModeNotAllowed,
    /// M6: `private` is written in a field.
    PrivateField,
    /// M7: private data reaches a thread.
    PrivateReachesThread,
    /// M8: a cast changes the mode of a target at depth 2 or more.
    CastChangesInnerMode,
    /// M9: the source of a cast or `free` is readonly.
    ReadonlySource,
    /// M10: the source of a cast or `free` is named by a lock path.
    NamedByLockPath,
    /// M11: a field whose target is locked by a sibling is used with a base that is not constant.
    NeedsConstantBase,
}

impl ErrorCode {
    /// The number after the M.
    pub fn number(self) -> u8
        ensures { result ≡ number_of self }
    {
        match self {
            ErrorCode::ModeMismatch => 1,
            ErrorCode::ReadonlyWrite => 2,
            ErrorCode::PrivateTarget => 3,
            ErrorCode::LockPathNotConstant => 4,
            ErrorCode::ModeNotAllowed => 5,
            ErrorCode::PrivateField => 6,
            ErrorCode::PrivateReachesThread => 7,
            ErrorCode::CastChangesInnerMode => 8,
            ErrorCode::ReadonlySource => 9,
            ErrorCode::NamedByLockPath => 10,
            ErrorCode::NeedsConstantBase => 11,
        }
    }

    /// Whether it is M1, the one case that a cast may repair.
    pub fn is_mismatch(self) -> bool
        ensures { result ≡ is_mismatch self }
    {
        matches!(self, ErrorCode::ModeMismatch)
    }
}

/// A case of M1 to M11.
#[derive(Drop)]
pub struct ModeError {
    pub code: ErrorCode,
    pub site: Site,
    /// The types of M1 and M8, and the type of M3 twice; else `void` with no levels.
    pub expected: CType,
    pub found: CType,
    /// The lvalue, path, mode or name that the text has; empty where it has none.
    pub subject: Name,
}

/// The cases of a program, by place and then by code.
pub type ModeErrors = Listed<ModeError>;

/// A sharing cast that would repair an error: it is written around the tokens from the one number to the other.
#[derive(Drop)]
pub struct Cast {
    pub site: Site,
    pub to: CType,
    pub from: u32,
    pub until: u32,
}

pub type Casts = Listed<Cast>;

/// A read of a local that may have been nulled by a sharing cast or `free`.
#[derive(Drop)]
pub struct Warning {
    pub read: Site,
    pub nulled: Site,
    pub name: Name,
}

/// The warnings of a program, by place.
pub type Warnings = Listed<Warning>;
