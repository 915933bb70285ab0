// What has a type with modes.

ghost use Rattle.std.specs.Prelude.{◌≡◌};
ghost use Rattle.sharc_ctype.specs.Entities.{first_depth, positions_of};

use sharc_names::types::Role;
use sharc_tree::tree::WrittenType;

/// A field, a global, a result, a parameter, a local or a cast.
#[derive(Drop)]
pub struct Entity {
    pub role: Role,
    /// The token of the declared name; of a cast the token `SCAST`, or the first token of the expression that the cast
    /// was put around.
    pub token: u32,
    /// The last token of a cast, else the same token.
    pub last: u32,
    pub written: WrittenType,
}

/// An entity with the number of its first position.
#[derive(Drop)]
pub struct Numbered {
    pub entity: Entity,
    pub first: u32,
}

/// The depth of the first position: the top of a global is one, of any other type the target is the first. The position
/// at a depth from there on has the number of the first and as many more as it lies deeper.
pub fn first_depth(role: Role) -> usize
    ensures { result ≡ first_depth role }
{
    match role {
        Role::Global => 0,
        _ => 1,
    }
}

impl Entity {
    /// How many positions its type has.
    pub fn positions(&self) -> usize
        ensures { result ≡ positions_of self.now }
    {
        let levels = self.written.ctype.levels.len();
        levels.saturating_sub(first_depth(self.role))
    }
}
