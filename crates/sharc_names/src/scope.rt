// What is known where an expression is.

use crate::names::NamesInScope;
use crate::structs::Structs;

/// The structs of the file, and the names in scope.
#[derive(Drop)]
pub struct Scope<'a> {
    pub structs: Structs<'a>,
    pub names: NamesInScope<'a>,
}
