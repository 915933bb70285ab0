//! The laws of the definition, each the contract of a function that does nothing.

ghost use Rattle.std.specs.Prelude.{◌≡◌, List, Some, ◌↔◌};
ghost use Rattle.sharc_cli.specs.{Bounds.AreWithin, Commands.{Word, commands}, Written.IsCommand};
ghost use Rattle.sharc_cli.specs.declared.command.Command.{Command};

/// Words are a command exactly where they are its name and, after it, the words of its arguments in some order, each
/// once.
pub fn commands_are_written()
    ensures { (words : List Word) → (command : Command) → (commands words ≡ Some command) ↔ IsCommand words command }
{}

/// The numbers of a command are within their bounds.
pub fn numbers_are_within()
    ensures { (words : List Word) → (command : Command) → commands words ≡ Some command → AreWithin command }
{}
