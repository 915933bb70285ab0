//! Laws of flat code.

ghost use Rattle.sharc_flat.specs.Quiet.{PathLaws};

/// A path, by the answers of its turns, is the beginning of what the code makes of the answers that were asked for on
/// it; and a turn tells no event but the one that it asks for.
pub fn path_laws()
    ensures { PathLaws }
{}
