// Lists that grow and shrink at their end.

ghost use Rattle.std.specs.Prelude.{◌≡◌};
ghost use Rattle.sharc_dataflow.specs.Passes.{last_or, front};

use crate::way::Ways;

/// Takes away the last; of an empty list the default is given.
pub(crate) fn pop_ways(list: &mut Vec<Ways>, default: Ways) -> Ways
    ensures last { result ≡ last_or default list.old.items }
    ensures front { list.new.items ≡ front list.old.items }
{
    match list.pop() {
        Some(last) => last,
        None => default,
    }
}

/// Takes away the last; of an empty list nothing is given.
pub(crate) fn pop_token(list: &mut Vec<Option<u32>>) -> Option<u32>
    ensures last { result ≡ last_or None list.old.items }
    ensures front { list.new.items ≡ front list.old.items }
{
    match list.pop() {
        Some(last) => last,
        None => None,
    }
}
