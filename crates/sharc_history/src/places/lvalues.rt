//! Where an event is in the source, and how what it is of is written there.

ghost use Rattle.std.specs.Prelude.{◌≡◌};
ghost use Rattle.sharc_history.specs.{Told.site_of, Places.{behind_star, lvalue_of}};

use crate::cells::{Origin, place_at};
use crate::next::function_of;
use crate::places::pieces::bytes_of;
use sharc_code::Code;
use sharc_tree::token::Site;

/// The file and the line of a place in the source.
pub(crate) fn site_of(code: &Code, origin: Origin) -> Site
    ensures { result ≡ site_of code.now origin }
{
    match origin {
        Origin::Site(site) | Origin::Lock(site, _) | Origin::Wait(site, _) => {
            place_at(code, site).site
        }
        Origin::Function(function) => function_of(code, function).site,
    }
}

// The lock of a mode behind a pointer is written as the mutex, `*P`; what is read is P.
fn behind_star(bytes: &[u8]) -> &[u8]
    ensures { result.now ≡ behind_star bytes.now }
{
    if !bytes.is_empty() && bytes[0] == b'*' {
        &bytes[1..]
    } else {
        bytes
    }
}

/// The lvalue or the function at this place of the source; nothing where there is none.
pub(crate) fn lvalue_of(code: &Code, origin: Origin) -> &[u8]
    ensures { result.now ≡ lvalue_of code.now origin }
{
    match origin {
        Origin::Site(site) | Origin::Wait(_, site) => bytes_of(code, place_at(code, site).lvalue),
        Origin::Lock(_, site) => behind_star(bytes_of(code, place_at(code, site).lock)),
        Origin::Function(function) => bytes_of(code, function_of(code, function).name),
    }
}
