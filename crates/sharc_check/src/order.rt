// The cases in order.

ghost use Rattle.std.specs.Prelude.{◌≡◌, OnOk};
ghost use Rattle.sharc_check.specs.Orders.{IsInOrder};

use sharc_mode::error::ModeError;
use std::alloc::AllocError;

/// Puts the cases in order, by place and then by code. Those of one place and code stay in the order in which they were
/// found.
pub(crate) fn put_in_order(errors: &mut Vec<ModeError>) -> Result<(), AllocError>
    ensures { OnOk result (IsInOrder errors.old.items errors.new.items) }
{
    errors.sort_by_key(|e| (e.site.token, e.code.number()))?;
    Ok(())
}
