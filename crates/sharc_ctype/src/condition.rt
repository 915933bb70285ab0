// The four names of condition variables, which are known where the file defines none of them.

ghost use Rattle.std.specs.Prelude.{◌≡◌, false, OnOk};
ghost use Rattle.sharc_names.specs.View.{view_bound};
ghost use Rattle.sharc_ctype.specs.Condition.{defines_condition, call_entry, with_conditions, known_in};

use sharc_names::meaning::{Binding, ConditionCall, Meaning};
use sharc_names::scope::Scope;
use sharc_names::structs::StructMeaning;
use std::alloc::AllocError;

fn defines_condition(file: &Scope<'_>) -> bool
    ensures { result ≡ defines_condition file.now }
{
    file.structs.find(b"cond".as_slice()).is_some()
        || (file.names.find(b"wait".as_slice()).is_some()
            || (file.names.find(b"signal".as_slice()).is_some()
                || file.names.find(b"broadcast".as_slice()).is_some()))
}

fn bound(name: &[u8], call: ConditionCall) -> Binding<'_>
    ensures { view_bound result ≡ call_entry name.now call }
{
    Binding {
        name,
        block: 0,
        meaning: Meaning::Condition(call),
    }
}

fn bring_in(file: &mut Scope<'_>) -> Result<(), AllocError>
    requires { defines_condition file.old ≡ false }
    ensures { OnOk result (file.new ≡ with_conditions file.old) }
{
    file.structs.add(b"cond".as_slice(), StructMeaning::Known)?;
    file.names
        .declare(bound(b"wait".as_slice(), ConditionCall::Wait))?;
    file.names
        .declare(bound(b"signal".as_slice(), ConditionCall::Signal))?;
    file.names
        .declare(bound(b"broadcast".as_slice(), ConditionCall::Broadcast))
}

/// Brings the four names into the scope of a file that defines none of them.
pub(crate) fn known_in(file: &mut Scope<'_>) -> Result<(), AllocError>
    ensures { OnOk result (file.new ≡ known_in file.old) }
{
    if defines_condition(file) {
        Ok(())
    } else {
        bring_in(file)
    }
}
