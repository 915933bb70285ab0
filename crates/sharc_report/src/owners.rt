// The entity of each position.

ghost use Rattle.std.specs.Prelude.{◌≡◌, ◌++◌, map, replicate, IfOk, OnOk};
ghost use Rattle.sharc_ctype.specs.Entities.{positions_of};
ghost use Rattle.sharc_report.specs.Explanations.{owners};

use sharc_ctype::entity::Numbered;
use std::alloc::{AllocError, Global};

fn add_owner<'a>(owners: &mut Vec<&'a Numbered>, n: &'a Numbered) -> Result<(), AllocError>
    ensures { OnOk result (map (λ o. o.now) owners.new.items
        ≡ map (λ o. o.now) owners.old.items ++ replicate (positions_of n.now.entity) n.now) }
{
    for _position in 0..n.entity.positions() {
        owners.push(n)?;
    }
    Ok(())
}

/// The entity of each position, by its number.
pub(crate) fn owners<'a>(
    alloc: Global,
    entities: &'a [Numbered],
) -> Result<Vec<&'a Numbered>, AllocError>
    ensures { IfOk result (λ list. map (λ o. o.now) list.items ≡ owners entities.now) }
{
    let mut owners = Vec::new(alloc);
    for n in entities {
        add_owner(&mut owners, n)?;
    }
    Ok(owners)
}
