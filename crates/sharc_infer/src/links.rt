// Links: of types that are made equal, and of the levels of each.

ghost use Rattle.std.specs.{Prelude.{◌≡◌, ◌++◌, ◌+◌, ◌<◌, ◌^◌, Some, IfOk, OnOk}, List.flat_map};
ghost use Rattle.sharc_tree.specs.View.{view_expr, view_function, view_item, view_right};
ghost use Rattle.sharc_ctype.specs.Entities.{entities_in, numbered, positions_of};
ghost use Rattle.sharc_mode.specs.Flows.{equal_rows, levels_down, source_row, function_links, item_links, links_of};
ghost use Rattle.sharc_mode.specs.{Rows.{behind, cast_row, row_at}, View.{view_rows, EndsWithin}};

use crate::{casts, transfers};
use sharc_ctype::entity::Numbered;
use sharc_ctype::typed::Typed;
use sharc_graph::{Link, lead_down, make_equal};
use sharc_mode::row::{Targets, behind, cast_row, row_of};
use sharc_tree::token::Span;
use sharc_tree::tree::{Expr, FunctionDefinition, Item, Right};
use std::alloc::{AllocError, Global};

/// Makes the targets of two types equal, depth by depth.
pub(crate) fn equate(
    typed: &Typed,
    a: Option<Targets<'_>>,
    b: Option<Targets<'_>>,
    links: &mut Vec<Link>,
) -> Result<(), AllocError>
    requires first { EndsWithin typed.now a }
    requires second { EndsWithin typed.now b }
    ensures { OnOk result (links.new.items ≡ links.old.items ++ equal_rows (view_rows a.entry) (view_rows b.entry)) }
{
    let _all = typed.position_count();
    match a {
        None => Ok(()),
        Some(a) => match b {
            None => Ok(()),
            Some(b) => make_equal(links, a.first, b.first, a.count.min(b.count)),
        },
    }
}

/// The targets of what is given; none of NULL and malloc, which agree with every type.
pub(crate) fn source_row<'a>(typed: &Typed, source: &Right) -> Option<Targets<'a>>
    ensures row { view_rows result ≡ source_row typed.now (view_right source.now) }
    ensures within { EndsWithin typed.now result }
{
    match source {
        Right::Value(expr) => row_of(typed, expr),
        Right::Malloc(_, _, _) => None,
    }
}

/// Makes the targets of a cast and of its source equal, from depth 2 on.
pub(crate) fn equate_cast(
    typed: &Typed,
    span: Span,
    source: &Expr,
    links: &mut Vec<Link>,
) -> Result<(), AllocError>
    ensures { OnOk result (links.new.items ≡ links.old.items
        ++ equal_rows (behind (Some (cast_row typed.now span))) (behind (row_at typed.now (view_expr source.now)))) }
{
    let to = behind(typed, Some(cast_row(typed, span)));
    let from = behind(typed, row_of(typed, source));
    equate(typed, to, from, links)
}

/// Lets each level of a type lead to the one directly below.
fn add_levels(numbered: &Numbered, links: &mut Vec<Link>) -> Result<(), AllocError>
    requires { numbered.now.first + positions_of numbered.now.entity < 2 ^ 32 }
    ensures { OnOk result (links.new.items ≡ links.old.items ++ levels_down numbered.now) }
{
    let positions = numbered.entity.positions();
    if positions < 2 {
        return Ok(());
    }
    lead_down(links, numbered.first, positions as u32 - 1)
}

/// The links of the levels of all types.
pub(crate) fn all_levels(alloc: Global, typed: &Typed) -> Result<Vec<Link>, AllocError>
    ensures { IfOk result (λ links. links.items
        ≡ flat_map levels_down (numbered (entities_in typed.now.program.items))) }
{
    let _all = typed.position_count();
    let mut links = Vec::new(alloc);
    for numbered in typed.entities() {
        add_levels(numbered, &mut links)?;
    }
    Ok(links)
}

/// Adds the links of a function.
fn add_function(
    of: &FunctionDefinition,
    typed: &Typed,
    links: &mut Vec<Link>,
) -> Result<(), AllocError>
    ensures { OnOk result (links.new.items ≡ links.old.items ++ function_links typed.now (view_function of.now)) }
{
    let all = of.statements.as_slice();
    transfers::statements(all, of.name.site.token, &of.result, typed, links)?;
    casts::statements(all, typed, links)
}

fn add_item(item: &Item, typed: &Typed, links: &mut Vec<Link>) -> Result<(), AllocError>
    ensures { OnOk result (links.new.items ≡ links.old.items ++ item_links typed.now (view_item item.now)) }
{
    match item {
        Item::Struct(_) => Ok(()),
        Item::Global(_) => Ok(()),
        Item::Function(of) => add_function(of, typed, links),
    }
}

/// The links of a program.
pub(crate) fn links(alloc: Global, typed: &Typed) -> Result<Vec<Link>, AllocError>
    ensures { IfOk result (λ links. links.items ≡ links_of typed.now) }
{
    let mut links = all_levels(alloc, typed)?;
    for item in typed.program().items.as_slice() {
        add_item(item, typed, &mut links)?;
    }
    Ok(links)
}
