// What is done with a local, as a step.

ghost use Rattle.std.specs.Prelude.{◌≡◌, ◌++◌, OnOk};
ghost use Rattle.sharc_tree.specs.View.{view_expr};
ghost use Rattle.sharc_dataflow.specs.Code.{listing};
ghost use Rattle.sharc_live.specs.Flows.{reads, nulls, writes, through, variable_named, variable_of};

use sharc_ctype::typed::Typed;
use sharc_dataflow::step::Step;
use sharc_names::fault::Named;
use sharc_tree::tree::{Expr, FieldOperator};
use std::alloc::AllocError;

/// Whether the steps could be added: nothing but memory can be lacking.
pub(crate) type Walked = Result<(), AllocError>;

pub(crate) fn reads(variable: Option<u32>, token: u32, steps: &mut Vec<Step>) -> Walked
    ensures { OnOk result (steps.new.items ≡ steps.old.items ++ listing (reads variable token)) }
{
    if let Some(x) = variable {
        steps.push(Step::Read(x, token))?;
    }
    Ok(())
}

pub(crate) fn nulls(variable: Option<u32>, token: u32, steps: &mut Vec<Step>) -> Walked
    ensures { OnOk result (steps.new.items ≡ steps.old.items ++ listing (nulls variable token)) }
{
    if let Some(x) = variable {
        steps.push(Step::Null(x, token))?;
    }
    Ok(())
}

pub(crate) fn writes(variable: Option<u32>, steps: &mut Vec<Step>) -> Walked
    ensures { OnOk result (steps.new.items ≡ steps.old.items ++ listing (writes variable)) }
{
    if let Some(x) = variable {
        steps.push(Step::Write(x))?;
    }
    Ok(())
}

/// The variable that a name names.
pub(crate) fn variable_named(named: Named) -> Option<u32>
    ensures { result ≡ variable_named named }
{
    match named {
        Named::Variable(x) => Some(x),
        _ => None,
    }
}

pub(crate) fn through(access: FieldOperator, variable: Option<u32>) -> Option<u32>
    ensures { result ≡ through access variable }
{
    match access {
        FieldOperator::Dot => variable,
        FieldOperator::Arrow => None,
    }
}

/// The local that an lvalue names, or has a part of.
pub(crate) fn variable_of(typed: &Typed, expr: &Expr) -> Option<u32>
    ensures { result ≡ variable_of typed.now (view_expr expr.now) }
{
    match expr {
        Expr::Identifier(_, name) => variable_named(typed.named(name.site.token)),
        Expr::Parentheses(_, inner) => variable_of(typed, inner),
        Expr::Field { base, access, .. } => through(*access, variable_of(typed, base)),
        _ => None,
    }
}
