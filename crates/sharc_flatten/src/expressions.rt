// The operations of expressions: the value goes to the first free register of the bank of its type.

ghost use Rattle.std.specs.Prelude.{◌≡◌, ◌+◌, ◌++◌, [], ◌∷◌, length, drop, None, Some, IfOk, OnOk, if◌then◌else◌};
ghost use Rattle.sharc_tree.specs.{Spans.span_of, View.{view_expr, view_arguments}, Tree.unary as of_unary};
ghost use Rattle.sharc_names.specs.Kinds.{declared_kinds};
ghost use Rattle.sharc_ctype.specs.{Resolved.{kind_at, named_at, global_at}, Transfers.parameters_named};
ghost use Rattle.sharc_ctype.specs.Expressions.{class_of, binary_result};
ghost use Rattle.sharc_meaning.specs.{Expressions.number_named, Cells.global_elements};
ghost use Rattle.sharc_mode.specs.{Cells.cell_at, View.view_sharing};
ghost use Rattle.sharc_flat.specs.{Places.{lvalue_of, target, width_of}, Flattened.{is_ref, expression_code}};
ghost use Rattle.sharc_flat.specs.Flattened.{arguments_code, place_code, named_code, lvalue_code, guard_of};
ghost use Rattle.sharc_flat.specs.Flattened.{taken_guard, place_call_code, cast_code, field_code, unary_code};
ghost use Rattle.sharc_flat.specs.Flattened.{binary_code, compare_code, operator_of, truth_code, passed_code};
ghost use Rattle.sharc_flat.specs.{Flattened.spawn_code, Scope.at_site, Machine.first_cell};
ghost use Rattle.sharc_flatten.specs.View.{context, view_target, decided_code, indexed_code, index_register};
ghost use Rattle.sharc_flatten.specs.View.{element_code, holds_references, operation_code};

use crate::lookups::{element_cells, field_named, first_cell, global_elements, layout_of};
use crate::operations::{
    Evaluation, bank_of, called, compare, constant, evaluation_of, narrow, number_named, on_value,
    operator_of, spawned, truth, width_of,
};
use crate::patch::{Hole, skip_if_zero};
use crate::places::{Bound, Emitted, Taking, emit, index_bounds, pointee, take, value};
use crate::registers::{Bank, Registers};
use crate::source::PlacedProgram;
use crate::spots::{SpotAccess, at_site, at_words, beside_field, cell_of, object_spot, tokens_in};
use crate::target::{Target, global_of, lvalue_of, own_field, target_of};
use sharc_code::{Use, Width};
use sharc_ctype::typed::parameters_named;
use sharc_flat::Op;
use sharc_flat::slot::Slot;
use sharc_mode::cell::{cell_of as mode_of, pointed};
use sharc_mode::row::cast_row;
use sharc_names::fault::Named;
use sharc_names::kind::{declared_kind, element_kind, is_array, promoted};
use sharc_tree::token::{Site, Span};
use sharc_tree::tree::{
    BinaryOperator, Declaration, Expr, FieldOperator, Identifier, PlaceCall, UnaryOperator,
};
use std::alloc::AllocError;

/// An expression as an lvalue that is accessed.
pub fn access_of<'a>(source: &'a PlacedProgram<'_>, expr: &'a Expr) -> SpotAccess<'a>
    ensures site { result.site ≡ (span_of (view_expr expr.now)).first }
    ensures lvalue { result.lvalue ≡ lvalue_of source.now.m.now.typed (view_expr expr.now) }
    ensures mode { view_sharing result.mode ≡ cell_at source.now.m.now (view_expr expr.now) }
    ensures target { view_target result.target ≡ target source.now.m.now.typed None (view_expr expr.now) }
{
    access_at(source, expr.span().first, expr)
}

/// The same, for this place of the source.
fn access_at<'a>(source: &'a PlacedProgram<'_>, site: Site, expr: &'a Expr) -> SpotAccess<'a>
    ensures site { result.site ≡ site }
    ensures lvalue { result.lvalue ≡ lvalue_of source.now.m.now.typed (view_expr expr.now) }
    ensures mode { view_sharing result.mode ≡ cell_at source.now.m.now (view_expr expr.now) }
    ensures target { view_target result.target ≡ target source.now.m.now.typed None (view_expr expr.now) }
{
    SpotAccess {
        site,
        lvalue: lvalue_of(source, expr),
        mode: mode_of(source.m, expr),
        target: target_of(source, None, expr),
    }
}

/// The bank of the value of an expression.
pub fn bank(source: &PlacedProgram<'_>, expr: &Expr) -> Bank
    ensures { holds_references result ≡ is_ref (context source.now []) (view_expr expr.now) }
{
    bank_of(source.m.typed().kind_at(expr))
}

/// The field with the mutex beside the cell that an lvalue names, or with the pointer to it.
pub fn guard_of(source: &PlacedProgram<'_>, expr: &Expr) -> Option<u32>
    ensures { result ≡ guard_of (context source.now []) (view_expr expr.now) }
{
    beside_field(source, mode_of(source.m, expr))
}

/// The value of what an lvalue names, after the code that finds it.
fn lvalue(
    source: &PlacedProgram<'_>,
    scope: &[Slot],
    at: Registers,
    expr: &Expr,
    lines: &mut Vec<Op>,
) -> Emitted
    ensures { OnOk result (lines.new.items
        ≡ lines.old.items ++ lvalue_code (context source.now scope.now) at.int at.reference (view_expr expr.now)) }
{
    value(
        source,
        scope,
        at,
        access_of(source, expr),
        bank(source, expr),
        lines,
    )
}

/// The value of a name.
fn name(
    source: &PlacedProgram<'_>,
    scope: &[Slot],
    at: Registers,
    expr: &Expr,
    name: &Identifier,
    lines: &mut Vec<Op>,
) -> Emitted
    ensures { OnOk result (lines.new.items ≡ lines.old.items ++ named_code (context source.now scope.now) at.int
        at.reference name.now.site (lvalue_of source.now.m.now.typed (view_expr expr.now))
        (cell_at source.now.m.now (view_expr expr.now)) (is_ref (context source.now scope.now) (view_expr expr.now))
        (named_at source.now.m.now.typed name.now.site.token)) }
{
    let mut access = access_at(source, name.site, expr);
    match source.m.typed().named(name.site.token) {
        Named::Variable(token) => {
            access.target = Target::Variable(token);
            value(source, scope, at, access, bank(source, expr), lines)
        }
        Named::Global(number) => {
            access.target = Target::InGlobal(number, 0);
            value(source, scope, at, access, bank(source, expr), lines)
        }
        Named::Struct(_) => Ok(()),
        Named::Function(_) => Ok(()),
        Named::Field(_) => Ok(()),
        Named::Known => Ok(()),
    }
}

/// An argument for the first of these parameters.
fn passed(register: u32, parameters: &[Declaration], site: Site, lines: &mut Vec<Op>) -> Emitted
    ensures { OnOk result (lines.new.items
        ≡ lines.old.items ++ passed_code register (declared_kinds parameters.now) site) }
{
    match parameters {
        [] => Ok(()),
        [first, ..] => narrow(register, declared_kind(&first.written), site, lines),
    }
}

/// The parameters after the first.
fn after_first(parameters: &[Declaration]) -> &[Declaration]
    ensures { result.now ≡ drop 1 parameters.now }
{
    match parameters {
        [] => parameters,
        [_, rest @ ..] => rest,
    }
}

/// `spawn` of this function, after its argument.
fn spawn(
    source: &PlacedProgram<'_>,
    at: Registers,
    site: Site,
    of: &Identifier,
    argument: &Expr,
    lines: &mut Vec<Op>,
) -> Emitted
    ensures { OnOk result (lines.new.items ≡ lines.old.items ++ (passed_code at.int
        (declared_kinds (parameters_named source.now.m.now.typed (named_at source.now.m.now.typed of.now.site.token)))
        (span_of (view_expr argument.now)).first ++ spawn_code (is_ref (context source.now []) (view_expr argument.now))
        at.int at.reference (number_named (named_at source.now.m.now.typed of.now.site.token)) (at_site site))) }
{
    let t = source.m.typed();
    let named = t.named(of.site.token);
    passed(
        at.int,
        parameters_named(t, named),
        argument.span().first,
        lines,
    )?;
    spawned(bank(source, argument), at, number_named(named), site, lines)
}

/// `lock`, after the code that finds the mutex.
fn lock(
    source: &PlacedProgram<'_>,
    at: Registers,
    span: Span,
    place: &Expr,
    lines: &mut Vec<Op>,
) -> Emitted
    ensures { OnOk result (lines.new.items ≡ lines.old.items
        ++ place_call_code (context source.now []) at.int at.reference span PlaceCall.Lock (view_expr place.now) []) }
{
    let site = span.first;
    let cell = cell_of(source, at, target_of(source, None, place))?;
    let spot = at_words(site, place.span(), Use::Other)?;
    emit(Op::ChkNotHeld(cell, at_site(site)), lines)?;
    emit(Op::ChkRoom(at_site(site)), lines)?;
    emit(Op::Lock(cell, spot), lines)
}

/// `unlock`, after the code that finds the mutex.
fn unlock(
    source: &PlacedProgram<'_>,
    at: Registers,
    span: Span,
    place: &Expr,
    lines: &mut Vec<Op>,
) -> Emitted
    ensures { OnOk result (lines.new.items ≡ lines.old.items
        ++ place_call_code (context source.now []) at.int at.reference span PlaceCall.Unlock (view_expr place.now) []) }
{
    let site = span.first;
    let target = target_of(source, None, place);
    let cell = cell_of(source, at, target)?;
    let to = at.behind_base(target)?;
    emit(Op::ChkHeld(cell, at_site(site)), lines)?;
    emit(Op::Unlock(to.reference, cell, at_site(site)), lines)?;
    if target.has_base() {
        emit(Op::Pop(at.reference + 1), lines)?;
        emit(Op::Pop(at.reference), lines)
    } else {
        Ok(())
    }
}

/// `free`, after the code that finds the pointer.
fn free(
    source: &PlacedProgram<'_>,
    scope: &[Slot],
    at: Registers,
    span: Span,
    place: &Expr,
    lines: &mut Vec<Op>,
) -> Emitted
    ensures { OnOk result (lines.new.items ≡ lines.old.items ++ place_call_code
        (context source.now scope.now) at.int at.reference span PlaceCall.Free (view_expr place.now) []) }
{
    let access = access_of(source, place);
    let use_made = Taking::Free.use_of(access.target);
    let spot = at_words(access.site, place.span(), use_made)?;
    let layout = layout_of(source, element_kind(source.m.typed().kind_at(place)))?;
    take(source, scope, at, access, Taking::Free, lines)?;
    emit(Op::SkipIfNull(at.reference, 1), lines)?;
    emit(Op::Free(at.reference, layout, spot), lines)
}

/// The guard of the place of a call: a mutex is accessed under no mode.
fn taken_guard(source: &PlacedProgram<'_>, call: PlaceCall, place: &Expr) -> Option<u32>
    ensures { result ≡ taken_guard (context source.now []) call (view_expr place.now) }
{
    match call {
        PlaceCall::Lock => None,
        PlaceCall::Unlock => None,
        PlaceCall::Free => guard_of(source, place),
    }
}

/// `lock`, `unlock` or `free`, after what finds its place.
fn on_place(
    source: &PlacedProgram<'_>,
    scope: &[Slot],
    at: Registers,
    span: Span,
    call: PlaceCall,
    place: &Expr,
    lines: &mut Vec<Op>,
) -> Emitted
    ensures { OnOk result (lines.new.items ≡ lines.old.items
        ++ place_call_code (context source.now scope.now) at.int at.reference span call (view_expr place.now) []) }
{
    match call {
        PlaceCall::Lock => lock(source, at, span, place, lines),
        PlaceCall::Unlock => unlock(source, at, span, place, lines),
        PlaceCall::Free => free(source, scope, at, span, place, lines),
    }
}

/// The sharing cast at these tokens, after the code that finds its source.
fn cast(
    source: &PlacedProgram<'_>,
    scope: &[Slot],
    at: Registers,
    span: Span,
    place: &Expr,
    lines: &mut Vec<Op>,
) -> Emitted
    ensures { OnOk result (lines.new.items ≡ lines.old.items
        ++ cast_code (context source.now scope.now) at.int at.reference span (view_expr place.now) []) }
{
    let t = source.m.typed();
    let access = access_of(source, place);
    let use_made = Taking::Cast.use_of(access.target);
    let mode = pointed(source.m, Some(cast_row(t, span)));
    let words = tokens_in(place.span())?;
    let spot = object_spot(source, scope, access.site, words, use_made, mode)?;
    let cells = element_cells(source, element_kind(t.kind_at(place)));
    take(source, scope, at, access, Taking::Cast, lines)?;
    emit(Op::SkipIfNull(at.reference, 1), lines)?;
    emit(Op::Give(at.reference, cells, spot), lines)
}

/// An operator before its operand, after the operand.
fn unary(
    source: &PlacedProgram<'_>,
    scope: &[Slot],
    at: Registers,
    expr: &Expr,
    span: Span,
    operator: UnaryOperator,
    operand: &Expr,
    lines: &mut Vec<Op>,
) -> Emitted
    requires { view_expr expr.now ≡ of_unary span operator (view_expr operand.now) }
    ensures { OnOk result (lines.new.items ≡ lines.old.items
        ++ unary_code (context source.now scope.now) at.int at.reference span operator (view_expr operand.now) []) }
{
    match operator {
        UnaryOperator::Negate => {
            let width = width_of(promoted(source.m.typed().kind_at(operand)));
            emit(
                Op::Negate(width, at.int, at.int, at_site(span.first)),
                lines,
            )
        }
        UnaryOperator::Not => {
            truth(bank(source, operand), at, lines)?;
            emit(Op::IsFalse(at.int, at.int), lines)
        }
        UnaryOperator::Complement => emit(Op::Complement(at.int, at.int), lines),
        UnaryOperator::Dereference => {
            pointee(at.reference, span.first, lines)?;
            value(
                source,
                scope,
                at,
                access_at(source, span.first, expr),
                bank(source, expr),
                lines,
            )
        }
    }
}

/// Two operands that are both evaluated, after them.
fn computed(
    at: Registers,
    operator: BinaryOperator,
    site: Site,
    width: Width,
    bank: Bank,
    lines: &mut Vec<Op>,
) -> Emitted
    ensures { OnOk result (lines.new.items
        ≡ lines.old.items ++ (if holds_references bank then compare_code operator at.int at.reference
        else Op.Compute width (operator_of operator) at.int at.int (at.int + 1) (at_site site) ∷ [])) }
{
    match bank {
        Bank::Int => {
            let of = operator_of(operator);
            let spot = at_site(site);
            emit(
                Op::Compute(width, of, at.int, at.int, at.int + 1, spot),
                lines,
            )
        }
        Bank::Reference => compare(operator, at, lines),
    }
}

/// The elements of a global that is indexed.
fn global_bound(source: &PlacedProgram<'_>, global: u32, cells: u32) -> Result<Bound, AllocError>
    ensures { IfOk result (λ b. b ≡ Bound.Global (global_elements (global_at source.now.m.now.typed global)) cells
        (first_cell source.now.globals.items global)) }
{
    let elements = global_elements(source.m.typed(), global)?;
    let first = first_cell(source, global)?;
    Ok(Bound::Global {
        elements,
        cells,
        first,
    })
}

/// The number of an element becomes that of a cell, after what is indexed and the index.
fn element(
    source: &PlacedProgram<'_>,
    at: Registers,
    site: Site,
    of: Option<u32>,
    guard: Option<u32>,
    base: &Expr,
    lines: &mut Vec<Op>,
) -> Emitted
    ensures { OnOk result (lines.new.items ≡ lines.old.items
        ++ element_code (context source.now []) at.int at.reference site of guard (view_expr base.now)) }
{
    let kind = source.m.typed().kind_at(base);
    let cells = element_cells(source, element_kind(kind));
    let field = own_field(of, 0);
    if is_array(kind) {
        let bound = global_bound(source, global_of(target_of(source, None, base)), cells)?;
        index_bounds(bound, at, field, guard, site, lines)
    } else {
        let bound = Bound::Object {
            register: at.reference,
            cells,
        };
        index_bounds(bound, at, field, guard, site, lines)
    }
}

/// The value of an expression.
#[cycle(expression)]
pub fn expression(
    source: &PlacedProgram<'_>,
    scope: &[Slot],
    at: Registers,
    expr: &Expr,
    lines: &mut Vec<Op>,
) -> Emitted
    ensures { OnOk result (lines.new.items
        ≡ lines.old.items ++ expression_code (context source.now scope.now) at.int at.reference (view_expr expr.now)) }
{
    emit(Op::Enter, lines)?;
    match expr {
        Expr::Identifier(_, of) => name(source, scope, at, expr, of, lines),
        Expr::Constant(_, of) => constant(bank(source, expr), at, *of, lines),
        Expr::Parentheses(_, inner) => expression(source, scope, at, inner, lines),
        Expr::Call(span, of, all) => {
            let named = source.m.typed().named(of.site.token);
            let parameters = parameters_named(source.m.typed(), named);
            arguments(source, scope, at, parameters, all.as_slice(), lines)?;
            called(at, at_site(span.first), named, of, all.as_slice(), lines)
        }
        Expr::Spawn(span, of, argument) => {
            expression(source, scope, at, argument, lines)?;
            spawn(source, at, span.first, of, argument, lines)
        }
        Expr::OnValue(span, call, argument) => {
            expression(source, scope, at, argument, lines)?;
            on_value(*call, at.int, span.first, lines)
        }
        Expr::OnPlace(span, call, of) => {
            let guard = taken_guard(source, *call, of);
            place(source, scope, at, of.span().first, None, guard, of, lines)?;
            on_place(source, scope, at, *span, *call, of, lines)
        }
        Expr::Cast(span, _, of) => {
            let guard = guard_of(source, of);
            place(source, scope, at, of.span().first, None, guard, of, lines)?;
            cast(source, scope, at, *span, of, lines)
        }
        Expr::Unary(span, operator, operand) => {
            expression(source, scope, at, operand, lines)?;
            unary(source, scope, at, expr, *span, *operator, operand, lines)
        }
        Expr::Index(_, _, _) => operation(source, scope, at, expr, lines),
        Expr::Field { .. } => operation(source, scope, at, expr, lines),
        Expr::Binary { .. } => operation(source, scope, at, expr, lines),
    }
}

/// The value of an element, of a field or of an operator with two operands, after its Enter; nothing for any other
/// expression.
#[cycle(expression)]
fn operation(
    source: &PlacedProgram<'_>,
    scope: &[Slot],
    at: Registers,
    expr: &Expr,
    lines: &mut Vec<Op>,
) -> Emitted
    ensures { OnOk result (lines.new.items
        ≡ lines.old.items ++ operation_code (context source.now scope.now) at.int at.reference (view_expr expr.now)) }
{
    match expr {
        Expr::Index(span, base, number) => {
            let guard = guard_of(source, expr);
            let next = indexed(source, scope, at, span.first, base, lines)?;
            expression(source, scope, next, number, lines)?;
            element(source, at, span.first, None, guard, base, lines)?;
            lvalue(source, scope, at, expr, lines)
        }
        Expr::Field {
            span,
            base,
            access,
            name,
        } => {
            let guard = guard_of(source, expr);
            field(
                source, scope, at, span.first, None, guard, base, *access, name, lines,
            )?;
            lvalue(source, scope, at, expr, lines)
        }
        Expr::Binary {
            operator,
            site,
            left,
            right,
            ..
        } => {
            let width = width_of(source.m.typed().kind_at(expr));
            expression(source, scope, at, left, lines)?;
            binary(
                source, scope, at, *operator, *site, width, right, left, lines,
            )
        }
        _ => Ok(()),
    }
}

/// An operator after its left operand.
#[cycle(expression)]
fn binary(
    source: &PlacedProgram<'_>,
    scope: &[Slot],
    at: Registers,
    operator: BinaryOperator,
    site: Site,
    width: Width,
    right: &Expr,
    left: &Expr,
    lines: &mut Vec<Op>,
) -> Emitted
    requires { width ≡ width_of (binary_result (class_of operator) (kind_at source.now.m.now.typed (view_expr left.now))
        (kind_at source.now.m.now.typed (view_expr right.now))) }
    ensures { OnOk result (lines.new.items ≡ lines.old.items
        ++ binary_code (context source.now scope.now) at.int at.reference site operator (view_expr left.now)
        (view_expr right.now) [] (λ i r. expression_code (context source.now scope.now) i r (view_expr right.now))) }
{
    let bank = bank(source, left);
    match evaluation_of(operator) {
        Evaluation::And => {
            truth(bank, at, lines)?;
            decided(source, scope, at, right, 0, lines)
        }
        Evaluation::Or => {
            truth(bank, at, lines)?;
            emit(Op::IsFalse(at.int, at.int), lines)?;
            decided(source, scope, at, right, 1, lines)
        }
        Evaluation::Both => {
            expression(source, scope, at.behind(bank)?, right, lines)?;
            computed(at, operator, site, width, bank, lines)
        }
    }
}

/// The right operand of `&&` or `||`: where the register is 0, the code leads over it, and this many operations after
/// it.
#[cycle(expression)]
fn decided(
    source: &PlacedProgram<'_>,
    scope: &[Slot],
    at: Registers,
    right: &Expr,
    more: usize,
    lines: &mut Vec<Op>,
) -> Emitted
    ensures { OnOk result (lines.new.items ≡ lines.old.items ++ decided_code at.int more
        (expression_code (context source.now scope.now) at.int at.reference (view_expr right.now)
        ++ truth_code (is_ref (context source.now []) (view_expr right.now)) at.int at.reference)) }
{
    let hole = Hole {
        line: lines.len(),
        register: at.int,
    };
    emit(Op::SkipIfZero(at.int, 0), lines)?;
    expression(source, scope, at, right, lines)?;
    truth(bank(source, right), at, lines)?;
    skip_if_zero(hole, more, lines)?;
    emit(Op::IsFalse(at.int, at.int), lines)?;
    emit(Op::IsFalse(at.int, at.int), lines)
}

/// Each argument, in the registers after those of the arguments before it.
#[cycle(expression)]
fn arguments(
    source: &PlacedProgram<'_>,
    scope: &[Slot],
    at: Registers,
    parameters: &[Declaration],
    arguments: &[Expr],
    lines: &mut Vec<Op>,
) -> Emitted
    ensures { OnOk result (lines.new.items ≡ lines.old.items ++ arguments_code (context source.now scope.now) at.int
        at.reference (declared_kinds parameters.now) (view_arguments arguments.now)) }
{
    let mut int = at.int;
    let mut reference = at.reference;
    let mut left = parameters;
    for argument in arguments {
        let here = Registers::of(int, reference)?;
        expression(source, scope, here, argument, lines)?;
        passed(int, left, argument.span().first, lines)?;
        let next = here.behind(bank(source, argument))?;
        int = next.int;
        reference = next.reference;
        left = after_first(left);
    }
    Ok(())
}

/// What an lvalue names, for this field of it if there is one, and with the pointer to a mutex in that field of the
/// same element.
#[cycle(expression)]
pub fn place(
    source: &PlacedProgram<'_>,
    scope: &[Slot],
    at: Registers,
    site: Site,
    of: Option<u32>,
    guard: Option<u32>,
    expr: &Expr,
    lines: &mut Vec<Op>,
) -> Emitted
    ensures { OnOk result (lines.new.items ≡ lines.old.items
        ++ place_code (context source.now scope.now) at.int at.reference site of guard (view_expr expr.now)) }
{
    emit(Op::Enter, lines)?;
    match expr {
        Expr::Parentheses(_, inner) => place(source, scope, at, site, of, guard, inner, lines),
        Expr::Index(_, base, number) => {
            let next = indexed(source, scope, at, site, base, lines)?;
            expression(source, scope, next, number, lines)?;
            element(source, at, site, of, guard, base, lines)
        }
        Expr::Field {
            base,
            access,
            name,
            ..
        } => field(
            source, scope, at, site, of, guard, base, *access, name, lines,
        ),
        Expr::Unary(_, UnaryOperator::Dereference, operand) => {
            expression(source, scope, at, operand, lines)?;
            pointee(at.reference, site, lines)
        }
        Expr::Unary(_, _, _) => Ok(()),
        Expr::Identifier(_, _) => Ok(()),
        Expr::Constant(_, _) => Ok(()),
        Expr::Call(_, _, _) => Ok(()),
        Expr::Spawn(_, _, _) => Ok(()),
        Expr::OnValue(_, _, _) => Ok(()),
        Expr::OnPlace(_, _, _) => Ok(()),
        Expr::Cast(_, _, _) => Ok(()),
        Expr::Binary { .. } => Ok(()),
    }
}

/// What is indexed, and the first registers for the index: an array takes none, a pointer takes a reference.
#[cycle(expression)]
fn indexed(
    source: &PlacedProgram<'_>,
    scope: &[Slot],
    at: Registers,
    site: Site,
    base: &Expr,
    lines: &mut Vec<Op>,
) -> Result<Registers, AllocError>
    ensures code { OnOk result (lines.new.items
        ≡ lines.old.items ++ indexed_code (context source.now scope.now) at.reference site (view_expr base.now)
        (place_code (context source.now scope.now) at.int at.reference site None None (view_expr base.now))
        (expression_code (context source.now scope.now) at.int at.reference (view_expr base.now))) }
    ensures int { IfOk result (λ next. next.int ≡ at.int) }
    ensures reference { IfOk result (λ next. next.reference
        ≡ index_register (context source.now scope.now) at.reference (view_expr base.now)) }
{
    if is_array(source.m.typed().kind_at(base)) {
        place(source, scope, at, site, None, None, base, lines)?;
        Ok(at)
    } else {
        expression(source, scope, at, base, lines)?;
        pointee(at.reference, site, lines)?;
        at.behind_reference()
    }
}

/// `a.n` and `a->n`
#[cycle(expression)]
fn field(
    source: &PlacedProgram<'_>,
    scope: &[Slot],
    at: Registers,
    site: Site,
    of: Option<u32>,
    guard: Option<u32>,
    base: &Expr,
    access: FieldOperator,
    name: &Identifier,
    lines: &mut Vec<Op>,
) -> Emitted
    ensures { OnOk result (lines.new.items
        ≡ lines.old.items ++ field_code (context source.now scope.now) at.reference site of access name.now
        (λ f. place_code (context source.now scope.now) at.int at.reference site f guard (view_expr base.now))
        (expression_code (context source.now scope.now) at.int at.reference (view_expr base.now))) }
{
    match access {
        FieldOperator::Dot => {
            let own = own_field(
                of,
                field_named(source, source.m.typed().named(name.site.token)),
            );
            place(source, scope, at, site, Some(own), guard, base, lines)
        }
        FieldOperator::Arrow => {
            expression(source, scope, at, base, lines)?;
            pointee(at.reference, site, lines)
        }
    }
}
