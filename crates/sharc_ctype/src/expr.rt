// The types of expressions, and the faults in them.

ghost use Rattle.std.specs.Prelude.{◌≡◌, ◌&&◌, ◌++◌, fold, is_some};
ghost use Rattle.sharc_tree.specs.{Tree.{call, spawn, cast, field}, View.{view_expr, view_arguments}};
ghost use Rattle.sharc_names.specs.{Names.look_up, Needs.{met, unmet}, Notes.noted, Types.{is_fine, name_kind}};
ghost use Rattle.sharc_names.specs.{Types.name_notes, View.{view_kind, view_kinds, view_bound, view_bounds}};
ghost use Rattle.sharc_names.specs.View.{view_meaning, view_wanted, view_wanteds};
ghost use Rattle.sharc_ctype.specs.{declared.expr.Standing.TheVariants.AsLvalue, Expressions.constant_kind};
ghost use Rattle.sharc_ctype.specs.Expressions.{number_kind, access_need, element_of, operand_need, unary_result};
ghost use Rattle.sharc_ctype.specs.Expressions.{unary_kind, class_of, operands_need, binary_result, may_join};
ghost use Rattle.sharc_ctype.specs.Expressions.{binary_kind, binary_notes, is_function_name, names_function, is_place};
ghost use Rattle.sharc_ctype.specs.Expressions.{place_kind, place_notes, suits, place_call_kind, place_call_notes};
ghost use Rattle.sharc_ctype.specs.Expressions.{value_call_kind, keeps_kind, cast_kind, cast_notes, can_spawn};
ghost use Rattle.sharc_ctype.specs.Expressions.{spawn_notes, may_spawn, spawn_kind, spawn_wanted, takes};
ghost use Rattle.sharc_ctype.specs.Expressions.{uncalled_notes, count_notes, callee_notes, wanted_if, wanted};
ghost use Rattle.sharc_ctype.specs.Expressions.{call_result, call_kind, type_of, are_fine, notes_at, notes_of};
ghost use Rattle.sharc_ctype.specs.Expressions.{notes_of_all};

use sharc_names::fault::{FaultCode, Found};
use sharc_names::kind::{
    ExpressionKind, common, comparable, declared_kind, element_kind, is_pointer, promoted,
    same_kind,
};
use sharc_names::meaning::{
    Binding, Meaning, is_function, is_main, named_of, parameters_of, result_of,
};
use sharc_names::names::NamesInScope;
use sharc_names::need::{Need, agree, meet, place};
use sharc_names::scope::Scope;
use sharc_names::types::{
    Role, field_in, field_kind, field_use, main_use, name_kind, name_use, written_type,
};
use sharc_names::wanted::{Wanted, count_of, first_wanted, rest_wanted};
use sharc_tree::token::{NumberType, Span};
use sharc_tree::tree::{
    BinaryOperator, Constant, Expr, FieldOperator, Identifier, PlaceCall, UnaryOperator,
    WrittenType,
};

/// What an expression stands for.
#[derive(Clone, Copy)]
pub enum Standing {
    /// For its value, or for nothing.
    AsValue,
    /// For the cell that it names: a call of a variable is then no lvalue, and nothing else.
    AsLvalue,
}

/// The kinds of operators between two operands (C11 6.5.5 to 6.5.14).
#[derive(Clone, Copy)]
pub enum OperatorClass {
    /// `||` and `&&`
    Logical,
    /// `==` and `!=`
    Equality,
    /// `<`, `>`, `<=` and `>=`
    Relation,
    /// `<<` and `>>`
    Shift,
    /// Every other.
    Arithmetic,
}

pub(crate) fn class_of(operator: BinaryOperator) -> OperatorClass
    ensures { result ≡ class_of operator }
{
    match operator {
        BinaryOperator::LogicalOr | BinaryOperator::LogicalAnd => OperatorClass::Logical,
        BinaryOperator::Equal | BinaryOperator::NotEqual => OperatorClass::Equality,
        BinaryOperator::Less | BinaryOperator::Greater => OperatorClass::Relation,
        BinaryOperator::LessOrEqual | BinaryOperator::GreaterOrEqual => OperatorClass::Relation,
        BinaryOperator::ShiftLeft | BinaryOperator::ShiftRight => OperatorClass::Shift,
        BinaryOperator::BitOr | BinaryOperator::BitXor | BinaryOperator::BitAnd => {
            OperatorClass::Arithmetic
        }
        BinaryOperator::Add | BinaryOperator::Subtract => OperatorClass::Arithmetic,
        BinaryOperator::Multiply | BinaryOperator::Divide | BinaryOperator::Remainder => {
            OperatorClass::Arithmetic
        }
    }
}

fn operands_need(class: OperatorClass) -> Need
    ensures { result ≡ operands_need class }
{
    match class {
        OperatorClass::Logical | OperatorClass::Equality => Need::Value,
        OperatorClass::Relation | OperatorClass::Shift | OperatorClass::Arithmetic => {
            Need::Integer
        }
    }
}

fn may_join(class: OperatorClass, a: ExpressionKind<'_>, b: ExpressionKind<'_>) -> bool
    ensures { result ≡ may_join class (view_kind a.entry) (view_kind b.entry) }
{
    match class {
        OperatorClass::Equality => comparable(a, b),
        OperatorClass::Logical => true,
        OperatorClass::Relation => true,
        OperatorClass::Shift => true,
        OperatorClass::Arithmetic => true,
    }
}

pub(crate) fn binary_result<'a>(
    class: OperatorClass,
    a: ExpressionKind<'_>,
    b: ExpressionKind<'_>,
) -> ExpressionKind<'a>
    ensures { view_kind result ≡ binary_result class (view_kind a.entry) (view_kind b.entry) }
{
    match class {
        OperatorClass::Logical => ExpressionKind::int(),
        OperatorClass::Equality => ExpressionKind::int(),
        OperatorClass::Relation => ExpressionKind::int(),
        OperatorClass::Shift => promoted(a),
        OperatorClass::Arithmetic => common(a, b),
    }
}

/// The type of an operator's result, where its operands have what they need.
fn binary_kind<'a>(
    class: OperatorClass,
    right: &Expr,
    a: Option<ExpressionKind<'a>>,
    b: Option<ExpressionKind<'a>>,
    found: &mut Found,
) -> Option<ExpressionKind<'a>>
    ensures kind { view_kinds result ≡ binary_kind class (view_kinds a.entry) (view_kinds b.entry) }
    ensures found { found.new
        ≡ fold noted found.old (binary_notes class (view_expr right.now) (view_kinds a.entry) (view_kinds b.entry)) }
{
    let (Some(a), Some(b)) = (a, b) else {
        return None;
    };
    if may_join(class, a, b) {
        Some(binary_result(class, a, b))
    } else {
        found.fault(place(right), FaultCode::TypeMismatch);
        None
    }
}

fn operand_need(operator: UnaryOperator) -> Need
    ensures { result ≡ operand_need operator }
{
    match operator {
        UnaryOperator::Negate | UnaryOperator::Complement => Need::Integer,
        UnaryOperator::Not => Need::Value,
        UnaryOperator::Dereference => Need::Pointer,
    }
}

pub(crate) fn unary_result(operator: UnaryOperator, kind: ExpressionKind<'_>) -> ExpressionKind<'_>
    ensures { view_kind result ≡ unary_result operator (view_kind kind.entry) }
{
    match operator {
        UnaryOperator::Negate => promoted(kind),
        UnaryOperator::Complement => promoted(kind),
        UnaryOperator::Not => ExpressionKind::int(),
        UnaryOperator::Dereference => element_kind(kind),
    }
}

fn unary_kind(
    operator: UnaryOperator,
    kind: Option<ExpressionKind<'_>>,
) -> Option<ExpressionKind<'_>>
    ensures { view_kinds result ≡ unary_kind operator (view_kinds kind.entry) }
{
    match kind {
        None => None,
        Some(kind) => Some(unary_result(operator, kind)),
    }
}

fn element_of<'a>(
    base: Option<ExpressionKind<'a>>,
    index: Option<ExpressionKind<'_>>,
) -> Option<ExpressionKind<'a>>
    ensures { view_kinds result ≡ element_of (view_kinds base.entry) (view_kinds index.entry) }
{
    match (base, index) {
        (Some(base), Some(_)) => Some(element_kind(base)),
        _ => None,
    }
}

fn access_need(access: FieldOperator) -> Need
    ensures { result ≡ access_need access }
{
    match access {
        FieldOperator::Dot => Need::Struct,
        FieldOperator::Arrow => Need::StructPointer,
    }
}

pub(crate) fn constant_kind<'a>(constant: Constant) -> ExpressionKind<'a>
    ensures { view_kind result ≡ constant_kind constant }
{
    match constant {
        Constant::Number(number) => match number.number_type {
            NumberType::Int => ExpressionKind::int(),
            NumberType::Long => ExpressionKind::long(),
        },
        Constant::Character(_) => ExpressionKind::int(),
        Constant::Null => ExpressionKind::Null,
    }
}

fn is_function_name(bound: Option<Binding<'_>>) -> bool
    ensures { result ≡ is_function_name (view_bounds bound.entry) }
{
    match bound {
        None => false,
        Some(bound) => is_function(bound.meaning),
    }
}

fn names_function(names: &NamesInScope<'_>, expr: &Expr) -> bool
    ensures { result ≡ names_function names.now (view_expr expr.now) }
{
    match expr {
        Expr::Identifier(_, name) => is_function_name(names.find(name.text.as_slice())),
        _ => false,
    }
}

/// Whether an expression is an lvalue.
fn is_place(names: &NamesInScope<'_>, expr: &Expr) -> bool
    ensures { result ≡ is_place names.now (view_expr expr.now) }
{
    expr.is_lvalue() && !names_function(names, expr.without_parentheses())
}

/// The type of an lvalue; takes note where the expression is not one.
fn place_kind<'a>(
    names: &NamesInScope<'_>,
    expr: &Expr,
    kind: Option<ExpressionKind<'a>>,
    found: &mut Found,
) -> Option<ExpressionKind<'a>>
    ensures kind { view_kinds result ≡ place_kind names.now (view_expr expr.now) (view_kinds kind.entry) }
    ensures found { found.new ≡ fold noted found.old (place_notes names.now (view_expr expr.now)) }
{
    if is_place(names, expr) {
        kind
    } else {
        found.fault(place(expr), FaultCode::NoLvalue);
        None
    }
}

fn suits(call: PlaceCall, kind: ExpressionKind<'_>) -> bool
    ensures { result ≡ suits call (view_kind kind.entry) }
{
    match call {
        PlaceCall::Lock | PlaceCall::Unlock => same_kind(kind, ExpressionKind::mutex()),
        PlaceCall::Free => is_pointer(kind),
    }
}

fn place_call_kind<'a>(
    word: u32,
    call: PlaceCall,
    kind: Option<ExpressionKind<'_>>,
    found: &mut Found,
) -> Option<ExpressionKind<'a>>
    ensures kind { view_kinds result ≡ place_call_kind call (view_kinds kind.entry) }
    ensures found { found.new ≡ fold noted found.old (place_call_notes word call (view_kinds kind.entry)) }
{
    match kind {
        None => None,
        Some(kind) => {
            if suits(call, kind) {
                Some(ExpressionKind::void())
            } else {
                found.fault(word, FaultCode::BadForm);
                None
            }
        }
    }
}

fn value_call_kind<'a>(kind: Option<ExpressionKind<'_>>) -> Option<ExpressionKind<'a>>
    ensures { view_kinds result ≡ value_call_kind (view_kinds kind.entry) }
{
    match kind {
        None => None,
        Some(_) => Some(ExpressionKind::void()),
    }
}

fn keeps_kind(fine: bool, written: &WrittenType, kind: ExpressionKind<'_>) -> bool
    ensures { result ≡ keeps_kind fine written.now (view_kind kind.entry) }
{
    fine && same_kind(kind, declared_kind(written))
}

fn cast_kind<'a>(
    word: u32,
    fine: bool,
    written: &'a WrittenType,
    source: &Expr,
    kind: Option<ExpressionKind<'_>>,
    found: &mut Found,
) -> Option<ExpressionKind<'a>>
    ensures kind { view_kinds result ≡ cast_kind fine written.now (view_kinds kind.entry) }
    ensures found { found.new
        ≡ fold noted found.old (cast_notes word fine written.now (view_expr source.now) (view_kinds kind.entry)) }
{
    match kind {
        None => None,
        Some(kind) => {
            if !is_pointer(kind) {
                found.fault(word, FaultCode::BadForm);
                None
            } else if keeps_kind(fine, written, kind) {
                Some(declared_kind(written))
            } else if fine {
                found.fault(place(source), FaultCode::TypeMismatch);
                None
            } else {
                None
            }
        }
    }
}

fn takes(count: usize, wanted: Option<Wanted<'_>>) -> bool
    ensures { result ≡ takes count (view_wanteds wanted.entry) }
{
    match wanted {
        None => false,
        Some(wanted) => count_of(wanted) == count,
    }
}

/// The fault of a call of what is no function.
fn uncalled(standing: Standing, token: u32, found: &mut Found)
    ensures { found.new ≡ fold noted found.old (uncalled_notes standing token) }
{
    match standing {
        Standing::AsValue => found.fault(token, FaultCode::TypeMismatch),
        Standing::AsLvalue => {}
    }
}

fn argument_count(
    standing: Standing,
    token: u32,
    count: usize,
    wanted: Option<Wanted<'_>>,
    found: &mut Found,
)
    ensures { found.new ≡ fold noted found.old (count_notes standing token count (view_wanteds wanted.entry)) }
{
    match wanted {
        None => uncalled(standing, token, found),
        Some(wanted) => {
            found.fault_unless(count_of(wanted) == count, token, FaultCode::ArgumentCount);
        }
    }
}

/// The faults of a call's name, with this many arguments.
fn callee(
    standing: Standing,
    token: u32,
    count: usize,
    bound: Option<Binding<'_>>,
    found: &mut Found,
)
    ensures { found.new ≡ fold noted found.old (callee_notes standing token count (view_bounds bound.entry)) }
{
    match bound {
        None => found.fault(token, FaultCode::UnknownName),
        Some(bound) => {
            found.name(token, named_of(bound.meaning));
            main_use(token, bound.meaning, found);
            argument_count(standing, token, count, parameters_of(bound.meaning), found);
        }
    }
}

fn wanted_if(fits: bool, wanted: Option<Wanted<'_>>) -> Wanted<'_>
    ensures { view_wanted result ≡ wanted_if fits (view_wanteds wanted.entry) }
{
    match wanted {
        Some(wanted) if fits => wanted,
        _ => Wanted::Parameters(&[]),
    }
}

/// What this many arguments have to agree with.
fn wanted<'a>(count: usize, bound: Option<Binding<'a>>) -> Wanted<'a>
    ensures { view_wanted result ≡ wanted count (view_bounds bound.entry) }
{
    match bound {
        None => Wanted::Parameters(&[]),
        Some(bound) => {
            let wanted = parameters_of(bound.meaning);
            wanted_if(takes(count, wanted), wanted)
        }
    }
}

fn call_result(count: usize, bound: Option<Binding<'_>>) -> Option<ExpressionKind<'_>>
    ensures { view_kinds result ≡ call_result count (view_bounds bound.entry) }
{
    let bound = bound?;
    if takes(count, parameters_of(bound.meaning)) && !is_main(bound.meaning) {
        Some(result_of(bound.meaning))
    } else {
        None
    }
}

fn can_spawn(meaning: Meaning<'_>) -> bool
    ensures { result ≡ can_spawn (view_meaning meaning.entry) }
{
    match meaning {
        Meaning::Function(_, signature) => {
            same_kind(declared_kind(signature.result), ExpressionKind::void())
                && (signature.parameters.len() == 1 && !is_main(meaning))
        }
        _ => false,
    }
}

/// The faults of the name that `spawn` takes.
fn spawned(word: u32, token: u32, bound: Option<Binding<'_>>, found: &mut Found)
    ensures { found.new ≡ fold noted found.old (spawn_notes word token (view_bounds bound.entry)) }
{
    match bound {
        None => found.fault(token, FaultCode::UnknownName),
        Some(bound) => {
            found.name(token, named_of(bound.meaning));
            main_use(token, bound.meaning, found);
            found.fault_unless(can_spawn(bound.meaning), word, FaultCode::BadForm);
        }
    }
}

fn may_spawn(bound: Option<Binding<'_>>) -> bool
    ensures { result ≡ may_spawn (view_bounds bound.entry) }
{
    match bound {
        None => false,
        Some(bound) => can_spawn(bound.meaning),
    }
}

fn spawn_kind<'a>(
    well: bool,
    fine: bool,
    kind: Option<ExpressionKind<'_>>,
) -> Option<ExpressionKind<'a>>
    ensures { view_kinds result ≡ spawn_kind well fine (view_kinds kind.entry) }
{
    match kind {
        Some(_) if well && fine => Some(ExpressionKind::int()),
        _ => None,
    }
}

/// Whether all arguments are fine, where the last has this type and agrees or not.
fn still_fine(fine: bool, kind: Option<ExpressionKind<'_>>, agreed: bool) -> bool
    ensures { result ≡ (fine && (is_some (view_kinds kind.entry) && agreed)) }
{
    let typed = match kind {
        Some(_) => true,
        None => false,
    };
    fine && (typed && agreed)
}

/// The type of a call, where its arguments are fine.
fn call_kind(kind: Option<ExpressionKind<'_>>, fine: bool) -> Option<ExpressionKind<'_>>
    ensures { view_kinds result ≡ call_kind (view_kinds kind.entry) fine }
{
    if fine { kind } else { None }
}

/// The type of what a name names, and the faults of its use.
fn name_of<'a>(
    scope: &Scope<'a>,
    name: &Identifier,
    found: &mut Found,
) -> Option<ExpressionKind<'a>>
    ensures kind { view_kinds result ≡ name_kind (look_up scope.now.names name.now.text) }
    ensures found { found.new ≡ fold noted found.old
        (name_notes name.now.site.token (look_up scope.now.names name.now.text)) }
{
    let bound = scope.names.find(name.text.as_slice());
    name_use(name.site.token, bound, found);
    name_kind(bound)
}

/// The type of an expression, or none where there is a fault in it. Takes note of its faults, and of what its names
/// name.
#[cycle(expr)]
pub(crate) fn expression<'a>(
    scope: &Scope<'a>,
    standing: Standing,
    expr: &'a Expr,
    found: &mut Found,
) -> Option<ExpressionKind<'a>>
    ensures kind { view_kinds result ≡ type_of scope.now (view_expr expr.now) }
    ensures found { found.new ≡ fold noted found.old (notes_at standing scope.now (view_expr expr.now)) }
{
    match expr {
        Expr::Identifier(_, name) => name_of(scope, name, found),
        Expr::Constant(_, constant) => Some(constant_kind(*constant)),
        Expr::Parentheses(_, inner) => expression(scope, standing, inner, found),
        Expr::Call(span, name, all) => call(scope, standing, *span, name, all, found),
        Expr::Spawn(span, name, value) => spawn(scope, *span, name, value, found),
        Expr::OnValue(_, _, value) => value_call_kind(met(scope, Need::Integer, value, found)),
        Expr::OnPlace(span, word, operand) => {
            let kind = lvalue(scope, operand, found);
            place_call_kind(span.first.token, *word, kind, found)
        }
        Expr::Cast(span, to, source) => cast(scope, *span, to, source, found),
        Expr::Index(_, base, index) => {
            let element = met(scope, Need::Indexed, base, found);
            element_of(element, met(scope, Need::Integer, index, found))
        }
        Expr::Field {
            span,
            base,
            access,
            name,
        } => field(scope, *span, base, *access, name, found),
        Expr::Unary(_, operator, value) => {
            unary_kind(*operator, met(scope, operand_need(*operator), value, found))
        }
        Expr::Binary {
            operator,
            left,
            right,
            ..
        } => {
            let class = class_of(*operator);
            let a = met(scope, operands_need(class), left, found);
            let b = met(scope, operands_need(class), right, found);
            binary_kind(class, right, a, b, found)
        }
    }
}

/// The type of a value where it meets the need; takes note of its faults, and where it does not.
#[cycle(expr)]
pub(crate) fn met<'a>(
    scope: &Scope<'a>,
    need: Need,
    expr: &'a Expr,
    found: &mut Found,
) -> Option<ExpressionKind<'a>>
    ensures kind { view_kinds result ≡ met need (type_of scope.now (view_expr expr.now)) }
    ensures found { let e = view_expr expr.now in
        found.new ≡ fold noted found.old (notes_of scope.now e ++ unmet need e (type_of scope.now e)) }
{
    let kind = expression(scope, Standing::AsValue, expr, found);
    meet(need, expr, kind, found)
}

/// The type of an lvalue; takes note of its faults, and where it is not one.
#[cycle(expr)]
pub(crate) fn lvalue<'a>(
    scope: &Scope<'a>,
    expr: &'a Expr,
    found: &mut Found,
) -> Option<ExpressionKind<'a>>
    ensures kind { let e = view_expr expr.now in
        view_kinds result ≡ place_kind scope.now.names e (type_of scope.now e) }
    ensures found { let e = view_expr expr.now in
        found.new ≡ fold noted found.old (notes_at AsLvalue scope.now e ++ place_notes scope.now.names e) }
{
    let kind = expression(scope, Standing::AsLvalue, expr, found);
    place_kind(&scope.names, expr, kind, found)
}

/// The type of a call, and the faults in it.
#[cycle(expr)]
fn call<'a>(
    scope: &Scope<'a>,
    standing: Standing,
    span: Span,
    name: &Identifier,
    list: &'a [Expr],
    found: &mut Found,
) -> Option<ExpressionKind<'a>>
    ensures kind { view_kinds result ≡ type_of scope.now (call span name.now (view_arguments list.now)) }
    ensures found { found.new ≡ fold noted found.old
        (notes_at standing scope.now (call span name.now (view_arguments list.now))) }
{
    let bound = scope.names.find(name.text.as_slice());
    let count = list.len();
    callee(standing, name.site.token, count, bound, found);
    let fine = arguments(scope, wanted(count, bound), list, found);
    call_kind(call_result(count, bound), fine)
}

/// The type of a spawn, and the faults in it.
#[cycle(expr)]
fn spawn<'a>(
    scope: &Scope<'a>,
    span: Span,
    name: &Identifier,
    argument: &'a Expr,
    found: &mut Found,
) -> Option<ExpressionKind<'a>>
    ensures kind { view_kinds result ≡ type_of scope.now (spawn span name.now (view_expr argument.now)) }
    ensures found { found.new ≡ fold noted found.old
        (notes_of scope.now (spawn span name.now (view_expr argument.now))) }
{
    let bound = scope.names.find(name.text.as_slice());
    let kind = met(scope, Need::Value, argument, found);
    spawned(span.first.token, name.site.token, bound, found);
    let agreed = agree(first_wanted(wanted(1, bound)), argument, kind, found);
    spawn_kind(may_spawn(bound), agreed, kind)
}

/// The type of a field, and the faults in what it is a field of.
#[cycle(expr)]
fn field<'a>(
    scope: &Scope<'a>,
    span: Span,
    base: &'a Expr,
    access: FieldOperator,
    name: &Identifier,
    found: &mut Found,
) -> Option<ExpressionKind<'a>>
    ensures kind { view_kinds result ≡ type_of scope.now (field span (view_expr base.now) access name.now) }
    ensures found { found.new ≡ fold noted found.old
        (notes_of scope.now (field span (view_expr base.now) access name.now)) }
{
    let of = met(scope, access_need(access), base, found);
    let field = field_in(&scope.structs, name.text.as_slice(), of);
    field_use(name.site.token as usize, field, found);
    field_kind(field)
}

/// The type of a sharing cast, and the faults in it.
#[cycle(expr)]
fn cast<'a>(
    scope: &Scope<'a>,
    span: Span,
    to: &'a WrittenType,
    source: &'a Expr,
    found: &mut Found,
) -> Option<ExpressionKind<'a>>
    ensures kind { view_kinds result ≡ type_of scope.now (cast span to.now (view_expr source.now)) }
    ensures found { found.new ≡ fold noted found.old
        (notes_of scope.now (cast span to.now (view_expr source.now))) }
{
    let fine = written_type(scope, None, Role::Cast, to, found);
    let kind = lvalue(scope, source, found);
    cast_kind(span.first.token, fine, to, source, kind, found)
}

/// Takes note of the faults of the arguments of a call; answers whether each has a type that agrees with its parameter.
#[cycle(expr)]
fn arguments<'a>(scope: &Scope<'a>, wanted: Wanted<'a>, list: &'a [Expr], found: &mut Found) -> bool
    ensures fine { result ≡ are_fine scope.now (view_wanted wanted.entry) (view_arguments list.now) }
    ensures found { found.new
        ≡ fold noted found.old (notes_of_all scope.now (view_wanted wanted.entry) (view_arguments list.now)) }
{
    let mut fine = true;
    let mut left = wanted;
    for expr in list {
        let kind = expression(scope, Standing::AsValue, expr, found);
        let kind = meet(Need::Value, expr, kind, found);
        let agreed = agree(first_wanted(left), expr, kind, found);
        fine = still_fine(fine, kind, agreed);
        left = rest_wanted(left);
    }
    fine
}
