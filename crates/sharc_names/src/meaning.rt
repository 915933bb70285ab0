// What a name means.

ghost use Rattle.std.specs.Prelude.{◌≡◌};
ghost use Rattle.sharc_names.specs.Names.{kind_of, named_of, is_function, is_main, global_kind, parameters_of};
ghost use Rattle.sharc_names.specs.{Names.result_of, View.{view_kind, view_meaning, view_wanteds}};

use crate::fault::Named;
use crate::kind::{ExpressionKind, declared_kind};
use crate::wanted::Wanted;
use sharc_tree::tree::{Declaration, GlobalDefinition, GlobalForm, Identifier, WrittenType};

/// What a function is called by.
#[derive(Clone, Copy)]
pub struct Signature<'a> {
    pub name: &'a Identifier,
    pub result: &'a WrittenType,
    pub parameters: &'a [Declaration],
}

/// A call that the language knows where the program defines none of `struct cond`, `wait`, `signal` and `broadcast`.
#[derive(Clone, Copy)]
pub enum ConditionCall {
    /// `void wait(struct cond * c, mutex * m)`
    Wait,
    /// `void signal(struct cond * c)`
    Signal,
    /// `void broadcast(struct cond * c)`
    Broadcast,
}

/// What a name means: a parameter or a local, a global with its number, a function with its number, or a known call.
#[derive(Clone, Copy)]
pub enum Meaning<'a> {
    Variable(&'a Declaration),
    Global(u32, &'a GlobalDefinition),
    Function(u32, Signature<'a>),
    Condition(ConditionCall),
}

/// A name that is declared in a block.
#[derive(Clone, Copy)]
pub struct Binding<'a> {
    pub name: &'a [u8],
    /// How many names were in scope where its block begins.
    pub block: usize,
    pub meaning: Meaning<'a>,
}

fn global_kind(form: GlobalForm, kind: ExpressionKind<'_>) -> ExpressionKind<'_>
    ensures { view_kind result ≡ global_kind form (view_kind kind.entry) }
{
    match (form, kind) {
        (GlobalForm::Array(_, _), ExpressionKind::Object(root, stars)) => ExpressionKind::Array(
            root, stars,
        ),
        (_, other) => other,
    }
}

/// The kind of a name with this meaning.
pub fn kind_of(meaning: Meaning<'_>) -> ExpressionKind<'_>
    ensures { view_kind result ≡ kind_of (view_meaning meaning.entry) }
{
    match meaning {
        Meaning::Variable(declaration) => declared_kind(&declaration.written),
        Meaning::Global(_, global) => {
            global_kind(global.form, declared_kind(&global.declaration.written))
        }
        Meaning::Function(_, _) => ExpressionKind::Function,
        Meaning::Condition(_) => ExpressionKind::Function,
    }
}

/// What a token with this meaning names.
pub fn named_of(meaning: Meaning<'_>) -> Named
    ensures { result ≡ named_of (view_meaning meaning.entry) }
{
    match meaning {
        Meaning::Variable(declaration) => Named::Variable(declaration.name.site.token),
        Meaning::Global(number, _) => Named::Global(number),
        Meaning::Function(number, _) => Named::Function(number),
        Meaning::Condition(_) => Named::Known,
    }
}

/// Whether it is a function.
pub fn is_function(meaning: Meaning<'_>) -> bool
    ensures { result ≡ is_function (view_meaning meaning.entry) }
{
    match meaning {
        Meaning::Function(_, _) => true,
        Meaning::Condition(_) => true,
        _ => false,
    }
}

/// Whether it is the function `main`.
pub fn is_main(meaning: Meaning<'_>) -> bool
    ensures { result ≡ is_main (view_meaning meaning.entry) }
{
    match meaning {
        Meaning::Function(_, signature) => signature.name.text.as_slice() == b"main".as_slice(),
        _ => false,
    }
}

/// What the arguments of a call of that name are wanted to be; none of a variable, which is not called.
pub fn parameters_of(meaning: Meaning<'_>) -> Option<Wanted<'_>>
    ensures { view_wanteds result ≡ parameters_of (view_meaning meaning.entry) }
{
    match meaning {
        Meaning::Function(_, signature) => Some(Wanted::Parameters(signature.parameters)),
        Meaning::Condition(call) => Some(Wanted::Condition(call)),
        Meaning::Variable(_) => None,
        Meaning::Global(_, _) => None,
    }
}

/// What a call of that name gives.
pub fn result_of(meaning: Meaning<'_>) -> ExpressionKind<'_>
    ensures { view_kind result ≡ result_of (view_meaning meaning.entry) }
{
    match meaning {
        Meaning::Function(_, signature) => declared_kind(signature.result),
        Meaning::Condition(_) => ExpressionKind::void(),
        Meaning::Variable(_) => ExpressionKind::void(),
        Meaning::Global(_, _) => ExpressionKind::void(),
    }
}
