// The limit on the locals of a function: a pass of its own.

ghost use Rattle.std.specs.Prelude.{◌≡◌, ◌-◌, ◌==◌, length, fold};
ghost use Rattle.sharc_names.specs.{declared.fault.FaultCode.TheVariants.LimitPassed, Notes.{noted, fault_where}};
ghost use Rattle.sharc_tree.specs.View.{view_first, view_stmt, view_statements};
ghost use Rattle.sharc_ctype.specs.{Items.beyond, Statements.{first_locals, locals_in, locals_in_all}};

use sharc_names::fault::{FaultCode, Found};
use sharc_tree::tree::{ForFirst, Stmt};

/// One local, where there is room for this many; answers for how many there is room after it.
fn local(token: u32, room: usize, found: &mut Found) -> usize
    ensures room { result ≡ room - 1 }
    ensures found { found.new ≡ fold noted found.old (fault_where (room == 0) token LimitPassed) }
{
    found.fault_where(room == 0, token, FaultCode::LimitPassed);
    room.saturating_sub(1)
}

fn first_local(first: &ForFirst, room: usize, found: &mut Found) -> usize
    ensures room { result ≡ room - length (first_locals (view_first first.now)) }
    ensures found { found.new ≡ fold noted found.old (beyond room (first_locals (view_first first.now))) }
{
    match first {
        ForFirst::Declares(declared) => local(declared.declaration.name.site.token, room, found),
        ForFirst::Nothing => room,
        ForFirst::Does(_) => room,
    }
}

/// Takes note of the locals of a statement for which there is no room; answers for how many there is room after it.
#[cycle(locals)]
#[tactic(auto, using(crate::proofs::LocalLemmas::beyond_both, crate::proofs::LocalLemmas::room_both))]
fn locals(stmt: &Stmt, room: usize, found: &mut Found) -> usize
    ensures room { result ≡ room - length (locals_in (view_stmt stmt.now)) }
    ensures found { found.new ≡ fold noted found.old (beyond room (locals_in (view_stmt stmt.now))) }
{
    match stmt {
        Stmt::Block(_, list) => all_locals(list.as_slice(), room, found),
        Stmt::Declare(_, declared) => local(declared.declaration.name.site.token, room, found),
        Stmt::If(_, _, then) => locals(then, room, found),
        Stmt::IfElse {
            then,
            otherwise,
            ..
        } => {
            let left = locals(then, room, found);
            locals(otherwise, left, found)
        }
        Stmt::While(_, _, body) => locals(body, room, found),
        Stmt::For(_, head, body) => {
            let left = first_local(&head.first, room, found);
            locals(body, left, found)
        }
        Stmt::Empty(_) => room,
        Stmt::Simple(_, _) => room,
        Stmt::Jump(_, _) => room,
        Stmt::Return(_, _) => room,
    }
}

/// The same of statements that follow one another.
#[cycle(locals)]
#[tactic(auto, using(crate::proofs::LocalLemmas::beyond_both, crate::proofs::LocalLemmas::room_both))]
pub(crate) fn all_locals(list: &[Stmt], room: usize, found: &mut Found) -> usize
    ensures room { result ≡ room - length (locals_in_all (view_statements list.now)) }
    ensures found { found.new ≡ fold noted found.old (beyond room (locals_in_all (view_statements list.now))) }
{
    let mut left = room;
    for stmt in list {
        left = locals(stmt, left, found);
    }
    left
}
