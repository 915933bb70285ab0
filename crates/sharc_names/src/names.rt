// The names in scope.

ghost use Rattle.std.specs.Prelude.{◌≡◌, ℕ, ◌-◌, ◌<◌, ◌≤◌, List, [], ◌∷◌, length, vec_len, drop, OnOk};
ghost use Rattle.sharc_names.specs.{Table.{in_scope, IsKept}, Names.look_up, View.{view_bound, view_bounds}};

use crate::meaning::Binding;
use indexmap::IndexMap;
use std::alloc::{AllocError, Global};
use std::marker::Model;

/// A declared name, and what its name meant before.
#[derive(Clone, Copy)]
struct Shadow<'a> {
    bound: Binding<'a>,
    hidden: Option<Binding<'a>>,
}

/// The names in scope. A contract sees the list of them, the last declared first. A look-up takes one step: a table has
/// the newest of each name, and a log what to put back at the end of a block.
#[derive(Drop)]
pub struct NamesInScope<'a> {
    log: Vec<Shadow<'a>>,
    newest: IndexMap<&'a [u8], Option<Binding<'a>>>,
}

/// Writes a name into log and table.
fn push_name<'a>(
    log: &mut Vec<Shadow<'a>>,
    newest: &mut IndexMap<&'a [u8], Option<Binding<'a>>>,
    bound: Binding<'a>,
    hidden: Option<Binding<'a>>,
) -> Result<(), AllocError>
    requires kept { IsKept log.old.items newest.old.entries }
    requires hidden { view_bounds hidden ≡ look_up (in_scope log.old.items) bound.name.now }
    ensures kept { IsKept log.new.items newest.new.entries }
    ensures names { OnOk result (in_scope log.new.items ≡ view_bound bound.entry ∷ in_scope log.old.items) }
{
    log.reserve(1)?;
    newest.insert(bound.name, Some(bound))?;
    log.push(Shadow { bound, hidden })?;
    Ok(())
}

/// Takes the last name out of log and table.
fn pop_name<'a>(
    log: &mut Vec<Shadow<'a>>,
    newest: &mut IndexMap<&'a [u8], Option<Binding<'a>>>,
) -> Result<(), AllocError>
    requires kept { IsKept log.old.items newest.old.entries }
    requires some { 0 < vec_len log.old }
    ensures kept { IsKept log.new.items newest.new.entries }
    ensures names { OnOk result (in_scope log.new.items ≡ drop 1 (in_scope log.old.items)) }
{
    let last = log[log.len() - 1];
    newest.insert(last.bound.name, last.hidden)?;
    log.pop();
    Ok(())
}

impl<'a> Model for NamesInScope<'a> {
    ghost use Rattle.std.specs.Prelude.{List};
    ghost use Rattle.sharc_names.specs.{Names.Entry, Table.{in_scope, IsKept}};

    ghost Value = { List Entry };

    ghost view = { λ n. in_scope n.log.items };

    ghost invariant = { λ n. IsKept n.log.items n.newest.entries };
}

impl<'a> NamesInScope<'a> {
    /// No name.
    pub fn new(alloc: Global) -> Self
        ensures { result ≡ [] }
    {
        NamesInScope {
            log: Vec::new(alloc),
            newest: IndexMap::new(alloc),
        }
    }

    /// The number of names in scope, hidden ones too.
    pub fn len(&self) -> usize
        ensures { result ≡ length self.now }
    {
        self.log.len()
    }

    /// What a name means.
    pub fn find(&self, name: &[u8]) -> Option<Binding<'a>>
        ensures { view_bounds result ≡ look_up self.now name.now }
    {
        match self.newest.get(name) {
            Some(bound) => *bound,
            None => None,
        }
    }

    /// One more name, which hides others of its text.
    pub fn declare(&mut self, bound: Binding<'a>) -> Result<(), AllocError>
        ensures { OnOk result (self.new ≡ view_bound bound.entry ∷ self.old) }
    {
        let hidden = self.find(bound.name);
        push_name(&mut self.log, &mut self.newest, bound, hidden)
    }

    /// Takes the last name away.
    fn drop_last(&mut self) -> Result<(), AllocError>
        requires { 0 < length self.old }
        ensures { OnOk result (self.new ≡ drop 1 self.old) }
    {
        pop_name(&mut self.log, &mut self.newest)
    }

    /// Takes away all names but the first `mark`, at the end of a block.
    pub fn leave(&mut self, mark: usize) -> Result<(), AllocError>
        requires { mark ≤ length self.old }
        ensures { OnOk result (self.new ≡ drop (length self.old - mark) self.old) }
    {
        while self.len() > mark {
            self.drop_last()?;
        }
        Ok(())
    }
}
