//! Which checks of flat code repeat one of their straight piece: found in one pass over the lines.

ghost use Rattle.std.specs.Prelude.{◌≡◌, ℕ, ◌+◌, ◌<◌, ◌^◌, ◌==◌, ◌||◌, false, [], Some, IfOk, OnOk, length, get_or};
ghost use Rattle.std.specs.{Prelude.if◌then◌else◌, Option.option_copied};
ghost use Rattle.sharc_heap.specs.declared.shadow_word.Kind.TheVariants.{Write};
ghost use Rattle.sharc_flat.specs.Made.{flat_of};
ghost use Rattle.sharc_guard.specs.Known.{counts, drops, global_place, is_entry, is_led_to, know_after, know_next};
ghost use Rattle.sharc_guard.specs.Known.{nothing, of_constant, place_of, variable_place, with_element};
ghost use Rattle.sharc_guard.specs.Marked.{AreBefore, AreMarks, AreTargets, is_one, is_written, know_of, no_notes};
ghost use Rattle.sharc_guard.specs.Marked.{noted_place, notes_of, number_of_line, or_never, passed_at, passed_by};
ghost use Rattle.sharc_guard.specs.Marked.{passed_there, place_from, repeats, stronger, with_access, with_copy};
ghost use Rattle.sharc_guard.specs.Marked.{with_floor, with_noted, with_number, with_place, with_written};

use crate::operations::{
    CheckedAccess, Copying, Written, access, copy_made, is_straight, led_to, written_integer,
    written_references,
};
use indexmap::IndexMap;
use sharc_code::{Cell, Function};
use sharc_flat::{Flat, Op};
use sharc_heap::Kind;
use std::alloc::{AllocError, Global};

/// The copy of a variable's reference, and when it was made.
#[derive(Clone, Copy)]
pub(crate) struct Copied {
    variable: u32,
    made: u32,
}

/// What is known of the number in an integer register, and since when.
#[derive(Clone, Copy)]
pub(crate) struct KnownNumber {
    number: Option<u64>,
    made: u32,
}

/// The check of a place, and when it was passed.
#[derive(Clone, Copy)]
pub(crate) struct PassedCheck {
    kind: Kind,
    made: u32,
}

/// A simple place: a cell of what a variable refers to, or of a global.
#[derive(Clone, Copy)]
pub(crate) enum SimplePlace {
    InVariable(u32, u64),
    InGlobal(u32, u64),
}

/// What is known before a line. A time is the number of a line, plus 1; what was noted at a time up to `floor` is void.
#[derive(Drop)]
pub(crate) struct Knowledge {
    floor: u32,
    written: IndexMap<u32, u32>,
    copies: IndexMap<u32, Copied>,
    numbers: IndexMap<u32, KnownNumber>,
    in_variables: IndexMap<(u32, u64), PassedCheck>,
    in_globals: IndexMap<(u32, u64), PassedCheck>,
}

/// The marks of all lines: which of their checks are dropped. It takes one pass.
pub(crate) fn marks_of(alloc: Global, flat: &Flat) -> Result<Vec<bool>, AllocError>
    requires few { length flat.now.lines.items < 2 ^ 29 }
    ensures { IfOk result (λ marks. AreMarks (flat_of flat.now) marks.items) }
{
    let targets = targets_of(alloc, &flat.lines, &flat.functions)?;
    marks_by(alloc, flat, &targets)
}

fn marks_by(alloc: Global, flat: &Flat, targets: &[bool]) -> Result<Vec<bool>, AllocError>
    requires few { length flat.now.lines.items < 2 ^ 29 }
    requires targets { AreTargets flat.now.lines.items flat.now.functions.items targets.now }
    ensures { IfOk result (λ marks. AreMarks (flat_of flat.now) marks.items) }
{
    let mut marks = Vec::with_capacity(alloc, flat.lines.len())?;
    let mut knowledge = Knowledge::new(alloc);
    let marked = mark_all(&mut marks, &mut knowledge, flat, targets);
    drop(knowledge);
    marked?;
    Ok(marks)
}

// Goes over the lines from the first, where nothing is known.
fn mark_all(
    marks: &mut Vec<bool>,
    knowledge: &mut Knowledge,
    flat: &Flat,
    targets: &[bool],
) -> Result<(), AllocError>
    requires few { length flat.now.lines.items < 2 ^ 29 }
    requires targets { AreTargets flat.now.lines.items flat.now.functions.items targets.now }
    requires none { marks.old.items ≡ [] }
    requires nothing { notes_of knowledge.old ≡ no_notes }
    ensures { OnOk result (AreMarks (flat_of flat.now) marks.new.items) }
{
    for n in 0..flat.lines.len() {
        let op = flat.lines[n];
        marks.push(knowledge.drops(op))?;
        knowledge.step(op, n as u32 + 1, targets[n + 1])?;
    }
    Ok(())
}

// Which lines, and whether the one after the last, are led to or begin a function.
fn targets_of(alloc: Global, lines: &[Op], functions: &[Function]) -> Result<Vec<bool>, AllocError>
    requires few { length lines.now < 2 ^ 29 }
    ensures { IfOk result (λ targets. AreTargets lines.now functions.now targets.items) }
{
    let mut targets = vec![in alloc; false; lines.len() + 1]?;
    mark_led_to(&mut targets, lines);
    mark_entries(&mut targets, functions);
    Ok(targets)
}

fn mark_led_to(targets: &mut [bool], lines: &[Op])
    requires few { length lines.now < 2 ^ 29 }
    ensures count { length targets.new ≡ length targets.old }
    ensures are { (to : ℕ) → to < length targets.old
        → get_or targets.new to false ≡ (get_or targets.old to false || is_led_to lines.now (length lines.now) to) }
{
    for n in 0..lines.len() {
        mark(targets, led_to(lines[n], n));
    }
}

fn mark_entries(targets: &mut [bool], functions: &[Function])
    ensures count { length targets.new ≡ length targets.old }
    ensures are { (to : ℕ) → to < length targets.old
        → get_or targets.new to false ≡ (get_or targets.old to false || is_entry functions.now to) }
{
    for function in functions {
        mark(targets, Some(function.entry as usize));
    }
}

// Marks a line, if there is one and it is in the list.
fn mark(targets: &mut [bool], to: Option<usize>)
    ensures count { length targets.new ≡ length targets.old }
    ensures are { (k : ℕ) → k < length targets.old
        → get_or targets.new k false ≡ (get_or targets.old k false || is_one to k) }
{
    if let Some(to) = to {
        if to < targets.len() {
            targets[to] = true;
        }
    }
}

impl Knowledge {
    /// Nothing is known.
    fn new(alloc: Global) -> Self
        ensures { notes_of result ≡ no_notes }
    {
        Knowledge {
            floor: 0,
            written: IndexMap::new(alloc),
            copies: IndexMap::new(alloc),
            numbers: IndexMap::new(alloc),
            in_variables: IndexMap::new(alloc),
            in_globals: IndexMap::new(alloc),
        }
    }

    /// Whether the check of an operation is dropped.
    fn drops(&self, op: Op) -> bool
        ensures { result ≡ drops (know_of (notes_of self.now)) op }
    {
        match op {
            Op::Load(_, _, _) => self.repeats(access(op)),
            Op::Store(_, _, _) => self.repeats(access(op)),
            _ => false,
        }
    }

    // Whether the check of an access repeats one.
    fn repeats(&self, access: Option<CheckedAccess>) -> bool
        ensures { result ≡ repeats (know_of (notes_of self.now)) access }
    {
        match access {
            None => false,
            Some(access) => access.tells && self.passed_there(access.kind, self.place(access.cell)),
        }
    }

    fn passed_there(&self, kind: Kind, place: Option<SimplePlace>) -> bool
        ensures { result ≡ passed_there (notes_of self.now) kind place }
    {
        match place {
            None => false,
            Some(place) => self.has_passed(kind, place),
        }
    }

    /// What is known after an operation at this time, and before the next line, which is a target or not.
    fn step(&mut self, op: Op, time: u32, enters: bool) -> Result<(), AllocError>
        requires before { AreBefore time (notes_of self.old) }
        ensures known { OnOk result (know_of (notes_of self.new) ≡ (if enters then nothing
            else know_after (Some op) (know_of (notes_of self.old)))) }
        ensures before { OnOk result (AreBefore (time + 1) (notes_of self.new)) }
    {
        if enters {
            self.end_piece(time);
            Ok(())
        } else if is_straight(op) {
            self.go_on(op, time)
        } else {
            self.end_piece(time);
            Ok(())
        }
    }

    // All that is known is void from this time on.
    fn end_piece(&mut self, time: u32)
        ensures { notes_of self.new ≡ with_floor time (notes_of self.old) }
    {
        self.floor = time;
    }

    // An operation of a straight piece.
    fn go_on(&mut self, op: Op, time: u32) -> Result<(), AllocError>
        requires before { AreBefore time (notes_of self.old) }
        ensures known { OnOk result (know_of (notes_of self.new) ≡ know_next op (know_of (notes_of self.old))) }
        ensures before { OnOk result (AreBefore (time + 1) (notes_of self.new)) }
    {
        let number = self.number_given(op);
        self.note_access(access(op), time)?;
        self.note_written(written_references(op), time)?;
        self.note_copy(copy_made(op), time)?;
        self.note_number(written_integer(op), number, time)
    }

    // When a reference register was written last; 0 where it was not.
    fn written(&self, register: u32) -> u32
        ensures { result ≡ or_never ((notes_of self.now).written register) }
    {
        match self.written.get(&register) {
            None => 0,
            Some(time) => *time,
        }
    }

    // The variable of whose reference a register has a copy.
    fn copy(&self, register: u32) -> Option<u32>
        ensures { result ≡ (know_of (notes_of self.now)).copy register }
    {
        match self.copies.get(&register) {
            None => None,
            Some(copied) => {
                if self.floor < copied.made
                    && (self.written(register) <= copied.made
                        && self.written(copied.variable) < copied.made)
                {
                    Some(copied.variable)
                } else {
                    None
                }
            }
        }
    }

    // The number in an integer register.
    fn number(&self, register: u32) -> Option<u64>
        ensures { result ≡ (know_of (notes_of self.now)).number register }
    {
        match self.numbers.get(&register) {
            None => None,
            Some(numbered) => if self.floor < numbered.made {
                numbered.number
            } else {
                None
            },
        }
    }

    // Whether a check of a place was passed that counts for this kind.
    fn has_passed(&self, kind: Kind, place: SimplePlace) -> bool
        ensures { result ≡ passed_at (notes_of self.now) kind (place_from place) }
    {
        match place {
            SimplePlace::InVariable(variable, number) => passed_since(
                self.in_variables.get(&(variable, number)),
                self.floor,
                self.written(variable),
                kind,
            ),
            SimplePlace::InGlobal(global, number) => {
                passed_since(self.in_globals.get(&(global, number)), self.floor, 0, kind)
            }
        }
    }

    // The simple place that a cell names.
    fn place(&self, cell: Cell) -> Option<SimplePlace>
        ensures { result ≡ noted_place (place_of (know_of (notes_of self.now)) cell) }
    {
        match cell {
            Cell::Global(global, number) => Some(SimplePlace::InGlobal(global, u64::from(number))),
            Cell::GlobalAt(global, at) => in_global(global, self.number(at)),
            Cell::Object(register, number) => in_variable(
                self.copy(register),
                Some(u64::from(number)),
            ),
            Cell::ObjectAt(register, at) => in_variable(self.copy(register), self.number(at)),
        }
    }

    // The number that an operation writes into an integer register, if it is known.
    fn number_given(&self, op: Op) -> Option<u64>
        ensures { result ≡ number_of_line op (know_of (notes_of self.now)) }
    {
        match op {
            Op::Constant(_, value) => constant(value),
            Op::Bounds(i, _, cells, field, _) => element(self.number(i), cells, field),
            Op::GlobalBounds(i, _, cells, field, _) => element(self.number(i), cells, field),
            _ => None,
        }
    }

    // A check of a place of mode dynamic was passed.
    fn note_access(&mut self, access: Option<CheckedAccess>, time: u32) -> Result<(), AllocError>
        ensures { OnOk result (notes_of self.new ≡ with_access access time (notes_of self.old)) }
    {
        match access {
            None => Ok(()),
            Some(access) => {
                if access.tells {
                    let place = self.place(access.cell);
                    self.note_check(access.kind, place, time)
                } else {
                    Ok(())
                }
            }
        }
    }

    fn note_check(
        &mut self,
        kind: Kind,
        place: Option<SimplePlace>,
        time: u32,
    ) -> Result<(), AllocError>
        ensures { OnOk result (notes_of self.new ≡ with_noted kind place time (notes_of self.old)) }
    {
        match place {
            None => Ok(()),
            Some(place) => self.note_place(kind, place, time),
        }
    }

    fn note_place(&mut self, kind: Kind, place: SimplePlace, time: u32) -> Result<(), AllocError>
        ensures { OnOk result (notes_of self.new ≡ with_place kind (Some (place_from place)) time (notes_of self.old)) }
    {
        let kind = self.stronger(kind, place);
        match place {
            SimplePlace::InVariable(variable, number) => {
                self.in_variables
                    .insert((variable, number), PassedCheck { kind, made: time })?;
                Ok(())
            }
            SimplePlace::InGlobal(global, number) => {
                self.in_globals
                    .insert((global, number), PassedCheck { kind, made: time })?;
                Ok(())
            }
        }
    }

    fn stronger(&self, kind: Kind, place: SimplePlace) -> Kind
        ensures { result ≡ stronger (passed_at (notes_of self.now) Write (place_from place)) kind }
    {
        if self.has_passed(Kind::Write, place) {
            Kind::Write
        } else {
            kind
        }
    }

    // Reference registers were written.
    fn note_written(&mut self, registers: Written, time: u32) -> Result<(), AllocError>
        ensures { OnOk result (notes_of self.new ≡ with_written (is_written registers) time (notes_of self.old)) }
    {
        match registers {
            Written::None => Ok(()),
            Written::One(register) => self.note_one(register, time),
            Written::Two(register, other) => {
                self.note_one(register, time)?;
                self.note_one(other, time)
            }
        }
    }

    fn note_one(&mut self, register: u32, time: u32) -> Result<(), AllocError>
        ensures { OnOk result (notes_of self.new ≡ with_written (λ k. k == register) time (notes_of self.old)) }
    {
        self.written.insert(register, time)?;
        Ok(())
    }

    // A copy of a variable's reference was made.
    fn note_copy(&mut self, copying: Option<Copying>, time: u32) -> Result<(), AllocError>
        ensures { OnOk result (notes_of self.new ≡ with_copy copying time (notes_of self.old)) }
    {
        match copying {
            None => Ok(()),
            Some(copying) => {
                let copied = Copied {
                    variable: copying.variable,
                    made: time,
                };
                self.copies.insert(copying.register, copied)?;
                Ok(())
            }
        }
    }

    // An integer register was written.
    fn note_number(
        &mut self,
        register: Option<u32>,
        number: Option<u64>,
        time: u32,
    ) -> Result<(), AllocError>
        ensures { OnOk result (notes_of self.new ≡ with_number (is_one register) number time (notes_of self.old)) }
    {
        match register {
            None => Ok(()),
            Some(register) => {
                self.numbers
                    .insert(register, KnownNumber { number, made: time })?;
                Ok(())
            }
        }
    }
}

// Whether a check that was noted counts for this kind, where its register was written last then.
fn passed_since(noted: Option<&PassedCheck>, floor: u32, last: u32, kind: Kind) -> bool
    ensures { result ≡ passed_by floor last kind (option_copied noted.entry) }
{
    match noted {
        None => false,
        Some(passed) => floor < passed.made && (last < passed.made && counts(passed.kind, kind)),
    }
}

// Whether a check of the first kind counts for one of the second.
fn counts(by: Kind, kind: Kind) -> bool
    ensures { result ≡ counts by kind }
{
    match by {
        Kind::Write => true,
        Kind::Read => match kind {
            Kind::Read => true,
            Kind::Write => false,
        },
    }
}

fn in_variable(variable: Option<u32>, number: Option<u64>) -> Option<SimplePlace>
    ensures { result ≡ noted_place (variable_place variable number) }
{
    match variable {
        None => None,
        Some(variable) => match number {
            None => None,
            Some(number) => Some(SimplePlace::InVariable(variable, number)),
        },
    }
}

fn in_global(global: u32, number: Option<u64>) -> Option<SimplePlace>
    ensures { result ≡ noted_place (global_place global number) }
{
    match number {
        None => None,
        Some(number) => Some(SimplePlace::InGlobal(global, number)),
    }
}

// A constant that may be an index.
fn constant(value: i64) -> Option<u64>
    ensures { result ≡ of_constant value }
{
    if value < 0 {
        return None;
    }
    let number = value as u64;
    if number < FEW { Some(number) } else { None }
}

// The number of a field of an element.
fn element(number: Option<u64>, cells: u32, field: u32) -> Option<u64>
    ensures { result ≡ with_element cells field number }
{
    match number {
        None => None,
        Some(number) => {
            if number < FEW {
                Some(number * u64::from(cells) + u64::from(field))
            } else {
                None
            }
        }
    }
}

/// No object has this many elements.
const FEW: u64 = 4_294_967_296;
