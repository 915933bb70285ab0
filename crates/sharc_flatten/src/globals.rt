// The globals of a program: where they lie, and what their cells hold at first.

ghost use Rattle.std.specs.Prelude.{◌≡◌, ◌+◌, ◌*◌, ◌/◌, ◌∷◌, ◌++◌, neg_ℤ, replicate, take, IfOk, OnOk};
ghost use Rattle.sharc_code.specs.Arithmetic.{word_of};
ghost use Rattle.sharc_ctype.specs.Resolved.{globals_in};
ghost use Rattle.sharc_meaning.specs.{Reference.constant_value, Store.form_value};
ghost use Rattle.sharc_flat.specs.Tables.{cells_in, globals_of, all_granules, all_first_words};

use crate::lookups::{element_cells, elements_of_form, small};
use crate::numbers::plus;
use crate::source::PlacedProgram;
use sharc_code::GlobalCells;
use sharc_names::kind::declared_kind;
use sharc_tree::tree::{Constant, GlobalDefinition, GlobalForm};
use std::alloc::{AllocError, Global};

/// The globals of a program: where each lies, how many granules they have, and what the cells of these hold at first.
#[derive(Drop)]
pub struct Globals {
    pub list: Vec<GlobalCells>,
    pub granules: u32,
    pub initial: Vec<u64>,
}

/// The granules of this many cells, two of which are one granule.
fn granules_of(cells: u32) -> u32
    ensures { result ≡ (cells + 1) / 2 }
{
    cells / 2 + cells % 2
}

fn add_zeros(count: u64, words: &mut Vec<u64>) -> Result<(), AllocError>
    ensures { OnOk result (words.new.items ≡ words.old.items ++ replicate count 0) }
{
    let mut left = count;
    while left > 0 {
        words.push(0)?;
        left -= 1;
    }
    Ok(())
}

/// The words of this many granules, all 0 but the first.
fn add_words(granules: u32, first: u64, words: &mut Vec<u64>) -> Result<(), AllocError>
    ensures { OnOk result (words.new.items
        ≡ words.old.items ++ take (2 * granules) (first ∷ replicate (2 * granules) 0)) }
{
    if granules == 0 {
        return Ok(());
    }
    words.push(first)?;
    add_zeros(2 * u64::from(granules) - 1, words)
}

impl Globals {
    ghost use Rattle.std.specs.Prelude.{◌≡◌, ◌+◌, ◌*◌, ◌/◌, [], ◌∷◌, ◌++◌, replicate, take, OnOk};

    /// One global more, with this many cells, of which the first holds this word.
    fn add(&mut self, cells: u32, first: u64) -> Result<(), AllocError>
        ensures list { OnOk result (self.new.list.items
            ≡ self.old.list.items ++ record { granule = self.old.granules + 1; cells = cells } ∷ []) }
        ensures granules { OnOk result (self.new.granules ≡ self.old.granules + (cells + 1) / 2) }
        ensures initial { OnOk result (self.new.initial.items ≡ self.old.initial.items
            ++ take (2 * ((cells + 1) / 2)) (first ∷ replicate (2 * ((cells + 1) / 2)) 0)) }
    {
        let granule = plus(self.granules, 1)?;
        let granules = granules_of(cells);
        self.list.push(GlobalCells { granule, cells })?;
        self.granules = plus(self.granules, granules)?;
        add_words(granules, first, &mut self.initial)
    }
}

/// The cells of a global.
fn cells_in(source: &PlacedProgram<'_>, global: &GlobalDefinition) -> Result<u32, AllocError>
    ensures { IfOk result (λ n. n ≡ cells_in source.now.m.now.typed global.now) }
{
    let of_element = element_cells(source, declared_kind(&global.declaration.written));
    match elements_of_form(&global.form).checked_mul(u64::from(of_element)) {
        None => Err(AllocError),
        Some(cells) => match u32::try_from(cells) {
            Ok(n) => Ok(n),
            Err(_) => Err(AllocError),
        },
    }
}

fn constant_value(constant: Constant) -> i64
    ensures { result ≡ constant_value constant }
{
    match constant {
        Constant::Number(number) => number.value,
        Constant::Character(byte) => byte as i64,
        Constant::Null => 0,
    }
}

/// The value with the other sign, as a word.
fn negative_word(value: i64) -> u64
    ensures { result ≡ word_of (neg_ℤ value) }
{
    value.cast_unsigned().wrapping_neg()
}

/// What the first cell of a global of this form holds at first.
fn first_word(form: &GlobalForm) -> u64
    ensures { result ≡ word_of (form_value form.now) }
{
    match form {
        GlobalForm::Plain => 0,
        GlobalForm::Array(_, _) => 0,
        GlobalForm::Initial(_, minus, constant) => {
            let value = constant_value(*constant);
            if *minus {
                negative_word(value)
            } else {
                value.cast_unsigned()
            }
        }
    }
}

/// Where the globals lie, one after the other from granule 1 on, and what their cells hold at first.
pub fn globals_of(alloc: Global, source: &PlacedProgram<'_>) -> Result<Globals, AllocError>
    ensures list { IfOk result (λ all. all.list.items ≡ globals_of source.now.m.now.typed) }
    ensures granules { IfOk result (λ all. all.granules
        ≡ all_granules source.now.m.now.typed (globals_in source.now.m.now.typed.program.items)) }
    ensures initial { IfOk result (λ all. all.initial.items
        ≡ all_first_words source.now.m.now.typed (globals_in source.now.m.now.typed.program.items)) }
{
    let t = source.m.typed();
    let mut all = Globals {
        list: Vec::new(alloc),
        granules: 0,
        initial: Vec::new(alloc),
    };
    for number in 0..small(t.global_count())? {
        match t.global_at(number) {
            None => return Err(AllocError),
            Some(global) => all.add(cells_in(source, global)?, first_word(&global.form))?,
        }
    }
    Ok(all)
}
