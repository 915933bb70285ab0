//! A port that is given the steps that will be asked for, and what each finds.

ghost use Rattle.std.specs.Prelude.{◌≡◌};

use sharc_word::{Port, WordOp, WordStep};

/// A step of this word by this operation, and the word that it finds.
pub type Ask = (u32, WordOp, u64);

/// The words of the three cells in which a thread finds its first registers and leaves its last ones.
const FIRST_REGISTER: u32 = 174;

/// What a thread is to ask for in its turns, and how far it has come.
#[derive(Drop)]
pub struct Script<'a> {
    asks: &'a [Ask],
    /// How many of these steps were asked for.
    pub at: usize,
    /// The first step that was asked for and is none of them.
    pub other: Option<WordStep>,
    /// The cells of the registers: an integer, and two references.
    pub registers: [u64; 3],
}

impl<'a> Script<'a> {
    /// The script of these steps, before the first.
    pub fn of(asks: &'a [Ask], registers: [u64; 3]) -> Script<'a> {
        Script {
            asks,
            at: 0,
            other: None,
            registers,
        }
    }

    // What the next step finds, if it is the expected one.
    fn found(&mut self, step: WordStep) -> u64 {
        if let Some((word, op, found)) = self.asks.get(self.at)
            && *word == step.word
            && *op == step.op
        {
            self.at = self.at.saturating_add(1);
            return *found;
        }
        self.other = self.other.or(Some(step));
        0
    }
}

impl<'a> Port for Script<'a> {
    ghost use Rattle.std.specs.Prelude.{[]};
    ghost use Rattle.sharc_word.specs.Place.{place_of_words};

    ghost count = { λ port. 322 };

    ghost name = { λ port. [] };

    ghost serves = { λ port thread. Unit {0} };

    ghost place = { λ port. place_of_words [] };

    ghost leads = { λ from event until. Unit {0} };

    ghost serves_some = { λ port. (0, tt) };

    fn step(&mut self, step: WordStep) -> u64 {
        let place = step.word.wrapping_sub(FIRST_REGISTER) as usize;
        if place < 3 {
            let found = self.registers[place];
            if let WordOp::Swap(new) = step.op {
                self.registers[place] = new;
            }
            found
        } else {
            self.found(step)
        }
    }
}
