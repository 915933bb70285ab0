//! What is asked of a source: a function, its argument, the fuel and the answers, in words with a blank between.
//!
//! A reference is written as the number of its object, a colon and the number of its elements.

use sharc_ctype::typed::Typed;
use std::alloc::{AllocError, Global};

#[derive(Drop)]
pub(crate) struct Question {
    pub function: u32,
    pub argument: i64,
    pub fuel: u64,
    pub answers: Vec<i64>,
}

fn number_of(word: &str) -> i64 {
    word.parse::<i64>().unwrap_or(0)
}

/// A value or a reference.
fn value_of(word: &str) -> i64 {
    match word.split_once(":") {
        None => number_of(word),
        Some((object, elements)) => {
            number_of(elements)
                .wrapping_mul(4_294_967_296)
                .wrapping_add(number_of(object))
        }
    }
}

/// The number of the function with this name; that of none where there is no such function.
pub(crate) fn function_named(t: &Typed, name: &str) -> u32 {
    for number in 0..1000 {
        match t.function_at(number) {
            None => return number,
            Some(function) => {
                if function.name.text.as_slice() == name.as_bytes() {
                    return number;
                }
            }
        }
    }
    1000
}

/// Reads the words.
pub(crate) fn question_of(alloc: Global, t: &Typed, text: &str) -> Result<Question, AllocError> {
    let mut words = text.split(" ");
    let function = function_named(t, words.next().unwrap_or(""));
    let argument = value_of(words.next().unwrap_or(""));
    let fuel = number_of(words.next().unwrap_or("")).unsigned_abs();
    let mut answers = Vec::new(alloc);
    for word in words {
        answers.push(value_of(word))?;
    }
    Ok(Question {
        function,
        argument,
        fuel,
        answers,
    })
}
