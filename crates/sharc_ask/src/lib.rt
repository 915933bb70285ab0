//! Computes what a thread asks for, and its steps on its way, as the meaning defines them.
//!
//! Steps of a thread on its way, each as sharc_meaning defines it.
//!
//! `state` has what a thread is on its way and its events, `arithmetic` what operators make of integers, `cells`
//! objects and their cells, `places` what is done at a place, `locking` mutexes, and `waiting` condition variables. A
//! contract is `Does` or `DoesAs` of specs/View: from every state of the definition that looks as the code's does, the
//! run of the definition comes to what the code answers, and leaves a state that looks as the code's does then.
//!
//! What a thread of a function asks for, computed.
//!
//! A crate above calls `thread::ask`: its contract is `Tells` of specs/View over the definition `asks` of
//! sharc_meaning. It is the plain program of that definition, and slow: nothing is looked up in tables. The walk goes
//! in steps: a task is begun (`expressions`, `statements`) and comes to a plan, what goes on with its value is in
//! `rests`, and `walk` runs plans. specs/Plans says what each means.
#![tactic(auto)]

pub mod arithmetic;
pub mod asked;
mod calls;
pub mod cells;
mod endings;
mod expressions;
mod flows;
mod frames;
pub mod locking;
mod parts;
pub mod places;
mod plan;
mod plans;
mod rests;
mod stack;
pub mod state;
mod statements;
pub mod thread;
mod values;
pub mod waiting;
mod walk;
