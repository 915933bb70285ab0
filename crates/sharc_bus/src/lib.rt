//! A bus: words that several ports share, each step one atomic step, and all the steps one legal history.
//!
//! `Bus::open` lays out the words. The bus is used in rounds: `Bus::begin` gives the ports' seats, `BusPort::of` makes
//! the port of a seat, and `Bus::end` takes all seats back. `specs/Bus.antt` says what holds then: the seats' lists of
//! events are the parts of one legal history from the words at the beginning of the round, which leaves the words at
//! its end (`OneHistory`). Between two rounds `Bus::word` answers a word, and no word is copied; `Bus::close` gives the
//! last words. A caller needs that file alone: `specs/Rule.antt` and `specs/Table.antt` are for the proof. A step takes
//! no memory and waits for nobody.
#![tactic(auto)]

mod bus;
mod bus_port;
mod laws;
mod parts;
mod rest;
mod rule;
mod seat;
mod step;
#[cfg(test)]
mod tests;

pub use bus::Bus;
pub use bus_port::BusPort;
pub use laws::name_laws;
pub use rest::{BusRest, BusRound};
pub use rule::Opening;
pub use seat::BusSeat;
