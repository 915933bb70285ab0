//! What the machine keeps of the heap: blocks of granules, their shadow words, counts of references.
//!
//! Blocks of granules, and how one is taken for a new object.
//!
//! `block` is the size of a block. A `NewState` takes one block, turn by turn: from the thread's own list of freed
//! blocks, or else from the top of the arena. `specs/State.antt` says what a New is and how it goes on when it is given
//! what its step found, by the stages of `specs/Stages.antt`. `specs/Asks.antt` says what it asks for after a whole
//! list of results, and `specs/Handed.antt` which granules a history hands out. `new_laws` ties these together. No call
//! takes memory.
//!
//! Shadow words, which record who accesses a granule, and the tables of a thread's own accesses.
//!
//! `specs/ShadowWord.antt` reads a shadow word as the set of the threads whose bit is set, the written bit and the
//! epoch, and says when an access conflicts and what a clear and a withdrawal leave. `specs/Accesses.antt` says what a
//! table has of a granule, and in which order granules were noted first. `specs/Functions.antt` has each of these as a
//! function, which is what a call computes; `shadow_laws` ties the two together. Only `AccessTable::new` takes memory.
//!
//! The steps of an object's count word: how many references to the object there are.
//!
//! Each function names one step of the word, or tests what such a step found. `specs/Count.antt` says what they are,
//! and `count_laws` what they make of a count. No call takes memory.
#![tactic(auto)]

mod access_table;
mod arguments;
mod blocks;
pub mod count;
mod laws;
mod new_state;
mod shadow_word;
mod stage;

pub use access_table::{AccessTable, GranuleNotes, Note};
pub use blocks::block;
pub use count::{lower, raise, sole, test};
pub use laws::{count_laws, new_laws, shadow_laws};
pub use new_state::NewState;
pub use shadow_word::{
    Kind, bits, cleared, conflicts, epoch, first, is_written, stands, withdrawn,
};
pub use stage::NewTurn;
