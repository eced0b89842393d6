//! States of a machine, by spans, and tables of them that fit a program.
//!
//! Proved: what holds of a state before an instruction holds of what the instruction makes of it; each run keeps to a table that fits.
//!
//! | Item | What it is |
//! |---|---|
//! | [`Span`], [`ByteSpan`] | the words, and the bytes, from a first to a last one |
//! | [`Known`], [`PairSpan`], [`Cells`], [`Cell`] | what registers, flags and some bytes of memory may be |
//! | [`State`], [`Words`] | the same, and what the words on top of the stack may be |
//! | [`Variable`], [`is_bit`] | a byte of memory that stays inside a span once it is there, and whether a state says that it is |
//! | [`known_after`], [`StackTop`] | what they may be after an instruction, given what is known of the stack at SP |
//! | [`state_after`] | the same of a state |
//! | [`stored_bytes`], [`StoredByte`] | the bytes that an instruction stores |
//! | [`given`] | what a condition says of them |
//! | [`Placed`], [`StateTable`] | a state at an address; a table of these, with what it says of returns and variables, and whether it fits an image |
//! | [`APART`] | the first hint of states that tell A's bytes apart |
//! | [`CallReturns`] | whether the procedure at each address may still return, and where to |
//! | [`mark_quiet`], [`is_quiet`], [`first_outside_data`] | the quiet addresses of data: those of some ranges |
//! | [`code_bytes`] | the bytes of an image's code, by address |
//! | [`anything`] | a table that fits each image |
//! | [`known_is_followed`] | what is known holds after each instruction, whatever follows the stack, as a contract |
//! | [`fitting_states_hold`] | runs keep to a table that fits, as a contract |
//! | [`bytes_stay_bytes`] | a machine's registers and memory hold bytes, as a contract |
#![tactic(auto)]

mod bytes;
mod fitting;
mod quiet;
mod states;

pub use bytes::bytes_stay_bytes;
pub use fitting::{
    APART, CallReturns, Placed, StateTable, anything, code_bytes, entry_at, fitting_states_hold,
    is_marked, targets_at,
};
pub use quiet::{first_outside_data, is_quiet, mark_quiet};
pub use states::{
    Cell, Cells, Known, PairSpan, StackTop, State, StoredByte, Variable, Words, given, index_words,
    is_bit, known_after, known_is_followed, pushed_pair, state_after, stored_bytes,
};
pub use verify80_spans::{ByteSpan, Span};
