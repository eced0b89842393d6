//! Tables of states, searched for. Whoever uses one has to see that it fits.
//!
//! Proved: nothing rests on it.
//!
//! States are followed from the start, several at an address: a loop with constant bounds is walked through. A state says only what a later
//! store, jump or condition may depend on (`verify80_needs`). Where an address has too many states, they are no longer distinguished by
//! those parts that distinguish the most of them: such states are joined, and joined spans grow to landmarks before they grow to any word.
//! How many are too many, each procedure decides for itself, by the ways that were followed in it.
//!
//! | Item | What it is |
//! |---|---|
//! | [`Search`] | proposes one table after the other, within the ways that are left to it |
//! | [`TableKind`], [`TableMemory`], [`TABLE_KINDS`] | which table is proposed: whether calls are distinguished, and what is named of memory |
//! | [`SearchNotes`] | where states are joined, since there are too many, and which conditions none decides |
//! | [`Proposal`] | a table of states, and its hints |
//! | [`ReachedProgram`], [`mark`] | the program that they are proposed for; marks an address |
//! | [`Groups`] | which of its procedures return |
#![tactic(auto)]

mod groups;
mod joining;
mod nodes;
mod proposing;
mod search;

pub use groups::Groups;
pub use proposing::Proposal;
pub use search::{Search, SearchNotes, TABLE_KINDS, TableKind, TableMemory};
pub use verify80_needs::{ReachedProgram, mark};
