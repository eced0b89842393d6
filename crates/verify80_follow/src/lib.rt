//! Programs that are followed by what is known of each byte of the stack: where they return to, and how deep the stack gets.
//!
//! Proved: a program that a table of states follows keeps its promise on every board whose devices leave quiet memory alone; an interrupted one, if its
//! handlers give back all but what devices may write.
//!
//! | Item | What it is |
//! |---|---|
//! | [`FollowedState`] | what is known of a machine at an address, with its stack: a table is a list of these |
//! | [`Way`] | where a return, or a PCHL without declared targets, goes beside the addresses behind calls |
//! | [`Listed`] | the stores and jumps by register pairs that a table leaves open |
//! | [`Beside`], [`HeldPair`], [`beside_then`] | what a handler still has of what it was entered with, and whether interrupts may come |
//! | [`StackBounds`], [`stack_then`], [`StackAfter`], [`top_of_stack`], [`return_address`] | what becomes of the stack, and what is known of it at SP |
//! | [`Table`], [`RunKind`], [`follows`] | whether a table follows an image |
//! | [`Summary`], [`called`], [`is_last`] | tables that follow procedures, by which calls are stepped over |
//! | [`Handler`], [`LiveRun`], [`follows_live`], [`gives_back`], [`uses_pointer`] | whether handlers give all back, wherever the stack is when they are entered, or begin the program anew |
//! | [`places_of`], [`followed_instructions`], [`is_listed_in_order`] | the instructions to which a followed program may come, and whether what is left open is among them |
//! | [`followed_stores`], [`bounds_text`], [`live_text`], [`ways_text`] | what is printed of a program that is followed |
//! | [`followed_programs_keep_the_promise`], [`live_machines_keep_the_promise`] | the promises, as contracts |
#![tactic(auto)]

mod calls;
mod fit;
mod followed;
mod handling;
mod held;
mod interrupts;
mod laws;
mod lines;
mod reaching;
mod stack;
mod writes;

pub use calls::{Summary, called, is_last};
pub use fit::{Table, follows};
pub use followed::{FollowedState, Listed, RunKind, Way};
pub use handling::{Handler, LiveRun, follows_live, gives_back, uses_pointer};
pub use held::{Beside, HeldPair, beside_then};
pub use interrupts::enabled_after;
pub use laws::{followed_programs_keep_the_promise, live_machines_keep_the_promise};
pub use lines::{bounds_text, followed_stores, live_text, ways_text};
pub use reaching::{followed_instructions, is_listed_in_order, places_of};
pub use stack::{StackAfter, StackBounds, return_address, stack_then, top_of_stack};
