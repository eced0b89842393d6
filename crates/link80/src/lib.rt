//! LINK: modules joined into one. What the linked module is, and why modules can't be linked, is defined in `specs/`; the law
//! that linking keeps every byte is proved over these definitions.
//!
//! Proved: exactly the linked module, or the first fault; it keeps every byte.
//!
//! | Item | What it is |
//! |---|---|
//! | [`link`], [`Linked`] | modules, and what they need of libraries, linked into one |
//! | [`select`] | which modules a link takes from its libraries |
//! | [`Chosen`] | the place of a module in libraries (`link80_select`) |
//! | [`LinkFault`] | why modules can't be linked |
//! | [`laws`] | the linked module defines the bytes that its modules define |
#![tactic(auto)]

mod commons;
mod contents;
mod declared;
mod fault;
mod high_bytes;
pub mod laws;
mod linking;
mod mains;
mod modules;
mod name_table;
mod reference;
mod segments;
mod selecting;
mod starts;
mod symbol_tables;

pub use fault::LinkFault;
pub use link80_select::Chosen;
pub use linking::{Linked, link};
pub use selecting::select;
