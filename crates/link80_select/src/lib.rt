//! Which modules of its libraries a link takes: those that its roots need, and those that these need in turn. The set and its
//! order are defined in `specs/Selected.antt`.
//!
//! Proved: the least set that is needed, in order.
//!
//! | Item | What it is |
//! |---|---|
//! | [`select`] | which modules a link takes from its libraries |
//! | [`Chosen`] | the place of a module in libraries |
//! | [`laws`] | what a link takes is determined |
#![tactic(auto)]

mod chosen;
pub mod laws;
mod row;
mod selecting;

pub use chosen::Chosen;
pub use selecting::select;
