//! What LINK prints: parts of a linked module, why modules are taken, and where the cause of a fault is.
//!
//! Proved: each part once; BY needs the name, and leads to a root; the causes are those of the fault.
//!
//! | Item | What it is |
//! |---|---|
//! | [`append_parts`] | a line for each part of a module |
//! | [`append_unresolved`] | a line for each module that needs an unresolved name |
//! | [`linked_modules`] | the modules that were linked: the roots, and those that were taken |
//! | [`append_cause`] | the lines of a fault |
//! | [`LinkSources`] | what is linked, and the files that it comes from |
//! | [`append_reasons`] | a line for each module that was taken |
#![tactic(auto)]

mod causes;
mod laid;
mod lines;
mod modules;
mod named;
mod needs;
mod parts;
mod reasons;
mod shown;
mod unresolved;
mod words;

pub use causes::{LinkSources, append_cause};
pub use modules::linked_modules;
pub use parts::append_parts;
pub use reasons::append_reasons;
pub use unresolved::append_unresolved;
