//! The page of an image: what is known of it, on one page of HTML.
//!
//! Proved: what the page shows, in order: the verdict, the memory and the sums; of a program that is accepted also the procedures, their
//! calls, the stores and the names, of another one the calls that are reached and the names.
//!
//! | Item | What it is |
//! |---|---|
//! | [`program_page`] | the page of a program that the verifier accepts |
//! | [`refused_page`] | the page of an image that it refuses |
//! | [`Findings`], [`RefusedFindings`] | what is known of a program, or of such an image |
#![tactic(auto)]

mod drawing;
mod layout;
mod memory;
mod names;
mod page;
mod part;
mod stack;

pub use page::{Findings, RefusedFindings, program_page, refused_page};
