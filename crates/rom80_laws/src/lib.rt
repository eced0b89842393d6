//! A law of modules that are found in a dump, and no calls.
//!
//! Proved: found modules, linked and located, have the dump's bytes.
//!
//! | Item | What it is |
//! |---|---|
//! | [`found_modules_are_rebuilt`] | an image of modules that are found in a dump has the dump's bytes |
#![tactic(auto)]

mod found;

pub use found::found_modules_are_rebuilt;
