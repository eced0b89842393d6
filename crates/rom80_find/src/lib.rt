//! Modules of object files in dumps of PROMs, and what is printed of them.
//!
//! Proved: exactly the places at which bases exist; a base or word exactly if it is the only one.
//!
//! | Item | What it is |
//! |---|---|
//! | [`Dump`] | a dump: the bytes of the addresses from one on |
//! | [`append_modules`] | the lines of the modules of an object file, and whether none is missing |
//! | [`append_members`] | the lines of the modules of a library that are found, and how many aren't |
//! | [`link_of_found_modules_has_the_bytes`] | that a link of modules that lie in a dump has the dump's bytes: a law |
//!
//! | Part | What it does |
//! |---|---|
//! | `indexed_dump` | a dump with what is looked up in it for each module |
//! | `sieve` | compares a module's bytes outside fixups at 64 addresses at once |
//! | `fitting`, `values` | finds a word for each target at 4,096 addresses at once, and compares the bytes in fixups with it |
//! | `listing`, `words` | find the addresses at which a pattern lies in a dump, and the words of its targets there |
//! | `found` | says the same of modules, by LOCATE's own definition of their bytes |
//! | `lines` | prints it |
#![tactic(auto)]

mod bytes;
mod candidates;
mod dump;
mod fitting;
mod fixups;
mod found;
mod indexed_dump;
mod lines;
mod listing;
mod marks;
mod places;
mod sieve;
mod solving;
mod values;
mod words;

pub use dump::Dump;
pub use found::link_of_found_modules_has_the_bytes;
pub use lines::{append_members, append_modules};
