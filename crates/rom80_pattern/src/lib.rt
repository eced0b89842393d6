//! The code of a module as a pattern: each byte that its contents define in CODE, as a half of a target's value, which isn't known yet,
//! plus an addend.
//!
//! Proved: the bytes are those of LOCATE's own definition of contents, the later one over an earlier one.
//!
//! | Item | What it is |
//! |---|---|
//! | [`CodeByte`], [`Half`] | a byte of a module's code: a half of a target's value plus an addend |
//! | [`code_bytes`], [`code_length`] | the bytes that a module's contents define in CODE; its length |
//! | [`Resolved`] | a target plus an addend, as which a fixup's target is resolved |
//! | [`number_of`], [`target_of`] | the number of a target, by which tables of values are indexed |
//! | [`table`] | tables whose entries are all one value at first |
#![tactic(auto)]

mod code_byte;
mod names;
mod number;
mod reading;
mod resolving;
pub mod table;

pub use code_byte::{CodeByte, Half};
pub use number::{number_of, target_of};
pub use reading::{code_bytes, code_length};
pub use resolving::Resolved;
