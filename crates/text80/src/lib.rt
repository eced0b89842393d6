//! Texts that every stage prints and reads: upper case hexadecimal digits.
//!
//! Proved: the digits of each byte and word, both ways.
//!
//! | Item | What it is |
//! |---|---|
//! | [`byte_digits`], [`append_digits`], [`word_digits`] | the digits of a byte, of bytes, of a word |
//! | [`word_of_digits`] | the word of four digits |
#![tactic(auto)]

mod digits;

pub use digits::{append_digits, byte_digits, digit, word_digits, word_of_digits};
