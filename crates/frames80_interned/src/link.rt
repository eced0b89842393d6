//! A word on top of a stack.

use frames80::Word;

/// The top word of a stack, with the number of the stack beneath it.
#[derive(Clone, Copy, PartialEq, Eq, Hash)]
pub(crate) struct Link {
    /// The number of the stack beneath the word.
    pub(crate) below: u32,
    /// The word itself.
    pub(crate) word: Word,
    /// How many words the stack has, this one included.
    pub(crate) height: u32,
    /// The number of a stack further down, a skip pointer: so few steps lead down by many words.
    pub(crate) skip: u32,
}
