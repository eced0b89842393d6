//! The text of a run's inputs, from words such as `02=3*2A,00`.
//!
//! | Item | What it is |
//! |---|---|
//! | [`WordInputs`] | the bytes that words name, and the text that spells them |
//! | [`Repeated`] | a byte that waits at a port, a given number of times |
//! | [`WordFault`] | a word is of another form |
//! | [`LengthFault`] | the text has more bytes than a loader reads |

mod fault;
mod item;
mod repeated;
mod word;
mod word_inputs;

pub use fault::{LengthFault, WordFault};
pub use repeated::Repeated;
pub use word_inputs::WordInputs;
