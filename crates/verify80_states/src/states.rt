//! What is known of a machine at an instruction, and what becomes of that.

mod cells;
mod conditions;
mod following;
mod known;
mod laws;
mod memory_after;
mod pairs;
mod state;
mod variables;
mod words;

pub use cells::{Cell, Cells};
pub use conditions::given;
pub use following::{StackTop, index_words, known_after, pushed_pair, state_after};
pub use known::Known;
pub use laws::known_is_followed;
pub(crate) use memory_after::is_steady;
pub use memory_after::{StoredByte, stored_bytes};
pub use pairs::PairSpan;
pub use state::State;
pub use variables::{Variable, is_bit};
pub use words::Words;
