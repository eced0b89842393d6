//! A table of states that fits a program, which all runs of the program keep to.

mod calls;
mod code;
mod empty_table;
mod fitting;
mod laws;
mod marks;
mod reached;

pub use calls::CallReturns;
pub use code::code_bytes;
pub use empty_table::anything;
pub use fitting::{APART, Placed, StateTable};
pub use laws::fitting_states_hold;
pub use marks::{entry_at, is_marked};
pub use reached::targets_at;
