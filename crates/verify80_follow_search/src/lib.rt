//! Tables of states that follow a program with its whole stack, searched for. Whoever uses one has to see that it follows.
//!
//! Proved: nothing rests on it.
//!
//! States are followed from the start. Those at one address with the same marked bytes are joined; marked is what a call pushes, what is made
//! of marked bytes, and in one trial after the other, addresses that LXI names and the bytes that ANA or a comparison leaves of A.
//!
//! | Item | What it is |
//! |---|---|
//! | [`search`], [`search_handler`], [`Budget`] | searches for a table, by as many states and ways as there may be |
//! | [`list_together`] | the stores and jumps that tables leave open |
//! | [`places_anew`], [`written_ranges`] | where handlers begin the program anew, and the data that they write |
//! | [`SearchResult`] | a table, or where the search stopped |
//! | [`Stop`], [`StopReason`] | the place that isn't known, why, and a way there |
#![tactic(auto)]

mod arriving;
mod budget;
mod growing;
mod handlers;
mod marks;
mod nodes;
mod opening;
mod program;
mod searching;
mod start;
mod stepping;
mod stop;
mod trial;

pub use budget::Budget;
pub use handlers::{places_anew, written_ranges};
pub use opening::list_together;
pub use searching::{search, search_handler};
pub use stop::{SearchResult, Stop, StopReason};
