//! A run step by step, and code by what is reached, with counts.
//!
//! Proved: each line is a world of the run; its memory; its counts; instructions at exactly the addresses that walks reach.
//!
//! | Item | What it is |
//! |---|---|
//! | [`write_lines`], [`Limits`], [`Span`], [`LineForm`], [`TraceFault`] | the lines of some of a run's instructions, written as they come |
//! | [`append_line`], [`append_front`] | the line of one instruction, and what comes before it |
//! | [`finish`], [`Finished`] | a run to its end, with what it leaves |
//! | [`count_steps`], [`Counts`] | how often a run begins the instruction at each address |
//! | [`count_at`] | counts a step at its address |
//! | [`memory_bytes`] | the bytes of a memory |
//! | [`laws`] | a run goes on from where it was stopped, as a contract |
//! | [`list_reached`], [`list_instructions`], [`list_marked`] | the lines alone; those of any table of instructions; and with marks |
//! | [`cover`], [`cover_instructions`] | the lines with how often each instruction was begun, and the sums; those of any table |
#![tactic(auto)]

mod counting;
mod covering;
mod fault;
mod finishing;
pub mod laws;
mod limits;
mod line;
mod memory;
mod stepping;
mod tracing;

pub use counting::{Counts, count_at, count_steps};
pub use covering::{cover, cover_instructions, list_instructions, list_marked, list_reached};
pub use fault::TraceFault;
pub use finishing::{Finished, finish};
pub use limits::{Limits, Span};
pub use line::{LineForm, append_front, append_line};
pub use memory::memory_bytes;
pub use tracing::write_lines;
