//! The stack that a program uses: the greatest sum over its chains of calls.
//!
//! Proved: the greatest sum, or a call that leads back to its procedure.
//!
//! | Item | What it is |
//! |---|---|
//! | [`find_bounds`] | the most bytes of stack that each procedure needs, or a call that leads back to its own procedure |
//! | [`Depth`], [`CallSite`] | the depths of a program's frames, and its calls |
//! | [`Bounds`], [`BoundsFault`] | the bytes of each procedure, and why there are none |
#![tactic(auto)]

mod bounds;
mod cycles;
mod fault;
mod graph;
mod sums;
mod worklist;

pub use bounds::{Bounds, find_bounds};
pub use fault::BoundsFault;
pub use graph::{CallSite, Depth};
