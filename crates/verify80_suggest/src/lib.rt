//! Advice on the regions of an image of which little is known but its bytes.
//!
//! Proved: exactly the code that the program may reach, and its tables; free stack; named data; `FetchOutside` only if a byte is lacking.
//!
//! | Item | What it is |
//! |---|---|
//! | [`suggest_regions`], [`base_regions`] | gives an image the regions that its bytes suggest; all its bytes as code |
//! | [`Known`], [`KnownFault`], [`find_fault`] | what is known beforehand; why it can't be |
//! | [`sort_cases`] | sorts cases by address |
//! | [`Advice`], [`Setter`] | which LXI SP they go by, and remarks on PCHLs |
//! | [`laws`] | laws of suggested regions, as contracts |
#![tactic(auto)]

mod arranging;
mod bytes;
mod keyed;
mod known;
pub mod laws;
mod names;
mod ordering;
mod ranges;
mod setters;
mod stack;
mod suggesting;
mod survey;
mod tables;
mod with_cases;

pub use known::{Known, KnownFault, find_fault};
pub use ordering::sort_cases;
pub use setters::Setter;
pub use suggesting::{Advice, base_regions, suggest_regions};
