//! The bytes of a read-only memory: an image's bytes over a range, for a PROM programmer, the image of bytes that were read
//! from some, and where an image and such bytes differ.
//!
//! Proved: the image's byte or the fill; dumps taken out again; where two differ.
//!
//! | Item | What it is |
//! |---|---|
//! | [`bytes_over`] | the bytes of an image's memory over a range |
//! | [`sum_text`] | the line with the sum of bytes |
//! | [`Dumps`] | dumps of read-only memories, each at its address, and the image of them |
//! | [`compare`], [`Comparison`], [`Difference`] | where an image and a dump differ |
//! | [`byte_ranges`] | where an image has bytes |
//! | [`no_regions`] | the regions of an image of dumps, which have no address |
//! | [`DumpKind`] | what a file seems to be that was to be a dump, and has no bytes as they are |
//! | [`RomFault`] | why there are none |
//! | [`laws`] | what holds of the definitions alone |
#![tactic(auto)]

mod comparing;
mod dumps;
mod extracting;
mod fault;
pub mod laws;
mod memory;
mod placing;
mod ranges;
mod seeming;

pub use comparing::{Comparison, Difference, compare};
pub use dumps::Dumps;
pub use extracting::{bytes_over, sum_text};
pub use fault::RomFault;
pub use placing::no_regions;
pub use ranges::byte_ranges;
pub use seeming::DumpKind;
