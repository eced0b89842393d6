//! A located program: its bytes in the 8080's memory, the regions that it may fetch from, store to and push on, and the text of
//! its regions.
//!
//! Proved: regions exactly if the bytes spell them; none shares an address.
//!
//! | Item | What it is |
//! |---|---|
//! | [`Range`] | consecutive addresses |
//! | [`Regions`] | the ranges of code and of data, the one range of the stack, and the cases |
//! | [`Case`] | the targets of the PCHL at an address |
//! | [`RegionMap`] | whether an address is in the code or in the data, at the same cost for any number of ranges |
//! | [`Chunk`], [`Image`] | bytes at an address; a located program, and its memory |
//! | [`write_regions`], [`read_regions`], [`RegionsFault`] | regions as a text, and why bytes are no regions text |
//! | [`write_regions2`], [`migrate_regions`], [`case_lines`] | regions as a text of version 2, and the lines of cases alone |
//! | [`lines`] | texts over whole lines |
//! | [`laws`] | what holds of the definitions alone |
#![tactic(auto)]

mod case;
mod case_line;
mod chunk;
mod entry;
mod fault;
mod image;
pub mod laws;
pub mod lines;
mod memory;
mod migrate;
mod ordered;
mod range;
mod read;
mod region_map;
mod regions;
mod seen;
mod version;
mod write;

pub use case::Case;
pub use chunk::Chunk;
pub use fault::RegionsFault;
pub use image::Image;
pub use migrate::migrate_regions;
pub use range::Range;
pub use read::read_regions;
pub use region_map::RegionMap;
pub use regions::Regions;
pub use write::{case_lines, write_regions, write_regions2};
