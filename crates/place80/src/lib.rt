//! LOCATE: programs at their addresses; and where the cause of one of its faults is.
//!
//! Proved: at each address the byte that the module defines there, or the first fault; the causes are those of the fault.
//!
//! | Item | What it is |
//! |---|---|
//! | [`layout`], [`Layout`], [`Placed`] | the segments of a program at their places |
//! | [`place_of`] | the address of an offset in one of them: where a public name lies |
//! | [`locate`], [`Options`], [`PlaceFault`] | a program made an image, where its segments go, and why it can't be located |
//! | [`locate_with_restart`] | the same with a jump to the program's start at address 0 |
//! | [`write_image`], [`read_image`], [`ImageFault`] | an image as an object file, and why bytes are no image, which stand in `image80_file` |
//! | [`Image`], [`Chunk`] | a located program, which stands in `image80` |
//! | [`Regions`], [`Range`], [`Case`], [`RegionMap`] | its regions, which stand there too |
//! | [`write_regions`], [`read_regions`], [`RegionsFault`] | regions as a text, which stand in `image80` too |
//! | [`write_regions2`], [`migrate_regions`] | regions as a text of version 2, which stand there too |
//! | [`append_cause`] | the lines of a fault |
//! | [`laws`] | what holds of the definitions alone |
#![tactic(auto)]

mod addresses;
mod causes;
pub mod laws;
mod laying_out;
mod located_chunks;
mod located_regions;
mod locating;
mod options;
mod outside;
mod overlap;
mod place_fault;
mod placed_segments;
mod restarting;

pub use addresses::place_of;
pub use causes::append_cause;
pub use image80::{
    Case, Chunk, Image, Range, RegionMap, Regions, RegionsFault, migrate_regions, read_regions,
    write_regions, write_regions2,
};
pub use image80_file::{ImageFault, read_image, write_image};
pub use laying_out::layout;
pub use locating::locate;
pub use options::Options;
pub use place_fault::PlaceFault;
pub use placed_segments::{Layout, Placed};
pub use restarting::locate_with_restart;
