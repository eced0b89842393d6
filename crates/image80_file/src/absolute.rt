//! The absolute program that an object file holds.

use image80::Chunk;
use omf_core::Name;
use std::marker::Model;

/// The part of an image that an object file holds, all but the regions: the name, the chunks in the order of their
/// content records, and the start address.
#[derive(Drop)]
pub(crate) struct AbsoluteProgram {
    /// The program's name.
    pub name: Name,
    /// The bytes, in the order of their content records.
    pub chunks: Vec<Chunk>,
    /// The address where the program starts.
    pub start: u16,
}

impl Model for AbsoluteProgram {
    ghost use Rattle.image80_file.specs.ImageFile.{AbsoluteProgram};

    ghost Value = { AbsoluteProgram };

    ghost view = { λ p. record { name = p.name; chunks = p.chunks.items; start = p.start } };
}
