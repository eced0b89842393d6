//! A located program.

use crate::chunk::Chunk;
use crate::regions::Regions;
use omf_core::Name;
use std::marker::Model;

/// A located program: its name, its bytes in the order of their content records, its regions, and
/// the address where it starts.
#[derive(Debug, Drop)]
pub struct Image {
    /// The program's name.
    pub name: Name,
    /// The bytes, in the order of their content records: a later chunk hides an earlier one.
    pub chunks: Vec<Chunk>,
    /// The addresses that the program may use.
    pub regions: Regions,
    /// The address where the program starts.
    pub start: u16,
}

impl Model for Image {
    ghost use Rattle.image80.specs.Image.{Located};

    ghost Value = { Located };

    ghost view = { λ i. record { name = i.name; chunks = i.chunks.items; regions = i.regions; start = i.start } };
}

impl Image {
    ghost use Rattle.std.specs.Prelude.{◌≡◌};
    ghost use Rattle.image80.specs.Image.{byte_at};

    /// The byte of the image's memory at the address: that of the last chunk that covers it, or 0 if no chunk does.
    pub fn byte(&self, address: u16) -> u8
        ensures { result ≡ byte_at self.now.chunks address }
    {
        let mut byte = 0;
        for chunk in &self.chunks {
            byte = chunk.byte(address).unwrap_or(byte);
        }
        byte
    }
}
