//! An image as the verifier goes by it.

ghost use Rattle.std.specs.Prelude.{◌≡◌, IfOk, slice_index, true};
ghost use Rattle.std.specs.Option.{option_map_or};
ghost use Rattle.image80.specs.Image.{memory_of};
ghost use Rattle.image80.specs.Regions.{in_code, in_data};
ghost use Rattle.verify80.specs.Kept.{IsKept};
ghost use Rattle.verify80.specs.Looking.{admitted, code_of, halt_follows, is_declared, stores_in_data};

use decode80::{FetchFault, Fetched, Instr, Program, ahead, direct_bytes, fetch};
use frames80::{Code, LookFault};
use image80::{Image, RegionMap};
use std::alloc::{AllocError, Global};
use std::marker::Model;

/// An image with its memory and its regions by address, as the verifier reads it: looking up an
/// address takes the same time for any number of chunks and ranges.
#[derive(Drop)]
pub struct ImageCode<'a> {
    image: &'a Image,
    /// The image's memory: 65,536 bytes.
    memory: Vec<u8>,
    /// Which region each address is in.
    map: RegionMap,
}

impl<'a> Model for ImageCode<'a> {
    ghost use Rattle.image80.specs.Image.{Located};
    ghost use Rattle.verify80.specs.Kept.{IsKept};

    ghost Value = { Located };

    ghost view = { λ c. c.image.now };

    ghost invariant = { λ c. IsKept c.image.now c.memory.items c.map };
}

impl<'a> ImageCode<'a> {
    /// Prepares an image for the verifier: makes its memory and the map of its regions.
    ///
    /// # Errors
    /// `AllocError` if memory runs out.
    pub fn new(alloc: Global, image: &'a Image) -> Result<Self, AllocError>
        ensures { IfOk result (λ code. code ≡ image.now) }
    {
        let memory = image.memory(alloc)?;
        let map = RegionMap::new(alloc, &image.regions)?;
        Ok(ImageCode { image, memory, map })
    }

    /// The image's memory by address, and the map of its regions.
    pub(crate) fn into_parts(self) -> (Vec<u8>, RegionMap)
        ensures { IsKept self.entry result.0.items result.1 }
    {
        (self.memory, self.map)
    }

    /// Whether the address is data; `None` counts as data.
    fn is_data_if_named(&self, named: Option<u16>) -> bool
        ensures { result ≡ option_map_or (in_data self.now.regions) named true }
    {
        match named {
            Some(address) => self.map.is_data(address),
            None => true,
        }
    }

    /// Whether the byte after an address (at 0000 after FFFF) is a HLT in CODE.
    fn halt_follows(&self, at: u16) -> bool
        ensures { result ≡ halt_follows self.now.regions (memory_of self.now.chunks) at }
    {
        let next = ahead(at, 1);
        self.is_code(next) && self.byte(next) == 0x76
    }

    /// Whether the regions declare targets for a PCHL at this address.
    fn is_declared(&self, at: u16) -> bool
        ensures { result ≡ is_declared self.now.regions at }
    {
        let image = self.image;
        image.regions.targets(at).is_some()
    }

    /// Whether each byte that an instruction stores to a direct address (STA, SHLD) is in data.
    /// True for all other instructions.
    fn stores_in_data(&self, instr: Instr) -> bool
        ensures { result ≡ stores_in_data self.now.regions instr }
    {
        let [first, second] = direct_bytes(instr);
        self.is_data_if_named(first) && self.is_data_if_named(second)
    }

    /// Checks an instruction that was fetched at an address and returns it unchanged.
    ///
    /// # Errors
    /// `EnablesInterrupts` for an EI without a HLT in CODE after it, `Pchl` for a PCHL without
    /// declared targets, `DirectStore` for a STA or SHLD outside data.
    fn admit(&self, at: u16, found: Fetched) -> Result<Fetched, LookFault>
        ensures { result ≡ admitted self.now.regions (memory_of self.now.chunks) at found }
    {
        match found.instr {
            Instr::Ei if !self.halt_follows(at) => Err(LookFault::EnablesInterrupts),
            Instr::Pchl if !self.is_declared(at) => Err(LookFault::Pchl),
            instr if !self.stores_in_data(instr) => Err(LookFault::DirectStore),
            _ => Ok(found),
        }
    }
}

impl<'a> Program for ImageCode<'a> {
    ghost code = { λ image. in_code image.regions };

    ghost held = { λ image address. slice_index (memory_of image.chunks) address };

    /// Whether an address is in CODE.
    fn is_code(&self, address: u16) -> bool {
        self.map.is_code(address)
    }

    /// The byte of the image's memory at an address.
    fn byte(&self, address: u16) -> u8 {
        self.memory[usize::from(address)]
    }
}

impl<'a> Code for ImageCode<'a> {
    ghost code = { code_of };

    /// The instruction at an address and the address after it, or why none may be executed there.
    #[tactic(auto, unfolding(crate::specs::Looking::look_at))]
    fn look(&self, at: u16) -> Result<Fetched, LookFault> {
        match fetch(at, self) {
            Ok(found) => self.admit(at, found),
            Err(FetchFault::Outside) => Err(LookFault::Outside),
            Err(FetchFault::Unused) => Err(LookFault::Unused),
        }
    }

    /// The targets that the regions declare for a PCHL at this address; empty if none are declared.
    fn targets(&self, at: u16) -> &[u16] {
        let image = self.image;
        match image.regions.targets(at) {
            Some(targets) => targets,
            None => &[],
        }
    }

    /// The address where the main program starts.
    fn start(&self) -> u16 {
        let image = self.image;
        image.start
    }

    /// The address just above the stack, modulo 65536.
    fn top(&self) -> u16 {
        let image = self.image;
        image.regions.top()
    }

    /// The number of bytes that the stack has.
    fn stack(&self) -> u16 {
        let image = self.image;
        image.regions.stack().length
    }
}
