//! The memory of a processor.

ghost use Rattle.std.specs.Prelude.{◌≡◌, ℕ, List, length, slice_index, slice_set};

/// The memory that a processor reads and writes: 65536 bytes, by address.
///
/// Nothing else writes it while a processor runs, and a store changes one byte.
pub trait Bus {
    /// The bytes, by address.
    ghost memory: { Self → List ℕ };

    /// The byte at an address.
    fn load(&self, address: u16) -> u8
        ensures byte { result ≡ slice_index (memory self.now) address }
        ensures whole { length (memory self.now) ≡ 65536 };

    /// Writes one byte at an address, and leaves every other unchanged.
    fn store(&mut self, address: u16, byte: u8)
        ensures stored { memory self.new ≡ slice_set (memory self.old) address byte }
        ensures whole { length (memory self.new) ≡ 65536 };
}
