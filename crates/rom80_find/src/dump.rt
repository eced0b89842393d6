//! A dump of a read-only memory.

ghost use Rattle.std.specs.Prelude.{◌≡◌, ◌≤◌, ◌+◌, length};
ghost use Rattle.rom80_find.specs.Dump.{dump_of, dump_byte};

/// A dump of a read-only memory: the bytes of the addresses from `first` on.
#[derive(Clone, Copy)]
pub struct Dump<'a> {
    /// The address of the first byte.
    pub first: u16,
    /// The bytes, each at the address after that of the one before it.
    pub bytes: &'a [u8],
}

impl Dump<'_> {
    /// Returns the byte at an address; `None` if the dump has none there.
    pub fn byte_at(self, address: u16) -> Option<u8>
        ensures { result ≡ dump_byte (dump_of self.entry) address }
    {
        if self.first <= address && usize::from(address - self.first) < self.bytes.len() {
            Some(self.bytes[usize::from(address - self.first)])
        } else {
            None
        }
    }
}
