//! The bytes of a dump by their addresses.

ghost use Rattle.std.specs.Prelude.{◌≡◌, ℕ, ◌+◌, ◌≤◌, Some, length, IfOk};
ghost use Rattle.rom80_find.specs.Dump.{DumpValue, dump_byte, dump_of};
ghost use Rattle.rom80_find.specs.Blocks.{AreBytes, AreFound};

use crate::dump::Dump;
use crate::indexed_dump::ADDRESSES;
use std::alloc::{AllocError, Global};

/// The number of addresses that are compared at once.
pub(crate) const BLOCK: usize = 4096;

/// Returns the bytes of all addresses of a dump, 0 if it has none there, and then the same bytes again.
pub(crate) fn bytes_of(alloc: Global, dump: Dump<'_>) -> Result<Vec<u8>, AllocError>
    ensures { IfOk result (λ bytes. AreBytes (dump_of dump.entry) 131072 bytes.items) }
{
    let mut bytes = Vec::with_capacity(alloc, 2 * ADDRESSES)?;
    for at in 0..2 * ADDRESSES {
        let byte = byte_or_zero(dump, (at % ADDRESSES) as u16);
        bytes.push(byte)?;
    }
    Ok(bytes)
}

/// The byte at an address of a dump; 0 if it has none there.
fn byte_or_zero(dump: Dump<'_>, address: u16) -> u8
    ensures { (byte : ℕ) → dump_byte (dump_of dump.entry) address ≡ Some byte → result ≡ byte }
{
    match dump.byte_at(address) {
        Some(byte) => byte,
        None => 0,
    }
}

/// Returns the bytes of the addresses from `first` on, as many as are compared at once.
pub(crate) fn block_from(bytes: &[u8], first: usize) -> &[u8; BLOCK]
    requires whole { length bytes.now ≡ 131072 }
    requires first { first + 4096 ≤ 131072 }
    ensures { (dump : DumpValue) → AreBytes dump 131072 bytes.now → AreFound dump first result.now }
{
    match bytes[first..first + BLOCK].try_into() {
        Ok(block) => block,
        Err(_) => unreachable!(),
    }
}
