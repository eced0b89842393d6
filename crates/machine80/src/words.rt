//! Words in memory.

ghost use Rattle.std.specs.Prelude.{◌≡◌, ◌/◌, ◌%◌};
ghost use Rattle.decode80.specs.Fetch.{ahead};
ghost use Rattle.machine80.specs.Effects.{word_in, stored, push_bytes};

use crate::bus::Bus;
use decode80::{ahead, behind};

/// The word in memory at an address and the next one, low byte first.
#[inline]
pub fn load_word<B: Bus>(bus: &B, address: u16) -> u16
    ensures { result ≡ word_in (B.memory bus.now) address }
{
    u16::from_be_bytes([bus.load(ahead(address, 1)), bus.load(address)])
}

/// Writes a high byte at `sp` - 1 and a low byte at `sp` - 2, modulo 65536. The stack pointer itself is left to the
/// caller.
#[inline]
pub fn push<B: Bus>(bus: &mut B, sp: u16, high: u8, low: u8)
    ensures { B.memory bus.new ≡ stored (B.memory bus.old) (push_bytes sp high low) }
{
    bus.store(behind(sp, 1), high);
    bus.store(behind(sp, 2), low);
}

/// Writes a word at the two addresses below `sp`, the high byte at the upper one. The stack pointer itself is left to
/// the caller.
#[inline]
pub fn push_word<B: Bus>(bus: &mut B, sp: u16, word: u16)
    ensures { B.memory bus.new ≡ stored (B.memory bus.old) (push_bytes sp (word / 256) (word % 256)) }
{
    let [high, low] = word.to_be_bytes();
    push(bus, sp, high, low);
}
