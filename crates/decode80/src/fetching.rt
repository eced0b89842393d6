//! From an address of a program to the instruction there.

ghost use Rattle.std.specs.Prelude.{◌≡◌, ◌+◌, ◌<◌, ◌≤◌, ℕ, Bool};
ghost use Rattle.std.specs.List.{filter_map};
ghost use Rattle.decode80.specs.Fetch.{ahead, all_code, behind, direct_bytes, fetch};

use crate::decoding::decode;
use crate::instr::Instr;
use crate::storing::Storing;

/// A program in memory: whether each address is code, and the byte that it holds.
pub trait Program {
    /// Whether an address is code.
    ghost code: { Self → ℕ → Bool };

    /// The byte that an address holds.
    ghost held: { Self → ℕ → ℕ };

    /// Whether an address is code.
    fn is_code(&self, address: u16) -> bool
        ensures { result ≡ code self.now address };

    /// The byte that an address holds.
    fn byte(&self, address: u16) -> u8
        ensures { result ≡ held self.now address };

    /// Whether `count` bytes from an address on, which must be one to three, are code, and none of them is past FFFF.
    ///
    /// Asks for each of the addresses; an implementation that knows its ranges can answer at once.
    #[inline]
    #[tactic(auto, unfolding(crate::specs::Fetch::all_code))]
    fn all_code(&self, address: u16, count: usize) -> bool
        requires some { 0 < count }
        requires few { count ≤ 3 }
        ensures { result ≡ all_code (code self.now) address count }
    {
        let first = usize::from(address);
        if first + count > 65536 {
            return false;
        }
        for place in first..first + count {
            if !self.is_code(place as u16) {
                return false;
            }
        }
        true
    }
}

/// An instruction and the address after it.
#[derive(Clone, Copy, PartialEq, Eq)]
pub struct Fetched {
    /// The instruction.
    pub instr: Instr,
    /// The address after the instruction, modulo 65536.
    pub next: u16,
}

/// Why an address holds no instruction.
#[derive(Clone, Copy, PartialEq, Eq)]
pub enum FetchFault {
    /// A byte of the instruction is no code, or lies past FFFF.
    Outside,
    /// The address is code, and holds one of the twelve bytes that begin no instruction.
    Unused,
}

/// The address `bytes` after `address`, modulo 65536.
#[inline]
#[tactic(auto, unfolding(crate::specs::Fetch::ahead))]
pub fn ahead(address: u16, bytes: u16) -> u16
    ensures { result ≡ ahead address bytes }
{
    address.wrapping_add(bytes)
}

/// The address `bytes` before `address`, modulo 65536.
#[inline]
#[tactic(auto, unfolding(crate::specs::Fetch::behind))]
pub fn behind(address: u16, bytes: u16) -> u16
    ensures { result ≡ behind address bytes }
{
    address.wrapping_sub(bytes)
}

/// The instruction at an address of a program, and the address after it.
///
/// # Errors
/// [`FetchFault::Outside`] if the address isn't code; otherwise [`FetchFault::Unused`] if its byte begins no instruction,
/// and [`FetchFault::Outside`] if another byte of the instruction isn't code or lies past FFFF.
#[inline(always)]
#[tactic(auto, unfolding(crate::specs::Fetch::fetch))]
pub fn fetch<P: Program>(address: u16, program: &P) -> Result<Fetched, FetchFault>
    ensures { result ≡ fetch (P.code program.now) (P.held program.now) address }
{
    let bytes = [
        program.byte(address),
        program.byte(ahead(address, 1)),
        program.byte(ahead(address, 2)),
    ];
    match decode(bytes) {
        Some((instr, length)) if program.all_code(address, length) => Ok(Fetched {
            instr,
            next: ahead(address, length as u16),
        }),
        None if program.is_code(address) => Err(FetchFault::Unused),
        _ => Err(FetchFault::Outside),
    }
}

/// The addresses that an instruction names to store to, in order: one of STA, two of SHLD, none of any other. `None`
/// fills the array up.
#[inline]
pub fn direct_bytes(instr: Instr) -> [Option<u16>; 2]
    ensures { filter_map (λ address. address) result ≡ direct_bytes instr }
{
    match instr.storing() {
        Storing::Byte(address) => [Some(address), None],
        Storing::Word(address) => [Some(address), Some(ahead(address, 1))],
        Storing::Nowhere | Storing::ThroughHl | Storing::Through(_) => [None, None],
    }
}
