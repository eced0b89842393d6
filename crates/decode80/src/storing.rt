//! Where an instruction stores.

use crate::pair::IndexPair;

/// Where an instruction stores, apart from the stack, to which PUSH, XTHL, RST and calls write.
#[derive(Clone, Copy, PartialEq, Eq)]
pub enum Storing {
    /// The instruction stores nowhere, or only on the stack.
    Nowhere,
    /// STA: a byte at an address.
    Byte(u16),
    /// SHLD: two bytes, at an address and at the one after it.
    Word(u16),
    /// MOV M,r, MVI M, INR M and DCR M: a byte where HL points to.
    ThroughHl,
    /// STAX: a byte where BC or DE points to.
    Through(IndexPair),
}
