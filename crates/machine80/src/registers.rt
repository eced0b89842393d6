//! The registers of the 8080.

ghost use Rattle.std.specs.Prelude.{◌≡◌};
ghost use Rattle.machine80.specs.Cpu.{register_of, with_register, hl_of, index_pair_of, high_of, low_of, with_stack_pair};

use crate::flags::Flags;
use decode80::{IndexPair, Register, StackPair};

/// The seven registers and the condition flags.
#[derive(Clone, Copy, Debug, PartialEq, Eq)]
pub struct Registers {
    pub a: u8,
    pub b: u8,
    pub c: u8,
    pub d: u8,
    pub e: u8,
    pub h: u8,
    pub l: u8,
    pub flags: Flags,
}

impl Registers {
    /// The byte in a register.
    #[inline]
    pub fn value(&self, register: Register) -> u8
        ensures { result ≡ register_of self.now register }
    {
        match register {
            Register::A => self.a,
            Register::B => self.b,
            Register::C => self.c,
            Register::D => self.d,
            Register::E => self.e,
            Register::H => self.h,
            Register::L => self.l,
        }
    }

    /// Writes a byte to a register, and leaves the others unchanged.
    #[inline]
    pub fn assign(&mut self, register: Register, byte: u8)
        ensures { self.new ≡ with_register self.old register byte }
    {
        match register {
            Register::A => self.a = byte,
            Register::B => self.b = byte,
            Register::C => self.c = byte,
            Register::D => self.d = byte,
            Register::E => self.e = byte,
            Register::H => self.h = byte,
            Register::L => self.l = byte,
        }
    }

    /// The word in HL.
    #[inline]
    pub fn hl(&self) -> u16
        ensures { result ≡ hl_of self.now }
    {
        u16::from_be_bytes([self.h, self.l])
    }

    /// The word in BC or DE, an address for STAX and LDAX.
    #[inline]
    pub fn index_pair(&self, pair: IndexPair) -> u16
        ensures { result ≡ index_pair_of self.now pair }
    {
        match pair {
            IndexPair::Bc => u16::from_be_bytes([self.b, self.c]),
            IndexPair::De => u16::from_be_bytes([self.d, self.e]),
        }
    }

    /// The high byte of a pair that PUSH names; of PSW, A.
    #[inline]
    pub fn high(&self, pair: StackPair) -> u8
        ensures { result ≡ high_of self.now pair }
    {
        match pair {
            StackPair::Bc => self.b,
            StackPair::De => self.d,
            StackPair::Hl => self.h,
            StackPair::Psw => self.a,
        }
    }

    /// The low byte of a pair that PUSH names; of PSW, the flags byte.
    #[inline]
    pub fn low(&self, pair: StackPair) -> u8
        ensures { result ≡ low_of self.now pair }
    {
        match pair {
            StackPair::Bc => self.c,
            StackPair::De => self.e,
            StackPair::Hl => self.l,
            StackPair::Psw => self.flags.byte(),
        }
    }

    /// Writes a high and a low byte to a pair that POP names; to PSW, A and the flags from their byte.
    #[inline]
    pub fn assign_stack_pair(&mut self, pair: StackPair, high: u8, low: u8)
        ensures { self.new ≡ with_stack_pair self.old pair high low }
    {
        match pair {
            StackPair::Bc => (self.b, self.c) = (high, low),
            StackPair::De => (self.d, self.e) = (high, low),
            StackPair::Hl => (self.h, self.l) = (high, low),
            StackPair::Psw => {
                self.a = high;
                self.flags = Flags::from_byte(low);
            }
        }
    }
}
