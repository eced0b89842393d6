//! The processor.

ghost use Rattle.std.specs.Prelude.{◌≡◌, ◌/◌};
ghost use Rattle.machine80.specs.Cpu.{hl_of, pair_of, with_pair, register_of, started};
ghost use Rattle.machine80.specs.Effects.{with_answer, with_register_answer, with_sum};
ghost use Rattle.machine80.specs.Flags.{flags_byte};

use crate::alu::{Answer, add_pairs};
use crate::flags::Flags;
use crate::registers::Registers;
use decode80::{Pair, Register};
use image80::Regions;

/// The state of the processor: the registers with the flags, the stack pointer and the program counter.
#[derive(Clone, Copy, Debug, PartialEq, Eq)]
pub struct Cpu {
    /// The seven registers and the flags.
    pub registers: Registers,
    /// The stack pointer.
    pub sp: u16,
    /// The program counter: the address of the next instruction.
    pub pc: u16,
}

impl Cpu {
    /// The processor before the first step: the program counter at `start`, the stack pointer at the stack's top, all
    /// registers 0, all flags clear.
    pub fn start(start: u16, regions: &Regions) -> Cpu
        ensures { result ≡ started start regions.now }
    {
        let flags = Flags {
            sign: false,
            zero: false,
            auxiliary: false,
            parity: false,
            carry: false,
        };
        let registers = Registers {
            a: 0,
            b: 0,
            c: 0,
            d: 0,
            e: 0,
            h: 0,
            l: 0,
            flags,
        };
        Cpu {
            registers,
            sp: regions.top(),
            pc: start,
        }
    }

    /// The byte in a register.
    pub fn register(&self, register: Register) -> u8
        ensures { result ≡ register_of self.now.registers register }
    {
        self.registers.value(register)
    }

    /// The flags byte: S Z 0 AC 0 P 1 CY from bit 7.
    pub fn flags_byte(&self) -> u8
        ensures { result ≡ flags_byte self.now.registers.flags }
    {
        self.registers.flags.byte()
    }

    /// The stack pointer.
    pub fn sp(&self) -> u16
        ensures { result ≡ self.now.sp }
    {
        self.sp
    }

    /// The program counter.
    pub fn pc(&self) -> u16
        ensures { result ≡ self.now.pc }
    {
        self.pc
    }

    /// The word in a pair, the first register being the high byte.
    #[inline]
    pub fn pair(&self, pair: Pair) -> u16
        ensures { result ≡ pair_of self.now pair }
    {
        match pair {
            Pair::Bc => u16::from_be_bytes([self.registers.b, self.registers.c]),
            Pair::De => u16::from_be_bytes([self.registers.d, self.registers.e]),
            Pair::Hl => u16::from_be_bytes([self.registers.h, self.registers.l]),
            Pair::Sp => self.sp,
        }
    }

    /// Writes a word to a pair, its high byte to the first register.
    #[inline]
    pub fn assign_pair(&mut self, pair: Pair, word: u16)
        ensures { self.new ≡ with_pair self.old pair word }
    {
        let [high, low] = word.to_be_bytes();
        match pair {
            Pair::Bc => (self.registers.b, self.registers.c) = (high, low),
            Pair::De => (self.registers.d, self.registers.e) = (high, low),
            Pair::Hl => (self.registers.h, self.registers.l) = (high, low),
            Pair::Sp => self.sp = word,
        }
    }

    /// Writes a result's byte to the accumulator, and its flags to the flags.
    #[inline]
    pub fn put(&mut self, answer: Answer)
        ensures { self.new ≡ with_answer self.old answer }
    {
        self.registers.a = answer.value;
        self.registers.flags = answer.flags;
    }

    /// Writes a result's byte to a register, and its flags to the flags.
    #[inline]
    pub fn put_in(&mut self, register: Register, answer: Answer)
        ensures { self.new ≡ with_register_answer self.old register answer }
    {
        self.registers.assign(register, answer.value);
        self.registers.flags = answer.flags;
    }

    /// Adds a word to HL modulo 65536, as DAD does: CY becomes the carry, and no other flag changes.
    #[inline(always)]
    pub fn add(&mut self, word: u16)
        ensures { self.new ≡ with_sum self.old (hl_of self.old.registers) word }
    {
        let (sum, flags) = add_pairs(self.registers.hl(), word, self.registers.flags);
        self.assign_pair(Pair::Hl, sum);
        self.registers.flags = flags;
    }
}
