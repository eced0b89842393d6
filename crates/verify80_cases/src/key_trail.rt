//! What a loop has looked up, as it is written to search a table of keys and addresses:
//!
//! ```text
//!        LXI H,table
//! LOOP:  MOV A,M
//!        ORA A         (or CPI n; or MVI C,n before, and DCR C further below)
//!        JZ NONE
//!        CMP B
//!        INX H
//!        JZ FOUND
//!        INX H
//!        INX H
//!        JMP LOOP
//! FOUND: MOV E,M
//!        INX H
//!        MOV D,M
//!        XCHG
//!        PCHL
//! ```
//!
//! The instructions are followed one by one: which register has which byte of the table, and which pair points where into it.

use crate::changes::{may_change, writes_a};
use crate::leads::is_call;
use decode80::{AffectedFlags, Condition, IndexPair, Instr, Operand, Operation, Pair, Register};

/// One byte back, modulo 256.
const BACK: u8 = 255;

/// A byte of a table, by the address of the LXI that loads the table's address, and by how far it is
/// behind that.
#[derive(Clone, Copy, PartialEq, Eq)]
pub(crate) struct Place {
    /// The address of the LXI.
    pub(crate) lxi: u16,
    /// How many bytes it is behind the word of the LXI, modulo 256.
    pub(crate) offset: u8,
}

impl Place {
    /// Whether this place is `bytes` behind another one.
    pub(crate) fn is_behind(self, other: Place, bytes: u8) -> bool {
        self == other.moved(bytes)
    }

    /// The place that is `bytes` further on, modulo 256.
    fn moved(self, bytes: u8) -> Place {
        Place {
            lxi: self.lxi,
            offset: self.offset.wrapping_add(bytes),
        }
    }
}

/// What a pair of registers has of a table.
#[derive(Clone, Copy)]
enum Holding {
    /// Nothing that is known.
    Nothing,
    /// The address of this byte.
    Address(Place),
    /// This byte in the low register.
    Low(Place),
    /// This byte in the high register.
    High(Place),
    /// A word, with this byte as its low byte.
    Word(Place),
}

impl Holding {
    /// The byte to which the pair points; `None` if it points to none that is known.
    fn address(self) -> Option<Place> {
        match self {
            Holding::Address(place) => Some(place),
            _ => None,
        }
    }

    /// The byte that the low register has.
    fn low(self) -> Option<Place> {
        match self {
            Holding::Low(place) | Holding::Word(place) => Some(place),
            _ => None,
        }
    }

    /// The byte that the high register has.
    fn high(self) -> Option<Place> {
        match self {
            Holding::High(place) => Some(place),
            Holding::Word(place) => Some(place.moved(1)),
            _ => None,
        }
    }

    /// The pair with another byte in its low register.
    fn with_low(self, byte: Option<Place>) -> Holding {
        let Some(low) = byte else {
            return Holding::Nothing;
        };
        match self.high() {
            Some(high) if high.is_behind(low, 1) => Holding::Word(low),
            _ => Holding::Low(low),
        }
    }

    /// The pair with another byte in its high register.
    fn with_high(self, byte: Option<Place>) -> Holding {
        let Some(high) = byte else {
            return Holding::Nothing;
        };
        match self.low() {
            Some(low) if high.is_behind(low, 1) => Holding::Word(low),
            _ => Holding::High(high),
        }
    }

    /// The pair, `bytes` further on, modulo 256.
    fn moved(self, bytes: u8) -> Holding {
        match self {
            Holding::Address(place) => Holding::Address(place.moved(bytes)),
            _ => Holding::Nothing,
        }
    }

    /// The pair after another instruction.
    fn after(self, instr: Instr, pair: Pair) -> Holding {
        if may_change(instr, pair) {
            return Holding::Nothing;
        }
        self
    }
}

/// What the zero flag says.
#[derive(Clone, Copy)]
enum Tested {
    /// Nothing that is known.
    Nothing,
    /// Whether the key at this place is the one that is looked for.
    Key(Place),
    /// Whether the key at this place ends the table, by the test at this address.
    Last(Place, u16),
    /// Whether this register has counted down to 0.
    Count(Register),
}

/// A test for the key that ends a table.
#[derive(Clone, Copy)]
pub(crate) struct LastTest {
    /// The key that is tested.
    pub(crate) key: Place,
    /// The address of the test.
    pub(crate) at: u16,
}

/// What instructions that lead to an address show of a table of keys.
#[derive(Clone, Copy)]
pub(crate) struct KeyTrail {
    /// The byte of the table that A has.
    a: Option<Place>,
    bc: Holding,
    de: Holding,
    hl: Holding,
    /// What the zero flag says.
    tested: Tested,
    /// The test for the key that ends the table, if a jump depends on one.
    pub(crate) last: Option<LastTest>,
    /// The register that counts down, if a jump depends on one.
    pub(crate) counter: Option<Register>,
}

impl KeyTrail {
    /// Nothing is known.
    pub(crate) fn unknown() -> KeyTrail {
        KeyTrail {
            a: None,
            bc: Holding::Nothing,
            de: Holding::Nothing,
            hl: Holding::Nothing,
            tested: Tested::Nothing,
            last: None,
            counter: None,
        }
    }

    /// The low byte of the word of a table that HL has; `None` if it has none.
    pub(crate) fn word(self) -> Option<Place> {
        match self.hl {
            Holding::Word(low) => Some(low),
            _ => None,
        }
    }

    /// The key that was compared with the one that is looked for, if the zero flag says whether it is that.
    pub(crate) fn compared_key(self) -> Option<Place> {
        match self.tested {
            Tested::Key(place) => Some(place),
            _ => None,
        }
    }

    /// Whether a pair points `bytes` further into the table of an LXI than before.
    pub(crate) fn is_further(self, before: KeyTrail, lxi: u16, bytes: u8) -> bool {
        moves_on(before.hl, self.hl, lxi, bytes)
            || moves_on(before.de, self.de, lxi, bytes)
            || moves_on(before.bc, self.bc, lxi, bytes)
    }

    /// What is known where the key that was compared isn't the one that is looked for. What counted down before doesn't count entries.
    pub(crate) fn passed_over(self) -> KeyTrail {
        KeyTrail {
            tested: Tested::Nothing,
            counter: None,
            ..self
        }
    }

    /// What is known after the instruction at address `at`.
    pub(crate) fn after(self, at: u16, instr: Instr) -> KeyTrail {
        match instr {
            _ if is_call(instr) => KeyTrail::unknown(),
            Instr::Lxi(pair, _) => KeyTrail {
                last: None,
                counter: None,
                ..self.with_pair(pair, Holding::Address(Place { lxi: at, offset: 0 }))
            },
            Instr::Inx(pair) => self.with_pair(pair, self.pair(pair).moved(1)),
            Instr::Dcx(pair) => self.with_pair(pair, self.pair(pair).moved(BACK)),
            Instr::Xchg => KeyTrail {
                de: self.hl,
                hl: self.de,
                ..self
            },
            Instr::Load(to) => self.with_byte(to, self.hl.address()),
            Instr::Ldax(IndexPair::Bc) => self.with_byte(Register::A, self.bc.address()),
            Instr::Ldax(IndexPair::De) => self.with_byte(Register::A, self.de.address()),
            Instr::Mov(to, from) => self.with_byte(to, self.byte_in(from)),
            Instr::JumpIf(condition, _) | Instr::ReturnIf(condition) => self.decided(condition),
            _ => self.after_other(at, instr),
        }
    }

    /// What is known after an instruction that loads no byte of the table and doesn't jump.
    fn after_other(self, at: u16, instr: Instr) -> KeyTrail {
        let keeps_a = tests_a(instr) || !writes_a(instr.writes());
        KeyTrail {
            a: if keeps_a { self.a } else { None },
            bc: self.bc.after(instr, Pair::Bc),
            de: self.de.after(instr, Pair::De),
            hl: self.hl.after(instr, Pair::Hl),
            tested: self.tested_after(at, instr),
            ..self
        }
    }

    /// What the zero flag says after an instruction.
    fn tested_after(self, at: u16, instr: Instr) -> Tested {
        match instr {
            _ if tests_a(instr) => match self.a {
                Some(key) => Tested::Last(key, at),
                None => Tested::Nothing,
            },
            Instr::Operate(Operation::Compare, operand) => self.key_test(operand),
            Instr::Dcr(register) => Tested::Count(register),
            _ => match instr.facts().flags {
                AffectedFlags::AllButCarry | AffectedFlags::AllFlags => Tested::Nothing,
                AffectedFlags::NoFlags | AffectedFlags::CarryAlone => self.tested,
            },
        }
    }

    /// What the zero flag says after A is compared with an operand.
    fn key_test(self, operand: Operand) -> Tested {
        let compared = match operand {
            Operand::Register(register) => self.byte_in(register),
            Operand::Memory => self.hl.address(),
            Operand::Immediate(_) => None,
        };
        match self.a.or(compared) {
            Some(key) => Tested::Key(key),
            None => Tested::Nothing,
        }
    }

    /// What is known after a jump or a return depends on the flags.
    fn decided(self, condition: Condition) -> KeyTrail {
        if !matches!(condition, Condition::Zero | Condition::NonZero) {
            return self;
        }
        match self.tested {
            Tested::Last(key, at) => KeyTrail {
                last: Some(LastTest { key, at }),
                ..self
            },
            Tested::Count(register) => KeyTrail {
                counter: Some(register),
                ..self
            },
            Tested::Nothing | Tested::Key(_) => self,
        }
    }

    /// What a pair has.
    fn pair(self, pair: Pair) -> Holding {
        match pair {
            Pair::Bc => self.bc,
            Pair::De => self.de,
            Pair::Hl => self.hl,
            Pair::Sp => Holding::Nothing,
        }
    }

    /// This, with something else in a pair.
    fn with_pair(self, pair: Pair, holding: Holding) -> KeyTrail {
        match pair {
            Pair::Bc => KeyTrail {
                bc: holding,
                ..self
            },
            Pair::De => KeyTrail {
                de: holding,
                ..self
            },
            Pair::Hl => KeyTrail {
                hl: holding,
                ..self
            },
            Pair::Sp => self,
        }
    }

    /// The byte of the table that a register has.
    fn byte_in(self, register: Register) -> Option<Place> {
        match register {
            Register::A => self.a,
            Register::B => self.bc.high(),
            Register::C => self.bc.low(),
            Register::D => self.de.high(),
            Register::E => self.de.low(),
            Register::H => self.hl.high(),
            Register::L => self.hl.low(),
        }
    }

    /// This, with a byte of the table in a register, or with any other if there is none.
    fn with_byte(self, register: Register, byte: Option<Place>) -> KeyTrail {
        match register {
            Register::A => KeyTrail { a: byte, ..self },
            Register::B => self.with_pair(Pair::Bc, self.bc.with_high(byte)),
            Register::C => self.with_pair(Pair::Bc, self.bc.with_low(byte)),
            Register::D => self.with_pair(Pair::De, self.de.with_high(byte)),
            Register::E => self.with_pair(Pair::De, self.de.with_low(byte)),
            Register::H => self.with_pair(Pair::Hl, self.hl.with_high(byte)),
            Register::L => self.with_pair(Pair::Hl, self.hl.with_low(byte)),
        }
    }
}

/// Whether a pair points `bytes` further into the table of an LXI than before.
fn moves_on(before: Holding, after: Holding, lxi: u16, bytes: u8) -> bool {
    match (before, after) {
        (Holding::Address(from), Holding::Address(to)) => {
            from.lxi == lxi && to.is_behind(from, bytes)
        }
        _ => false,
    }
}

/// Whether an instruction tests A for a constant, and leaves it: CPI, and ANA A or ORA A, which test it for 0.
fn tests_a(instr: Instr) -> bool {
    matches!(
        instr,
        Instr::Operate(Operation::Compare, Operand::Immediate(_))
            | Instr::Operate(
                Operation::And | Operation::Or,
                Operand::Register(Register::A)
            )
    )
}
