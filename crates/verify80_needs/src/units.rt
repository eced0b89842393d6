//! The parts of a state, to which it is cut, and by which it is distinguished from others.

use bitflags::{Flags, bitflags};
use decode80::{Condition, IndexPair, Pair, Register, StackPair};
use std::array;
use verify80_states::{ByteSpan, Known, PairSpan, State, Words};

/// A set of parts of a state: a bit for each.
#[derive(Clone, Copy, PartialEq, Eq)]
pub struct Units(u32);

bitflags! {
    impl Units: u32 {
        const NONE = 0;
        const A = 0x0000_0001;
        const B = 0x0000_0002;
        const C = 0x0000_0004;
        const BC = 0x0000_0006;
        const D = 0x0000_0008;
        const E = 0x0000_0010;
        const DE = 0x0000_0018;
        const H = 0x0000_0020;
        const L = 0x0000_0040;
        const HL = 0x0000_0060;
        const ZERO = 0x0000_0080;
        const CARRY = 0x0000_0100;
        const SIGN = 0x0000_0200;
        /// What A was compared with last, and A with it.
        const TEST = 0x0000_0400;
        /// The flags that INR and DCR write, and the comparison.
        const COUNTED = 0x0000_0680;
        const FIRST = 0x0000_0800;
        const SECOND = 0x0000_1000;
        const THIRD = 0x0000_2000;
        const FOURTH = 0x0000_4000;
        /// The words on the stack.
        const WORDS = 0x0000_7800;
        /// The bytes of memory.
        const CELLS = 0x007F_8000;
        /// All parts: seven registers, three flags, what A was compared with, four words on the stack and eight bytes of memory.
        const ALL = 0x007F_FFFF;
    }
}

/// A number by which the bits of sums are mixed.
const FACTOR: u64 = 0x9E37_79B9_7F4A_7C15;
/// How many parts there are.
pub const PARTS: usize = 23;

impl Units {
    /// The one part with this bit, counted from 0; the last part for a greater number.
    pub fn of_bit(number: usize) -> Units {
        Units(1 << number.min(PARTS - 1))
    }

    /// The part that is a register.
    pub fn of(register: Register) -> Units {
        match register {
            Register::A => Units::A,
            Register::B => Units::B,
            Register::C => Units::C,
            Register::D => Units::D,
            Register::E => Units::E,
            Register::H => Units::H,
            Register::L => Units::L,
        }
    }

    /// The halves of a pair; none of SP.
    pub fn of_pair(pair: Pair) -> Units {
        match pair {
            Pair::Bc => Units::BC,
            Pair::De => Units::DE,
            Pair::Hl => Units::HL,
            Pair::Sp => Units::NONE,
        }
    }

    /// The registers of a pair that is pushed or popped that are followed: of PSW A alone.
    pub fn of_stack_pair(pair: StackPair) -> Units {
        match pair {
            StackPair::Bc => Units::BC,
            StackPair::De => Units::DE,
            StackPair::Hl => Units::HL,
            StackPair::Psw => Units::A,
        }
    }

    /// The halves of a pair by which LDAX and STAX go.
    pub fn of_index_pair(pair: IndexPair) -> Units {
        match pair {
            IndexPair::Bc => Units::BC,
            IndexPair::De => Units::DE,
        }
    }

    /// The parts by which a condition is decided.
    pub fn of_condition(condition: Condition) -> Units {
        match condition {
            Condition::Zero | Condition::NonZero => Units::ZERO.union(Units::TEST),
            Condition::Carry | Condition::NoCarry => Units::CARRY.union(Units::TEST),
            Condition::Plus | Condition::Minus => Units::SIGN,
            Condition::ParityOdd | Condition::ParityEven => Units::NONE,
        }
    }

    /// The parts with each word among them a word deeper, as before a POP.
    pub fn deeper(self) -> Units {
        self.with_words(self.intersection(Units::WORDS).0.wrapping_mul(2))
    }

    /// The parts with each word among them a word less deep, as before a PUSH.
    pub fn shallower(self) -> Units {
        self.with_words(self.intersection(Units::WORDS).0 / 2)
    }

    /// The parts with the words of others in place of their own.
    fn with_words(self, others: u32) -> Units {
        self.difference(Units::WORDS)
            .union(Units(others).intersection(Units::WORDS))
    }
}

/// A state of which nothing but these parts is known, and its bytes of memory.
pub fn reduced(state: State, parts: Units) -> State {
    let State { known, words } = state;
    let keeps_a = parts.intersects(Units::A.union(Units::TEST));
    State {
        known: Known {
            a: if keeps_a { known.a } else { ByteSpan::ANY },
            bc: reduced_pair(known.bc, parts, Units::B, Units::C),
            de: reduced_pair(known.de, parts, Units::D, Units::E),
            hl: reduced_pair(known.hl, parts, Units::H, Units::L),
            copy: if keeps_a { known.copy } else { Register::A },
            source: known.source.filter(|_| keeps_a),
            set: known.set,
            zero: known.zero.filter(|_| parts.intersects(Units::ZERO)),
            carry: known.carry.filter(|_| parts.intersects(Units::CARRY)),
            sign: known.sign.filter(|_| parts.intersects(Units::SIGN)),
            compared: known.compared.filter(|_| parts.intersects(Units::TEST)),
            cells: known.cells,
        },
        words: Words {
            first: words.first.filter(|_| parts.intersects(Units::FIRST)),
            second: words.second.filter(|_| parts.intersects(Units::SECOND)),
            third: words.third.filter(|_| parts.intersects(Units::THIRD)),
            fourth: words.fourth.filter(|_| parts.intersects(Units::FOURTH)),
        },
    }
}

/// A pair of which only the halves are known whose bits, `high` and `low`, are among these parts.
fn reduced_pair(pair: PairSpan, parts: Units, high: Units, low: Units) -> PairSpan {
    match (parts.intersects(high), parts.intersects(low)) {
        (true, true) => pair,
        (true, false) => PairSpan::of_halves(pair.high(), ByteSpan::ANY),
        (false, true) => PairSpan::of_halves(ByteSpan::ANY, pair.low),
        (false, false) => PairSpan::ANY,
    }
}

/// A number for each part of a state, by which it is distinguished from others: in the order of their bits.
pub fn numbers_of(state: State) -> [u64; PARTS] {
    let State { known, words } = state;
    let [first, second, third, fourth, fifth, sixth, seventh, eighth] = known.cells.each;
    let values = [
        byte_value(known.a),
        byte_value(known.bc.high()),
        byte_value(known.bc.low),
        byte_value(known.de.high()),
        byte_value(known.de.low),
        byte_value(known.hl.high()),
        byte_value(known.hl.low),
        flag_value(known.zero),
        flag_value(known.carry),
        flag_value(known.sign),
        known.compared.map_or(256, |byte| u64::from(byte)),
        word_value(words.first),
        word_value(words.second),
        word_value(words.third),
        word_value(words.fourth),
        byte_value(first.bytes),
        byte_value(second.bytes),
        byte_value(third.bytes),
        byte_value(fourth.bytes),
        byte_value(fifth.bytes),
        byte_value(sixth.bytes),
        byte_value(seventh.bytes),
        byte_value(eighth.bytes),
    ];
    array::from_fn(|number| mixed(values[number], number))
}

/// A sum of an address and of the parts of a state without the joined ones, by which states are distinguished.
pub fn sum_of(at: u16, state: State, joined: Units) -> u64 {
    let mut sum = mixed(u64::from(at), PARTS);
    for (number, part) in numbers_of(state).iter().enumerate() {
        if !joined.intersects(Units::of_bit(number)) {
            sum = sum.wrapping_add(*part);
        }
    }
    sum
}

/// A number that has the bits of a value mixed, for each part in its own way.
fn mixed(value: u64, number: usize) -> u64 {
    let once = (value.wrapping_mul(32).wrapping_add(number as u64)).wrapping_mul(FACTOR);
    (once ^ once.rotate_left(29)).wrapping_mul(FACTOR)
}

/// A span of bytes as a number.
fn byte_value(span: ByteSpan) -> u64 {
    256 * u64::from(span.first) + u64::from(span.last)
}

/// A flag as a number: 2 if it isn't known.
fn flag_value(flag: Option<bool>) -> u64 {
    flag.map_or(2, |flag| u64::from(flag))
}

/// A word on the stack as a number.
fn word_value(word: Option<PairSpan>) -> u64 {
    let PairSpan { words, low } = word.unwrap_or(PairSpan::ANY);
    let words = 65_536 * u64::from(words.first) + u64::from(words.last);
    words.wrapping_mul(65_536).wrapping_add(byte_value(low))
}
