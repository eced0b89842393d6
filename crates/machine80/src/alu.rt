//! The arithmetic of the 8080: what each arithmetic, logical and rotating instruction answers, as in the Intel 8080
//! Microcomputer Systems User's Manual, chapter 4. No call takes memory or fails.

ghost use Rattle.std.specs.Prelude.{◌≡◌};
ghost use Rattle.machine80.specs.Flags.{bit_of};
ghost use Rattle.machine80.specs.Arithmetic.{sum_answer, difference_answer, byte_answer, operation_answer, increment_answer, decrement_answer};
ghost use Rattle.machine80.specs.Arithmetic.{decimal_answer, rotation_answer, pair_sum, pair_sum_flags, complement_of, carry_set, carry_turned};

use crate::flags::Flags;
use decode80::{Operation, Rotation};

/// The result of an arithmetic, logical or rotating instruction: a byte, and the flags after it.
#[derive(Clone, Copy, PartialEq, Eq)]
pub struct Answer {
    /// The byte.
    pub value: u8,
    /// All five flags.
    pub flags: Flags,
}

impl Answer {
    /// The result `value` with its flags: S, Z and P by the byte, AC and CY as given.
    #[inline]
    #[tactic(auto, unfolding(crate::specs::Arithmetic::byte_answer))]
    fn of_byte(value: u8, auxiliary: bool, carry: bool) -> Answer
        ensures { result ≡ byte_answer value auxiliary carry }
    {
        Answer {
            value,
            flags: Flags::of_result(value, auxiliary, carry),
        }
    }
}

/// ADD, ADC, SUB, SBB, ANA, XRA, ORA and CMP, and their immediate forms: the operation on the accumulator `a` and the
/// byte `value`. A comparison returns `a` unchanged.
///
/// Of `flags` only CY is read, by ADC and SBB; all five flags of the answer are new. CY after a subtraction is the
/// borrow; AC is the carry out of bit 3 of the addition of the complement, so it is set if the low nibble doesn't
/// borrow. After ANA, AC is bit 3 of the OR of the two operands.
#[inline]
#[tactic(auto, unfolding(crate::specs::Arithmetic::operation_answer, crate::specs::Flags::bit_of, crate::specs::Flags::has_bit))]
pub fn operate(operation: Operation, a: u8, value: u8, flags: Flags) -> Answer
    ensures { result ≡ operation_answer operation a value flags }
{
    match operation {
        Operation::Add => sum(a, value, false),
        Operation::AddCarry => sum(a, value, flags.carry),
        Operation::Subtract => difference(a, value, false),
        Operation::SubtractBorrow => difference(a, value, flags.carry),
        Operation::And => Answer::of_byte(a & value, (a | value) >> 3 & 1 == 1, false),
        Operation::ExclusiveOr => Answer::of_byte(a ^ value, false, false),
        Operation::Or => Answer::of_byte(a | value, false, false),
        Operation::Compare => Answer {
            value: a,
            flags: difference(a, value, false).flags,
        },
    }
}

/// The adder: the sum of `a`, `value` and a carry modulo 256, with all five flags.
#[inline]
#[tactic(auto, unfolding(crate::specs::Arithmetic::sum_answer, crate::specs::Flags::bit_of))]
fn sum(a: u8, value: u8, carry: bool) -> Answer
    ensures { result ≡ sum_answer a value (bit_of carry) }
{
    let carry = u8::from(carry);
    let sum = u16::from(a) + u16::from(value) + u16::from(carry);
    let nibbles = a % 16 + value % 16 + carry;
    Answer::of_byte((sum % 256) as u8, nibbles > 15, sum > 255)
}

/// A subtraction by the adder: the sum of `a`, the complement of `value` and the complemented borrow. CY is the
/// complement of the sum's carry, the new borrow.
#[inline]
#[tactic(auto, using(crate::proofs::ArithmeticLemmas::difference_by_adder), unfolding(crate::specs::ArithmeticLaws::with_carry_turned))]
fn difference(a: u8, value: u8, borrow: bool) -> Answer
    ensures { result ≡ difference_answer a value (bit_of borrow) }
{
    let Answer { value, flags } = sum(a, !value, !borrow);
    Answer {
        value,
        flags: complement_carry(flags),
    }
}

/// INR: `value` plus 1 modulo 256, and the flags by that result; CY stays as in `flags`.
#[inline]
#[tactic(auto, unfolding(crate::specs::Arithmetic::increment_answer))]
pub fn increment(value: u8, flags: Flags) -> Answer
    ensures { result ≡ increment_answer value flags }
{
    let more = value.wrapping_add(1);
    Answer::of_byte(more, more % 16 == 0, flags.carry)
}

/// DCR: `value` minus 1 modulo 256, and the flags by that result; CY stays as in `flags`.
#[inline]
#[tactic(auto, unfolding(crate::specs::Arithmetic::decrement_answer))]
pub fn decrement(value: u8, flags: Flags) -> Answer
    ensures { result ≡ decrement_answer value flags }
{
    let less = value.wrapping_sub(1);
    Answer::of_byte(less, less % 16 != 15, flags.carry)
}

/// DAA: the accumulator `a` after an addition of packed decimal bytes, made packed decimal again.
///
/// AC and CY of `flags` are read. CY is set if there is a third digit, and stays if it was set; AC is the carry
/// out of bit 3 of the correction.
#[inline]
#[tactic(auto, unfolding(crate::specs::Arithmetic::decimal_answer))]
pub fn decimal_adjust(a: u8, flags: Flags) -> Answer
    ensures { result ≡ decimal_answer a flags }
{
    let low = a % 16 > 9;
    let first = u16::from(a) + if low || flags.auxiliary { 6 } else { 0 };
    let high = first / 16 > 9 || flags.carry;
    let second = first + if high { 0x60 } else { 0 };
    Answer::of_byte((second % 256) as u8, low, high)
}

/// RLC, RRC, RAL and RAR: the accumulator `a` rotated by one bit. Of the flags only CY changes.
#[inline]
#[tactic(auto, using(crate::proofs::ArithmeticLemmas::or_after_turn), unfolding(crate::specs::Arithmetic::rotation_answer, crate::specs::Flags::bit_of, crate::specs::Flags::has_bit))]
pub fn rotate(rotation: Rotation, a: u8, flags: Flags) -> Answer
    ensures { result ≡ rotation_answer rotation a flags }
{
    let old = u8::from(flags.carry);
    match rotation {
        Rotation::Left => Answer {
            value: a << 1 | a >> 7,
            flags: flags.with_carry(a >> 7 == 1),
        },
        Rotation::Right => Answer {
            value: a >> 1 | (a & 1) << 7,
            flags: flags.with_carry(a & 1 == 1),
        },
        Rotation::LeftThroughCarry => Answer {
            value: a << 1 | old,
            flags: flags.with_carry(a >> 7 == 1),
        },
        Rotation::RightThroughCarry => Answer {
            value: a >> 1 | old << 7,
            flags: flags.with_carry(a & 1 == 1),
        },
    }
}

/// DAD: the sum of HL and a pair modulo 65536, and the flags, of which only CY changes.
#[inline]
#[tactic(auto, unfolding(crate::specs::Arithmetic::pair_sum, crate::specs::Arithmetic::pair_sum_flags))]
pub fn add_pairs(hl: u16, pair: u16, flags: Flags) -> (u16, Flags)
    ensures value { result.0 ≡ pair_sum hl pair }
    ensures flags { result.1 ≡ pair_sum_flags hl pair flags }
{
    let sum = u32::from(hl) + u32::from(pair);
    ((sum % 65536) as u16, flags.with_carry(sum > 65535))
}

/// CMA: the accumulator with every bit complemented.
#[inline]
#[tactic(auto, unfolding(crate::specs::Arithmetic::complement_of))]
pub fn complement(a: u8) -> u8
    ensures { result ≡ complement_of a }
{
    !a
}

/// STC: the flags with CY set.
#[inline]
#[tactic(auto, unfolding(crate::specs::Arithmetic::carry_set))]
pub fn set_carry(flags: Flags) -> Flags
    ensures { result ≡ carry_set flags }
{
    flags.with_carry(true)
}

/// CMC: the flags with CY complemented.
#[inline]
#[tactic(auto, unfolding(crate::specs::Arithmetic::carry_turned))]
pub fn complement_carry(flags: Flags) -> Flags
    ensures { result ≡ carry_turned flags }
{
    flags.with_carry(!flags.carry)
}
