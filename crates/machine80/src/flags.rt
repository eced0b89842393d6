//! The condition flags of the 8080.

ghost use Rattle.std.specs.Prelude.{◌≡◌};
ghost use Rattle.machine80.specs.Flags.{flags_byte, flags_from, flags_of_result, holds};

use decode80::Condition;

/// The five condition flags.
#[derive(Clone, Copy, PartialEq, Eq, Debug)]
pub struct Flags {
    /// S: bit 7 of the result.
    pub sign: bool,
    /// Z: the result is 0.
    pub zero: bool,
    /// AC: a carry out of bit 3.
    pub auxiliary: bool,
    /// P: the result has an even number of one bits.
    pub parity: bool,
    /// CY: a carry out of bit 7, or a borrow.
    pub carry: bool,
}

impl Flags {
    /// The flags byte that PUSH PSW stores: S Z 0 AC 0 P 1 CY from bit 7.
    #[inline]
    #[tactic(auto, unfolding(crate::specs::Flags::flags_byte, crate::specs::Flags::bit_of))]
    pub fn byte(self) -> u8
        ensures { result ≡ flags_byte self }
    {
        128 * u8::from(self.sign)
            + 64 * u8::from(self.zero)
            + 16 * u8::from(self.auxiliary)
            + 4 * u8::from(self.parity)
            + 2
            + u8::from(self.carry)
    }

    /// The flags that POP PSW takes from `byte`, each from its bit; bits 5, 3 and 1 are ignored.
    #[inline]
    #[tactic(auto, unfolding(crate::specs::Flags::flags_from, crate::specs::Flags::has_bit))]
    pub fn from_byte(byte: u8) -> Flags
        ensures { result ≡ flags_from byte }
    {
        Flags {
            sign: byte >> 7 & 1 == 1,
            zero: byte >> 6 & 1 == 1,
            auxiliary: byte >> 4 & 1 == 1,
            parity: byte >> 2 & 1 == 1,
            carry: byte & 1 == 1,
        }
    }

    /// The flags of the result `byte`: S, Z and P by the byte, AC and CY as given.
    #[inline]
    #[tactic(auto, unfolding(crate::specs::Flags::flags_of_result, crate::specs::Flags::has_even_ones))]
    pub fn of_result(byte: u8, auxiliary: bool, carry: bool) -> Flags
        ensures { result ≡ flags_of_result byte auxiliary carry }
    {
        Flags {
            sign: byte >= 128,
            zero: byte == 0,
            auxiliary,
            parity: byte.count_ones() % 2 == 0,
            carry,
        }
    }

    /// Returns these flags with CY set to `carry`.
    #[inline]
    pub fn with_carry(self, carry: bool) -> Flags
        ensures { result ≡ record self { carry = carry } }
    {
        Flags { carry, ..self }
    }
}

/// Whether the condition holds of the flags: NZ and Z test the zero flag, NC and C the carry, PO and PE the parity, P
/// and M the sign.
#[inline]
#[tactic(auto, unfolding(crate::specs::Flags::holds))]
pub fn condition_holds(condition: Condition, flags: Flags) -> bool
    ensures { result ≡ holds condition flags }
{
    match condition {
        Condition::NonZero => !flags.zero,
        Condition::Zero => flags.zero,
        Condition::NoCarry => !flags.carry,
        Condition::Carry => flags.carry,
        Condition::ParityOdd => !flags.parity,
        Condition::ParityEven => flags.parity,
        Condition::Plus => !flags.sign,
        Condition::Minus => flags.sign,
    }
}
