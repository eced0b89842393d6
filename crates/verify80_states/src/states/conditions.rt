//! What a condition says of registers and flags.

ghost use Rattle.std.specs.Prelude.{◌≡◌};
ghost use Rattle.verify80_states.specs.Given.{given_flag, zero_bytes, carry_bytes, cut_to, given_zero, given_carry, given_sign, given};

use crate::states::known::Known;
use decode80::Condition;
use verify80_spans::ByteSpan;

/// What is left if a flag is as wanted: what is known if it is known to be, `None` if it is known not to be, and `left` if it isn't known.
fn given_flag(known: Option<bool>, wanted: bool, state: Known, left: Option<Known>) -> Option<Known>
    ensures { result ≡ given_flag known wanted state left }
{
    match known {
        None => left,
        Some(known) => match (known, wanted) {
            (true, true) | (false, false) => Some(state),
            (true, false) | (false, true) => None,
        },
    }
}

/// The bytes that A may be if Z is as wanted, given what A was compared with; `None` if there are none.
fn zero_bytes(compared: Option<u8>, wanted: bool, a: ByteSpan) -> Option<ByteSpan>
    ensures { result ≡ zero_bytes compared wanted a }
{
    match (compared, wanted) {
        (None, _) => Some(a),
        (Some(byte), true) => a.only(byte),
        (Some(byte), false) => a.without(byte),
    }
}

/// The bytes that A may be if CY is as wanted, given what A was compared with; `None` if there are none.
fn carry_bytes(compared: Option<u8>, wanted: bool, a: ByteSpan) -> Option<ByteSpan>
    ensures { result ≡ carry_bytes compared wanted a }
{
    match (compared, wanted) {
        (None, _) => Some(a),
        (Some(byte), true) => a.below(byte),
        (Some(byte), false) => a.from(byte),
    }
}

/// What is known if A holds one of `bytes`; `None` if there are none.
fn cut_to(bytes: Option<ByteSpan>, state: Known) -> Option<Known>
    ensures { result ≡ cut_to bytes state }
{
    bytes.map(|bytes| state.cut(bytes))
}

/// What is left if Z is as wanted; `None` if it can't be.
fn given_zero(wanted: bool, state: Known) -> Option<Known>
    ensures { result ≡ given_zero wanted state }
{
    let bytes = zero_bytes(state.compared, wanted, state.a);
    let zero = Some(wanted);
    given_flag(
        state.zero,
        wanted,
        state,
        cut_to(bytes, Known { zero, ..state }),
    )
}

/// What is left if CY is as wanted; `None` if it can't be.
fn given_carry(wanted: bool, state: Known) -> Option<Known>
    ensures { result ≡ given_carry wanted state }
{
    let bytes = carry_bytes(state.compared, wanted, state.a);
    let carry = Some(wanted);
    given_flag(
        state.carry,
        wanted,
        state,
        cut_to(bytes, Known { carry, ..state }),
    )
}

/// What is left if S is as wanted; `None` if it can't be.
fn given_sign(wanted: bool, state: Known) -> Option<Known>
    ensures { result ≡ given_sign wanted state }
{
    let sign = Some(wanted);
    given_flag(state.sign, wanted, state, Some(Known { sign, ..state }))
}

/// What is left if a condition holds, or if it doesn't; `None` if that can't be.
pub fn given(condition: Condition, holds: bool, state: Known) -> Option<Known>
    ensures { result ≡ given condition holds state }
{
    match condition {
        Condition::Zero => given_zero(holds, state),
        Condition::NonZero => given_zero(!holds, state),
        Condition::Carry => given_carry(holds, state),
        Condition::NoCarry => given_carry(!holds, state),
        Condition::Minus => given_sign(holds, state),
        Condition::Plus => given_sign(!holds, state),
        Condition::ParityOdd | Condition::ParityEven => Some(state),
    }
}
