//! What an instruction stores, and what becomes of what is known of memory.

ghost use Rattle.std.specs.Prelude.{◌≡◌};
ghost use Rattle.verify80_states.specs.Following.{address_after, is_steady, one_byte, only_address, source_after, stored_bytes};

use crate::states::following::{index_words, loaded};
use crate::states::known::Known;
use crate::states::variables::Variable;
use decode80::{Instr, Register, ahead};
use verify80_spans::{ByteSpan, Span};

/// A byte that an instruction stores: where, and which.
#[derive(Clone, Copy)]
pub struct StoredByte {
    pub at: Span,
    pub bytes: ByteSpan,
}

/// A store of one byte: one of `bytes`, at one of the addresses of `at`.
fn one_byte(at: Span, bytes: ByteSpan) -> (Option<StoredByte>, Option<StoredByte>)
    ensures { result ≡ one_byte at bytes }
{
    (Some(StoredByte { at, bytes }), None)
}

/// The bytes that an instruction stores where a pair points to or at an address that it names: none, one, or the two of SHLD, the low
/// one first. What it pushes isn't among them.
pub fn stored_bytes(
    code: &[Option<u8>],
    instr: Instr,
    state: Known,
) -> (Option<StoredByte>, Option<StoredByte>)
    ensures { result ≡ stored_bytes code.now instr state }
{
    let pointed = state.hl.words;
    match instr {
        Instr::Store(register) => one_byte(pointed, state.byte(register)),
        Instr::MviMemory(byte) => one_byte(pointed, ByteSpan::alone(byte)),
        Instr::InrMemory => one_byte(pointed, loaded(code, state.cells, pointed).next()),
        Instr::DcrMemory => one_byte(pointed, loaded(code, state.cells, pointed).previous()),
        Instr::Stax(pair) => one_byte(index_words(state, pair), state.a),
        Instr::Sta(address) => one_byte(Span::alone(address), state.a),
        Instr::Shld(address) => (
            Some(StoredByte {
                at: Span::alone(address),
                bytes: state.hl.low,
            }),
            Some(StoredByte {
                at: Span::alone(ahead(address, 1)),
                bytes: state.hl.high(),
            }),
        ),
        _ => (None, None),
    }
}

/// The only address of a span; `None` if it has several.
fn only_address(span: Span) -> Option<u16>
    ensures { result ≡ only_address span }
{
    span.is_alone().then_some(span.first)
}

/// An address, unless a byte is stored that may be there: then `None`.
fn address_after(stored: Option<StoredByte>, address: Option<u16>) -> Option<u16>
    ensures { result ≡ address_after stored address }
{
    match (stored, address) {
        (Some(stored), Some(at)) if stored.at.first <= at && at <= stored.at.last => None,
        (_, address) => address,
    }
}

/// The address of a byte of memory that A has after an instruction, if one is known. `stored` is what the instruction stores, and `left`
/// what was known before it, unless A is written.
pub(crate) fn source_after(
    instr: Instr,
    state: Known,
    stored: (Option<StoredByte>, Option<StoredByte>),
    left: Option<u16>,
) -> Option<u16>
    ensures { result ≡ source_after instr state stored left }
{
    match instr {
        Instr::Lda(address) | Instr::Sta(address) => Some(address),
        Instr::Load(Register::A) | Instr::Store(Register::A) => only_address(state.hl.words),
        _ => address_after(stored.1, address_after(stored.0, left)),
    }
}

/// Whether each byte that an instruction stores where a variable may be is one of the variable's bytes.
pub(crate) fn is_steady(code: &[Option<u8>], instr: Instr, state: Known, variable: Variable) -> bool
    ensures { result ≡ is_steady code.now instr state variable }
{
    let (first, second) = stored_bytes(code, instr, state);
    variable.takes(first) && variable.takes(second)
}
