//! Marks: the bytes of a state that tell it apart from others at its address. Each is one number.
//!
//! The bytes of a state are numbered: the registers from A to L, the cells, and the stack from SP on.

use decode80::Register;
use std::alloc::{AllocError, Global};
use verify80_follow::FollowedState;
use verify80_states::{ByteSpan, Known};

/// The registers in the order of their numbers.
const REGISTERS: [Register; 7] = [
    Register::A,
    Register::B,
    Register::C,
    Register::D,
    Register::E,
    Register::H,
    Register::L,
];
/// The number of the byte at SP.
pub(crate) const AT_SP: usize = 15;
/// A number by which the bits of sums are mixed.
const FACTOR: u64 = 0x9E37_79B9_7F4A_7C15;

/// How many bytes a state has.
pub(crate) fn count_bytes(state: &FollowedState) -> usize {
    AT_SP.saturating_add(state.bytes().unwrap_or(&[]).len())
}

/// What the byte with a number may be.
fn byte_of(state: &FollowedState, number: usize) -> ByteSpan {
    let known = state.known;
    if let Some(register) = REGISTERS.get(number) {
        return known.byte(*register);
    }
    match known.cells.each.get(number.wrapping_sub(REGISTERS.len())) {
        Some(cell) => cell.bytes,
        None => {
            let bytes = state.bytes().unwrap_or(&[]);
            let place = number.wrapping_sub(AT_SP);
            bytes.get(place).copied().unwrap_or(ByteSpan::ANY)
        }
    }
}

/// Marks for the bytes of a state that are one number, and are not in another.
///
/// # Errors
/// `AllocError` if memory runs out.
pub(crate) fn marks_between(
    alloc: Global,
    state: &FollowedState,
    plain: &FollowedState,
) -> Result<Vec<bool>, AllocError> {
    let mut marks = Vec::with_capacity(alloc, count_bytes(state))?;
    for number in 0..count_bytes(state) {
        marks.push(byte_of(state, number).is_alone() && !byte_of(plain, number).is_alone())?;
    }
    Ok(marks)
}

/// A state of which `known` is known, without its marked bytes.
///
/// # Errors
/// `AllocError` if memory runs out.
pub(crate) fn without_marked(
    alloc: Global,
    state: &FollowedState,
    known: Known,
    marks: &[bool],
) -> Result<FollowedState, AllocError> {
    let mut plain = with_known(alloc, state, known)?;
    for (register, mark) in REGISTERS.iter().zip(marks.iter()) {
        if *mark {
            plain.known = plain.known.with_byte(*register, ByteSpan::ANY);
        }
    }
    let marks = marks.get(REGISTERS.len()..).unwrap_or(&[]);
    for (cell, mark) in plain.known.cells.each.iter_mut().zip(marks.iter()) {
        if *mark {
            cell.bytes = ByteSpan::ANY;
        }
    }
    let marks = marks.get(AT_SP - REGISTERS.len()..).unwrap_or(&[]);
    if let Some(bytes) = &mut plain.stack {
        for (byte, mark) in bytes.iter_mut().zip(marks.iter()) {
            if *mark {
                *byte = ByteSpan::ANY;
            }
        }
    }
    Ok(plain)
}

/// A state of which something else is known.
///
/// # Errors
/// `AllocError` if memory runs out.
pub(crate) fn with_known(
    alloc: Global,
    state: &FollowedState,
    known: Known,
) -> Result<FollowedState, AllocError> {
    let stack = match state.bytes() {
        Some(bytes) => Some(Vec::from_slice(alloc, bytes)?),
        None => None,
    };
    Ok(FollowedState {
        at: state.at,
        known,
        stack,
        beside: state.beside,
        hint: 0,
    })
}

/// A sum of what tells a state apart: its address, its marked bytes, and how many bytes it has.
pub(crate) fn sum_of(state: &FollowedState, marks: &[bool]) -> u64 {
    let mut sum = 2 * u64::from(state.at) + u64::from(state.stack.is_some());
    for (number, mark) in marks.iter().enumerate() {
        let byte = byte_of(state, number).first;
        let value = if *mark { u64::from(byte) } else { 256 };
        sum = (sum.rotate_left(23) ^ value).wrapping_mul(FACTOR);
    }
    sum
}
