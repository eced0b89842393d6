//! Bytes of memory that are to stay inside a span, whatever is stored there.

use crate::landmarks::Landmarks;
use std::alloc::{AllocError, Global};
use verify80_spans::{ByteSpan, Span};
use verify80_states::{Known, Variable, is_bit};

/// How many variables a program has, at most: a state has a bit for each.
const MOST: usize = 64;

/// The variables of a program, as far as their spans have grown.
#[derive(Drop)]
pub struct Variables {
    list: Vec<Variable>,
    /// How often each has grown; 0 while nothing was stored there.
    growths: Vec<u32>,
}

impl Variables {
    /// A variable for each of these addresses, which are ascending: of the first 64.
    ///
    /// # Errors
    /// `AllocError` if memory runs out.
    pub fn new(alloc: Global, addresses: &[u16]) -> Result<Variables, AllocError> {
        let mut list = Vec::new(alloc);
        for at in addresses.iter().take(MOST) {
            list.push(Variable {
                at: *at,
                bytes: ByteSpan::ANY,
            })?;
        }
        let growths = vec![in alloc; 0; list.len()]?;
        Ok(Variables { list, growths })
    }

    /// The variables in the order of their bits.
    pub fn list(&self) -> &[Variable] {
        &self.list
    }

    /// The number of the first variable from an address on.
    fn first_from(&self, at: u16) -> usize {
        self.list.partition_point(|variable| variable.at < at)
    }

    /// The bytes that may be at an address: those of the variable there, if its bit is set, otherwise any.
    pub fn bytes_at(&self, set: u64, at: u16) -> ByteSpan {
        let number = self.first_from(at);
        match self.list.get(number) {
            Some(variable) if variable.at == at && is_bit(set, number) => variable.bytes,
            _ => ByteSpan::ANY,
        }
    }

    /// A bit for each variable that has one of its bytes in a state: by the state's bits, or by its cells.
    pub fn set_in(&self, state: Known) -> u64 {
        let mut set = state.set;
        if self.list.is_empty() {
            return set;
        }
        for cell in &state.cells.each {
            let number = self.first_from(cell.at);
            if let (Some(variable), Some(growths)) = (
                self.list.get(number),
                self.growths.get(number),
            )
                && variable.at == cell.at
                && *growths > 0
                && cell.bytes.is_inside(variable.bytes)
            {
                set = set | bit_of(number);
            }
        }
        set
    }

    /// The numbers of the variables in a span of addresses: the first one, and the one behind the last.
    pub fn numbers_in(&self, span: Span) -> (usize, usize) {
        let end = self
            .list
            .partition_point(|variable| variable.at <= span.last);
        (self.first_from(span.first), end)
    }

    /// Notes that one of these bytes may be stored at the variable with a number, and answers its address if its span has grown by that.
    pub fn grow(&mut self, landmarks: &Landmarks, number: usize, bytes: ByteSpan) -> Option<u16> {
        match (self.list.get_mut(number), self.growths.get_mut(number)) {
            (Some(variable), Some(growths)) if *growths == 0 || !bytes.is_inside(variable.bytes) =>
                {
                    variable.bytes = if *growths == 0 {
                        bytes
                    } else {
                        landmarks.grown_bytes(variable.bytes, bytes, *growths)
                    };
                    *growths = growths.saturating_add(1);
                    Some(variable.at)
                }
            _ => None,
        }
    }
}

/// The bit of the variable with a number.
fn bit_of(number: usize) -> u64 {
    1 << number.min(63)
}
