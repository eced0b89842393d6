//! Bytes of quiet memory that stay inside a span once they are there.

ghost use Rattle.std.specs.Prelude.{◌≡◌, true};
ghost use Rattle.verify80_states.specs.Variables.{IsSaid, is_bit, takes};

use crate::states::cells::Cell;
use crate::states::memory_after::StoredByte;
use verify80_spans::ByteSpan;

/// A byte of quiet memory: whatever is stored where it may be is one of `bytes`.
#[derive(Clone, Copy)]
pub struct Variable {
    pub at: u16,
    pub bytes: ByteSpan,
}

impl Variable {
    /// Whether a byte that is stored, if one is, is one of the variable's bytes or can't be where the variable is.
    pub(crate) fn takes(self, stored: Option<StoredByte>) -> bool
        ensures { result ≡ takes self stored }
    {
        match stored {
            None => true,
            Some(StoredByte { at, bytes }) => {
                !(at.first <= self.at && self.at <= at.last)
                    || self.bytes.first <= bytes.first && bytes.last <= self.bytes.last
            }
        }
    }
}

/// Whether the bit with a number is set in a set of 64.
pub fn is_bit(set: u64, number: usize) -> bool
    ensures { result ≡ is_bit set number }
{
    number < 64 && (set >> number) % 2 == 1
}

/// Whether a variable that a set names says all that a cell does.
pub(crate) fn is_said(variables: &[Variable], set: u64, cell: Cell) -> bool
    ensures { result ≡ true → IsSaid variables.now set cell }
{
    variables.iter().enumerate().any(|(number, variable)| {
        is_bit(set, number) && variable.at == cell.at && variable.bytes.is_inside(cell.bytes)
    })
}
