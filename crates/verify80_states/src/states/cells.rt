//! What is known of bytes of memory.

ghost use Rattle.std.specs.Prelude.{◌≡◌, ◌==◌, true};
ghost use Rattle.std.specs.List.{find};
ghost use Rattle.verify80_states.specs.Marks.{is_marked};

use crate::fitting::is_marked;
use crate::states::memory_after::StoredByte;
use crate::states::variables::{Variable, is_said};
use verify80_spans::ByteSpan;

/// What the byte at an address may be.
#[derive(Clone, Copy, PartialEq, Eq)]
pub struct Cell {
    pub at: u16,
    pub bytes: ByteSpan,
}

impl Cell {
    ghost use Rattle.verify80_states.specs.Cells.{IsCellInside, IsQuietCell, cut_cell, stored_cell};

    /// A cell that says nothing.
    pub const ANY: Cell = Cell {
        at: 0,
        bytes: ByteSpan::ANY,
    };

    /// Whether this cell, or a variable that a set names, says all that another cell does.
    fn is_inside(self, other: Cell, variables: &[Variable], set: u64) -> bool
        ensures { result ≡ true → IsCellInside variables.now set self other }
    {
        other.bytes == ByteSpan::ANY
            || self.at == other.at && self.bytes.is_inside(other.bytes)
            || is_said(variables, set, other)
    }

    /// Whether this cell says nothing, or its address is marked as quiet.
    fn is_quiet(self, quiet: &[bool]) -> bool
        ensures { result ≡ true → IsQuietCell (is_marked quiet.now) self }
    {
        self.bytes == ByteSpan::ANY || is_marked(quiet, self.at)
    }

    /// This cell when the byte at `at` is known to be one of `bytes` too.
    fn cut(self, at: u16, bytes: ByteSpan) -> Cell
        ensures { result ≡ cut_cell at bytes self }
    {
        if self.at == at {
            Cell {
                at: self.at,
                bytes: self.bytes.meet(bytes),
            }
        } else {
            self
        }
    }

    /// This cell after a byte is stored.
    fn stored(self, stored: StoredByte) -> Cell
        ensures { result ≡ stored_cell stored self }
    {
        if stored.at.first <= self.at && self.at <= stored.at.last {
            Cell {
                at: self.at,
                bytes: if stored.at.is_alone() {
                    stored.bytes
                } else {
                    ByteSpan::ANY
                },
            }
        } else {
            self
        }
    }
}

/// What up to eight bytes of memory may be, each at the address that its cell names.
#[derive(Clone, Copy, PartialEq, Eq)]
pub struct Cells {
    pub each: [Cell; 8],
}

impl Cells {
    ghost use Rattle.verify80_states.specs.Cells.{AreCellsInside, AreQuietCells, bytes_at, cells_after, cut_cells};

    /// Cells that say nothing.
    pub const ANY: Cells = Cells {
        each: [Cell::ANY; 8],
    };

    /// Whether these cells, with the variables that a set names, say all that other cells do, place by place.
    pub(crate) fn are_inside(self, other: Cells, variables: &[Variable], set: u64) -> bool
        ensures { result ≡ true → AreCellsInside variables.now set self other }
    {
        self.each
            .iter()
            .zip(other.each.iter())
            .all(|(inner, outer)| inner.is_inside(*outer, variables, set))
    }

    /// Whether these cells say something only of addresses that are marked as quiet.
    pub fn are_quiet(self, quiet: &[bool]) -> bool
        ensures { result ≡ true → AreQuietCells (is_marked quiet.now) self }
    {
        self.each.iter().all(|cell| cell.is_quiet(quiet))
    }

    /// The first cell at an address, if there is one.
    fn cell_at(self, at: u16) -> Option<Cell>
        ensures { result ≡ find (λ c. c.at == at) self.each }
    {
        self.each.iter().copied().find(|cell| cell.at == at)
    }

    /// What the byte at an address may be: any byte, if no cell is there.
    pub fn bytes_at(self, at: u16) -> ByteSpan
        ensures { result ≡ bytes_at self at }
    {
        self.cell_at(at).map_or(ByteSpan::ANY, |cell| cell.bytes)
    }

    /// The cells when the byte at `at` is known to be one of `bytes` too; unchanged if no address is given, or no cell is at it.
    pub fn cut(self, at: Option<u16>, bytes: ByteSpan) -> Cells
        ensures { result ≡ cut_cells at bytes self }
    {
        match at {
            None => self,
            Some(at) => Cells {
                each: self.each.map(|cell| cell.cut(at, bytes)),
            },
        }
    }

    /// The cells after a byte is stored, if one is.
    pub(crate) fn after(self, stored: Option<StoredByte>) -> Cells
        ensures { result ≡ cells_after stored self }
    {
        match stored {
            None => self,
            Some(stored) => Cells {
                each: self.each.map(|cell| cell.stored(stored)),
            },
        }
    }
}
