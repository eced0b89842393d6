//! A board.

ghost use Rattle.std.specs.Prelude.{◌≡◌, IfOk};
ghost use Rattle.board80.specs.Board.{IsBoard, interrupts_of, ranges_of};

use crate::line::{Kind, Line};
use image80::Range;
use std::alloc::{AllocError, Global};
use std::marker::Model;

/// A board: its memory, devices and interrupts, and what its ports and cells answer, as lines in their order.
///
/// No address is in two ranges; no port, no cell and no interrupt stands twice; and a cell that is read, or that a
/// table goes by, lies in a DEVICE range of an earlier line.
#[derive(Drop)]
pub struct Board {
    /// The lines, in order.
    lines: Vec<Line>,
}

impl Model for Board {
    ghost use Rattle.std.specs.Prelude.{List};
    ghost use Rattle.board80.specs.Board.{IsBoard};
    ghost use Rattle.board80.specs.declared.line.Line.{Line};

    ghost Value = { List Line };

    ghost view = { λ b. b.lines.items };

    ghost invariant = { λ b. IsBoard b.lines.items };
}

impl Board {
    /// Makes a board of lines, which must keep the rules of a board.
    pub(crate) fn from_lines(lines: Vec<Line>) -> Board
        requires { IsBoard lines.items }
        ensures { result ≡ lines.items }
    {
        Board { lines }
    }

    /// The lines, in the order of the text.
    pub fn lines(&self) -> &[Line]
        ensures lines { result.now ≡ self.now }
        ensures rules { IsBoard self.now }
    {
        &self.lines
    }

    /// The ranges of one kind of memory, in the order of the text.
    ///
    /// # Errors
    /// `AllocError` only if memory runs out.
    pub fn ranges(&self, alloc: Global, kind: Kind) -> Result<Vec<Range>, AllocError>
        ensures { IfOk result (λ ranges. ranges.items ≡ ranges_of kind self.now) }
    {
        self.lines
            .iter()
            .filter_map(|line| line.range(kind))
            .collect(alloc)
    }

    /// The addresses of interrupts' handlers, in the order of the text.
    ///
    /// # Errors
    /// `AllocError` only if memory runs out.
    pub fn interrupts(&self, alloc: Global) -> Result<Vec<u16>, AllocError>
        ensures { IfOk result (λ addresses. addresses.items ≡ interrupts_of self.now) }
    {
        self.lines
            .iter()
            .filter_map(|line| line.interrupt())
            .collect(alloc)
    }
}
