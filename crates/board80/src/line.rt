//! The lines of a board.

ghost use Rattle.std.specs.Prelude.{◌≡◌, ◌+◌, ◌≤◌, ℕ};
ghost use Rattle.board80.specs.Board.{IsProper, interrupt_of, range_of, takes, taken_fault};
ghost use Rattle.board80.specs.Reading.{in_slots, slot_count};

use crate::answers::Answers;
use crate::fault::BoardFault;
use crate::place::Place;
use crate::slots::{CELLS, INTERRUPTS, PORTS, Slots};
use image80::Range;

/// What lies at the addresses of a range.
#[derive(Clone, Copy, PartialEq, Eq)]
pub enum Kind {
    /// Memory that a program can only read.
    Rom,
    /// Memory that keeps what a program stores.
    Ram,
    /// A device: what is read there need not be what was stored.
    Device,
}

/// A line of a board's text, after the first.
#[derive(Drop)]
pub enum Line {
    /// `ROM`, `RAM` or `DEVICE`: a range of memory, which has an address at least.
    Memory(Kind, Range),
    /// `INTERRUPT`: the address of an interrupt's handler, as 0038 of RST 7.
    Interrupt(u16),
    /// `PORT` or `AT`: what a port or a cell answers.
    Reads(Place, Answers),
}

impl Line {
    /// The range of a line of this kind of memory, `None` for any other line.
    pub fn range(&self, kind: Kind) -> Option<Range>
        ensures { result ≡ range_of kind self.now }
    {
        match (kind, self) {
            (Kind::Rom, Line::Memory(Kind::Rom, range)) => Some(*range),
            (Kind::Ram, Line::Memory(Kind::Ram, range)) => Some(*range),
            (Kind::Device, Line::Memory(Kind::Device, range)) => Some(*range),
            _ => None,
        }
    }

    /// The address of an INTERRUPT line, `None` for any other line.
    pub fn interrupt(&self) -> Option<u16>
        ensures { result ≡ interrupt_of self.now }
    {
        match self {
            Line::Interrupt(address) => Some(*address),
            _ => None,
        }
    }

    /// The slots that the line takes for itself. A range must lie in memory.
    pub(crate) fn slots(&self) -> Slots
        requires { IsProper self.now }
        ensures taken { (slot : ℕ) → takes self.now slot ≡ in_slots result slot }
        ensures within { result.first + result.count ≤ slot_count }
    {
        match self {
            Line::Memory(_, range) => Slots::of(*range),
            Line::Interrupt(address) => Slots::one(INTERRUPTS + usize::from(*address)),
            Line::Reads(Place::Cell(address), _) => Slots::one(CELLS + usize::from(*address)),
            Line::Reads(Place::Port(port), _) => Slots::one(PORTS + usize::from(*port)),
        }
    }

    /// The fault if the line, which has this number, takes what a line before it takes.
    pub(crate) fn taken_fault(&self, number: usize) -> BoardFault
        ensures { result ≡ taken_fault self.now number }
    {
        match self {
            Line::Memory(_, _) => BoardFault::RangesOverlap(number),
            Line::Interrupt(_) => BoardFault::AddressTwice(number),
            Line::Reads(Place::Cell(_), _) => BoardFault::AddressTwice(number),
            Line::Reads(Place::Port(_), _) => BoardFault::PortTwice(number),
        }
    }
}
