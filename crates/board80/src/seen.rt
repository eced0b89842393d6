//! What the lines of a board have taken so far.

ghost use Rattle.std.specs.Prelude.{◌≡◌, ◌↔◌, ℕ, List, [], ◌∷◌, ◌++◌, IsTrue, IfOk};
ghost use Rattle.board80.specs.Board.{in_device, is_inside, is_place_inside, is_source_inside, IsFree, IsProper};
ghost use Rattle.board80.specs.Reading.{HasSeen, is_marked};
ghost use Rattle.board80.specs.declared.line.Line.{Line};

use crate::answers::Answers;
use crate::line::{Kind, Line};
use crate::place::Place;
use crate::slots::{SLOTS, Slots, are_free, mark, no_marks};
use std::alloc::{AllocError, Global};
use std::marker::Model;

/// What lines have taken, so that a look-up takes the same time for any number of lines: the slots that are taken, and
/// the addresses of devices.
#[derive(Drop)]
pub(crate) struct Seen {
    /// The marks of the slots that are taken.
    taken: Vec<bool>,
    /// The marks of the addresses of devices.
    devices: Vec<bool>,
}

impl Model for Seen {
    ghost use Rattle.std.specs.Prelude.{◌≡◌, length};
    ghost use Rattle.board80.specs.Reading.{SeenSlots, slot_count};

    ghost Value = { SeenSlots };

    ghost view = { λ s. record { taken = s.taken.items; devices = s.devices.items } };

    ghost invariant = { λ s. record {
      taken : length s.taken.items ≡ slot_count;
      devices : length s.devices.items ≡ 65536;
    } };
}

impl Seen {
    /// Nothing is taken yet.
    pub(crate) fn new(alloc: Global) -> Result<Seen, AllocError>
        ensures { IfOk result (λ seen. HasSeen seen []) }
    {
        Ok(Seen {
            taken: no_marks(alloc, SLOTS)?,
            devices: no_marks(alloc, 65536)?,
        })
    }

    /// Whether the line, which must be proper, takes nothing that is taken.
    pub(crate) fn leaves_free(&self, line: &Line) -> bool
        requires { IsProper line.now }
        ensures { (lines : List Line) → HasSeen self.now lines → (IsTrue result ↔ IsFree lines line.now) }
    {
        are_free(&self.taken, line.slots())
    }

    /// Whether the cells that the line reads or goes by are those of devices.
    pub(crate) fn is_inside(&self, line: &Line) -> bool
        requires { IsProper line.now }
        ensures { (lines : List Line) → HasSeen self.now lines → result ≡ is_inside lines line.now }
    {
        match line {
            Line::Memory(_, _) | Line::Interrupt(_) => true,
            Line::Reads(place, Answers::Listed(_)) => self.is_place_inside(*place),
            Line::Reads(place, Answers::By(table)) => {
                self.is_place_inside(*place) && self.is_place_inside(table.source)
            }
        }
    }

    /// Whether the place is a port or a cell of a device.
    fn is_place_inside(&self, place: Place) -> bool
        ensures { (lines : List Line) → HasSeen self.now lines → result ≡ is_place_inside lines place }
    {
        match place {
            Place::Port(_) => true,
            Place::Cell(address) => self.devices[usize::from(address)],
        }
    }

    /// Notes what the line takes; it must be proper.
    pub(crate) fn add(&mut self, line: &Line)
        requires { IsProper line.now }
        ensures { (lines : List Line) → HasSeen self.old lines → HasSeen self.new (lines ++ line.now ∷ []) }
    {
        mark(&mut self.taken, line.slots());
        if let Line::Memory(Kind::Device, range) = line {
            mark(&mut self.devices, Slots::of(*range));
        }
    }
}
