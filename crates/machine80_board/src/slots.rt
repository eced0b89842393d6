//! The slots of places.

ghost use Rattle.std.specs.Prelude.{◌≡◌, ◌<◌};
ghost use Rattle.board80.specs.Board.{IsPlace};
ghost use Rattle.machine80_board.specs.Slots.{slot_count, slot_of};

use board80::Place;

/// How many slots there are: one for each port and each address.
pub(crate) const SLOTS: usize = 65_792;

/// The slot of a place: those of the ports come first, then those of the cells.
pub(crate) fn slot(place: Place) -> usize
    ensures slot { result ≡ slot_of place }
    ensures within { result < slot_count }
    ensures place { IsPlace place }
{
    match place {
        Place::Port(port) => usize::from(port),
        Place::Cell(address) => 256 + usize::from(address),
    }
}
