//! The procedures of a program.

ghost use Rattle.std.specs.Prelude.{◌≡◌, ◌<◌};
ghost use Rattle.frames80.specs.Procedures.{slot_of};

/// A procedure: the main program, which starts at the image's start address, or one that a call or RST reaches.
#[derive(Clone, Copy, PartialEq, Eq)]
pub enum Procedure {
    /// The main program.
    Main,
    /// A procedure that is entered at this address.
    Entry(u16),
}

/// How many procedures a table has places for: the main program, and one at each address.
pub const SLOTS: usize = 65_537;

/// The index of a procedure in a table of `SLOTS` entries: 0 for the main program, else one more
/// than the entry's address.
pub fn slot(procedure: Procedure) -> usize
    ensures is { result ≡ slot_of procedure }
    ensures within { result < 65537 }
{
    match procedure {
        Procedure::Main => 0,
        Procedure::Entry(entry) => usize::from(entry) + 1,
    }
}
