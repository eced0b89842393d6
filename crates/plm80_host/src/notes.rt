//! The journal of a run, which only proofs read. It takes no memory, and its functions do nothing when they run.
//!
//! Its value is tied to nothing: that a note is made of what was done, where it was done, is to be seen in `host.rt` and below it.

ghost use Rattle.std.specs.Prelude.{◌≡◌};
ghost use Rattle.std.specs.Borrow.{ftrue};
ghost use Rattle.plm80_console.specs.Journal.{Journal};

use std::marker::Model;

/// The journal of a run: what was done so far.
#[derive(Drop)]
pub struct Notes {
    pub ghost journal: { Journal },
}

impl Model for Notes {
    ghost also_owns = { λ _. ftrue };
}

/// A thing that was done at the host.
#[derive(Clone, Copy)]
pub enum Note<'a> {
    /// The file of a path was read whole.
    Read(&'a str, &'a [u8]),
    /// The file of a path was read in pieces.
    ReadPieces(&'a str, &'a Notes),
    /// Standard input was read whole.
    Input(&'a [u8]),
    /// The file of a path was replaced by one with these bytes.
    Written(&'a str, &'a [u8]),
    /// A piece of a file was read, or a piece was written to an output.
    Piece(&'a [u8]),
    /// The pieces that an output took were printed.
    Printed(&'a Notes),
    /// A fault was reported.
    Reported,
    /// A fault of arguments or files was reported.
    Blamed,
    /// The file of a path was to be written and wasn't; whether it may have neither its old bytes nor its new ones, since writing it in
    /// its place failed.
    Unwritten(&'a str, bool),
    /// A copy of an object file was kept under a path.
    Copied(&'a str),
}

impl Notes {
    ghost use Rattle.plm80_console.specs.Journal.{nothing_done};
    ghost use Rattle.plm80_host.specs.Noted.{noted};

    /// A journal of nothing.
    pub fn new() -> Notes
        ensures { result.journal ≡ nothing_done }
    {
        Notes {}
    }

    /// The journal with one note more.
    pub fn with(&self, _note: &Note<'_>) -> Notes
        ensures { result.journal ≡ noted self.now.journal _note.now }
    {
        Notes {}
    }
}
