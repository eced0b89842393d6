//! The lines of a regions text that may not be repeated.

ghost use Rattle.std.specs.Prelude.{◌≡◌, [], IfOk};
ghost use Rattle.image80.specs.Reading.{is_seen, HasSeen, SeesToo};

use crate::entry::Entry;
use crate::memory::zeros;
use std::alloc::{AllocError, Global};
use std::marker::Model;

/// The mark of an address that has a CASE line; an address without one is marked 0.
const SEEN: u8 = 1;

/// Which of the lines that may not be repeated were read: whether a STACK line was, and for each address whether a
/// CASE line was, so that a look-up takes the same time for any number of lines.
#[derive(Drop)]
pub(crate) struct Seen {
    /// Whether a STACK line was read.
    stack: bool,
    /// The mark of each of the 65536 addresses.
    marks: Vec<u8>,
}

impl Model for Seen {
    ghost use Rattle.std.specs.Prelude.{◌≡◌, length};
    ghost use Rattle.image80.specs.Reading.{SeenLines};

    ghost Value = { SeenLines };

    ghost view = { λ s. record { stack = s.stack; marks = s.marks.items } };

    ghost invariant = { λ s. length s.marks.items ≡ 65536 };
}

impl Seen {
    /// A table in which no line is noted yet.
    pub(crate) fn new(alloc: Global) -> Result<Self, AllocError>
        ensures { IfOk result (λ seen. HasSeen seen []) }
    {
        Ok(Seen {
            stack: false,
            marks: zeros(alloc, 65536)?,
        })
    }

    /// Whether a line with this range or case was noted and may not be repeated: a STACK line, or a CASE line for the
    /// same address.
    pub(crate) fn has(&self, entry: &Entry) -> bool
        ensures { result ≡ is_seen self.now entry.now }
    {
        match entry {
            Entry::Stack(_) => self.stack,
            Entry::Case(case) => self.marks[usize::from(case.at)] == SEEN,
            Entry::Code(_) | Entry::Data(_) => false,
        }
    }

    /// Notes that a STACK or CASE line was read; CODE and DATA lines may be repeated and change nothing.
    pub(crate) fn add(&mut self, entry: &Entry)
        ensures { SeesToo self.old entry.now self.new }
    {
        match entry {
            Entry::Stack(_) => self.stack = true,
            Entry::Case(case) => self.marks[usize::from(case.at)] = SEEN,
            Entry::Code(_) | Entry::Data(_) => {}
        }
    }
}
