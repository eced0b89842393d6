//! How a run on a board ends.

use machine80::End;

/// How a run on a board ends.
#[derive(Clone, Copy, PartialEq, Eq)]
pub enum BoardEnd {
    /// As a run of the machine ends: by HLT, at an empty port, at an output past the limit, at a register-indirect store
    /// outside data, or at a PCHL to none of its declared targets.
    OfMachine(End),
    /// A load from this cell of a device, whose list has no byte left.
    CellEmpty(u16),
    /// A store at this cell of a device, when as many outputs were taken as the limit allows.
    CellRefused(u16),
}
