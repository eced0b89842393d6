//! What a program puts out.

use board80::Place;

/// A byte that was put out at a port, or stored at a cell of a device.
#[derive(Clone, Copy, PartialEq, Eq)]
pub struct Output {
    /// The port, or the cell.
    pub place: Place,
    /// The byte.
    pub byte: u8,
}
