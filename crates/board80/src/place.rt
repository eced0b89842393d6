//! Where a program reads a device.

/// A port, or a cell of a device in memory.
#[derive(Clone, Copy, PartialEq, Eq)]
pub enum Place {
    /// A port, read by IN and written by OUT.
    Port(u8),
    /// An address of a device, read by loads and written by stores.
    Cell(u16),
}
