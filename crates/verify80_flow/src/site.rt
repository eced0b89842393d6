//! Where an instruction stands.

use frames80::{Procedure, Role};
use frames80_interned::FrameId;

/// A point with its instruction: the procedure and its role, the address and that after the
/// instruction, the index of the point, and the number of its frame.
#[derive(Clone, Copy)]
pub(crate) struct Site {
    pub(crate) procedure: Procedure,
    pub(crate) role: Role,
    pub(crate) at: u16,
    /// The address after the instruction.
    pub(crate) next: u16,
    /// The index of the point in the table.
    pub(crate) point: usize,
    /// The number of the frame before the instruction.
    pub(crate) frame: FrameId,
}
