//! A point of a walk.

ghost use Rattle.std.specs.Prelude.{◌≡◌, IfOk};

use frames80::Frame;
use std::alloc::{AllocError, Global};
use verify80_flow::Procedure;

/// A point that a walk reaches: the procedure, the address, and what is known of its stack and register pairs there.
#[derive(Drop)]
pub struct Point {
    /// The procedure.
    pub procedure: Procedure,
    /// The address of the instruction.
    pub at: u16,
    /// The frame before the instruction.
    pub frame: Frame,
}

impl Point {
    /// A copy of the point.
    ///
    /// # Errors
    /// `AllocError` if memory runs out.
    pub fn copy(&self, alloc: Global) -> Result<Point, AllocError>
        ensures { IfOk result (λ point. point ≡ self.now) }
    {
        Ok(Point {
            procedure: self.procedure,
            at: self.at,
            frame: self.frame.copy(alloc)?,
        })
    }
}
