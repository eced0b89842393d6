//! The steps by which walks are shown, one after another.

/// How a walk reaches a point: from nothing, or from the points of earlier steps, by the numbers of those steps.
#[derive(Clone, Copy)]
pub enum Step {
    /// The main program begins.
    Begins,
    /// The instruction of the point of a step leads on to an address in its procedure.
    GoesOn(u32, u16),
    /// The instruction of the point of a step calls a procedure.
    Enters(u32),
    /// The instruction of the first step's point calls a procedure, which returns from the
    /// second's.
    ComesBack(u32, u32),
    /// Not a step: the walks of two steps reach one point with different counts.
    Differs(u32, u32),
}
