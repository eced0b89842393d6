//! The depths of a program's frames, and its calls.

use frames80::Procedure;

/// The depth of a frame of a procedure, in bytes; negative if the stack has shrunk since its start.
#[derive(Clone, Copy)]
pub struct Depth {
    /// The procedure.
    pub procedure: Procedure,
    /// By how many bytes the stack has grown since the procedure's start, its return address not
    /// counted.
    pub depth: i64,
}

/// A call: the procedure and the address where it stands, the depth of the frame there, and the address that it calls.
#[derive(Clone, Copy)]
pub struct CallSite {
    /// The procedure that calls.
    pub caller: Procedure,
    /// The address of the call.
    pub at: u16,
    /// By how many bytes the stack has grown since the caller's start, its return address not
    /// counted.
    pub depth: i64,
    /// The address that is called, which is the callee's entry.
    pub target: u16,
}
