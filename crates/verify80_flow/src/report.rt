//! What the verifier finds out about an image that it accepts.

use frames80::Procedure;

/// A procedure that a call or RST reaches.
#[derive(Clone, Copy, Debug, PartialEq, Eq)]
pub struct ProcRow {
    /// The address where it is entered.
    pub entry: u16,
    /// How many words it has popped from beneath its return address where it returns; 0 if it
    /// doesn't return.
    pub takes: u32,
    /// The most words that it pops from beneath its return address on any of its walks.
    pub wants: u32,
    /// The most bytes of stack that it needs below its return address, its callees' included.
    pub bound: u64,
    /// Whether a walk of the procedure returns.
    pub returns: bool,
}

/// The report on an image: its procedures by entry, the main program not among them, and the most
/// bytes that the program has on the stack.
#[derive(Debug, Drop)]
pub struct Report {
    /// The procedures that are reached, by entry.
    pub procedures: Vec<ProcRow>,
    /// How many bytes of stack the program needs: the greatest sum, over chains of calls from the
    /// main program, of what each caller has on the stack, its callee's return address, and what
    /// the last procedure has.
    pub stack_bytes: u64,
}

/// A point that walks reach: an address of a procedure, with the counts of its frame, which are the
/// same on each walk.
#[derive(Clone, Copy, PartialEq, Eq)]
pub struct ProgramPoint {
    /// The procedure.
    pub procedure: Procedure,
    /// The address.
    pub at: u16,
    /// How many words the procedure has on the stack. An entry starts with one, its return address.
    pub words: u32,
    /// How many words the procedure has popped from beneath its own.
    pub taken: u32,
}

/// What the analysis finds of a program: the report and the points.
#[derive(Drop)]
pub struct Analysis {
    /// The report.
    pub report: Report,
    /// The points that walks reach: by procedure, the main program first, then by entry, and by address.
    pub points: Vec<ProgramPoint>,
}
