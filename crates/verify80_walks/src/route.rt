//! The calls and the way that lead to a point.

use crate::point::Point;
use verify80_flow::Procedure;

/// A call: the procedure that calls, the address of the call, and the address that is called.
#[derive(Clone, Copy)]
pub struct Call {
    /// The procedure that calls.
    pub caller: Procedure,
    /// The address of the call.
    pub at: u16,
    /// The address that is called, where the callee is entered.
    pub target: u16,
}

/// How a point is reached: the calls that lead from the main program to its procedure, and the way through the procedure.
#[derive(Drop)]
pub struct Route {
    /// The calls, from the main program's on; none for a point of the main program.
    pub calls: Vec<Call>,
    /// The points from the procedure's entry to the point that is reached. Points inside the
    /// procedures that it calls aren't among them.
    pub way: Vec<Point>,
}
