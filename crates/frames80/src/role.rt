//! What a procedure is.

/// What a procedure is: the main program, or one that is called.
#[derive(Clone, Copy, Debug, PartialEq, Eq)]
pub enum Role {
    /// The main program, which starts with an empty stack and has no place to return to. `top` is the address just above
    /// the stack, the one word that it may load into the stack pointer.
    Main { top: u16 },
    /// A procedure that a call or RST reaches.
    Entry,
}
