//! A byte that waits at a port, a given number of times.

/// A byte that waits at a port, a given number of times.
#[derive(Clone, Copy, PartialEq, Eq)]
pub struct Repeated {
    /// The port.
    pub port: u8,
    /// How many times the byte waits there, at least once.
    pub count: u64,
    /// The byte.
    pub byte: u8,
}
