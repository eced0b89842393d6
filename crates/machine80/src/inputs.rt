//! The bytes that a run is given.

/// The bytes that wait at the ports, each with its port, in order.
///
/// The bytes of one port are taken in the order of the list, wherever the bytes of other ports stand
/// between them.
#[derive(Debug, Drop)]
pub struct Inputs {
    /// A port and a byte that waits there, for each byte.
    pub pairs: Vec<(u8, u8)>,
}
