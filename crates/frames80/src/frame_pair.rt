//! The register pairs of a frame.

/// A register pair that may hold a return address.
#[derive(Clone, Copy, PartialEq, Eq)]
pub enum FramePair {
    /// B (high) and C (low).
    Bc,
    /// D (high) and E (low).
    De,
    /// H (high) and L (low).
    Hl,
}
