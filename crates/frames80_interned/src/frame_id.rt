//! The number of a frame.

use std::marker::Model;

/// The number of a frame in the `Frames` that it comes from.
#[derive(Clone, Copy, PartialEq, Eq)]
pub struct FrameId {
    number: u32,
}

impl Model for FrameId {
    ghost use Rattle.std.specs.Prelude.{ℕ};

    ghost Value = { ℕ };

    ghost view = { λ id. id.number };

    ghost inverse = { λ n. record { number = n } };
}

impl FrameId {
    ghost use Rattle.std.specs.Prelude.{◌≡◌};

    /// The id of the frame with this number.
    pub(crate) fn new(number: u32) -> FrameId
        ensures { result ≡ number }
    {
        FrameId { number }
    }

    /// The index of the frame in the list of distinct frames.
    pub(crate) fn index(self) -> usize
        ensures { result ≡ self }
    {
        self.number as usize
    }
}
