//! How a run on a board ended.

use machine80_board::BoardEnd;

/// How a run on a board ended, or was stopped.
#[derive(Clone, Copy, PartialEq, Eq)]
pub struct BoardEnded {
    /// How the run ended; `None` if the steps were used up.
    pub end: Option<BoardEnd>,
    /// The number of steps that were made, the ending one counted.
    pub steps: u64,
    /// The program counter after the last step; at an end, before the ending step.
    pub at: u16,
}
