//! Why there is no explanation.

use std::alloc::{AllocError, AllocFailed};
use thiserror::Error;

/// Why there is no explanation.
#[derive(Clone, Copy, PartialEq, Eq, Debug, Error)]
pub enum Unexplained {
    /// More was found than the limit allows, and nothing of it shows the refusal.
    #[error("more points than the limit allows")]
    Limit,
    /// Every walk was followed to its end, and none of them shows the refusal; or the refusal is one that no way shows.
    #[error("nothing shows the refusal")]
    NotShown,
    /// Out of memory.
    #[error("out of memory")]
    Memory,
}

impl From<AllocError> for Unexplained {
    /// Running out of memory is the fault `Memory`.
    fn from(_: AllocError) -> Unexplained {
        Unexplained::Memory
    }
}

impl<T: Drop> From<AllocFailed<T>> for Unexplained {
    /// Running out of memory is the fault `Memory`; the value that couldn't be placed is dropped.
    fn from(_: AllocFailed<T>) -> Unexplained {
        Unexplained::Memory
    }
}
