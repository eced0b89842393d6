//! Where states are followed from.

use std::alloc::{AllocError, Global};
use verify80_follow::{Beside, FollowedState, RunKind};
use verify80_states::{ByteSpan, Known};

/// Where states are followed from.
#[derive(Clone, Copy)]
pub(crate) enum Start<'a> {
    /// A program's start, and the addresses at which handlers begin the program anew, with an empty stack.
    Program {
        at: u16,
        run: RunKind,
        anew: &'a [u16],
    },
    /// A handler, which gives all back.
    Handler {
        at: u16,
    },
    /// A procedure that calls are to step over.
    Procedure {
        at: u16,
    },
}

impl Start<'_> {
    /// The address.
    pub fn at(self) -> u16 {
        match self {
            Start::Program { at, .. } | Start::Handler { at } | Start::Procedure { at } => at,
        }
    }

    /// Whether the word to which it returns is on the stack there.
    pub fn is_entered(self) -> bool {
        !matches!(self, Start::Program { .. })
    }

    /// The states from which others are followed, that at the address first.
    ///
    /// # Errors
    /// `AllocError` if memory runs out.
    pub fn states(self, alloc: Global) -> Result<Vec<FollowedState>, AllocError> {
        let mut states = Vec::new(alloc);
        match self {
            Start::Program { at, run, anew } => {
                states.push(state_at(alloc, at, run.is_set.then_some(0), Beside::NOTHING)?)?;
                for at in anew {
                    states.push(state_at(alloc, *at, Some(0), Beside::NOTHING)?)?;
                }
            }
            Start::Handler { at } => {
                states.push(state_at(alloc, at, Some(2), Beside::ENTERED)?)?;
            }
            Start::Procedure { at } => {
                states.push(state_at(alloc, at, Some(2), Beside::behind_call(Some(2)))?)?;
            }
        }
        Ok(states)
    }
}

/// A state of which no more is known than how many bytes are on its stack, and what is said beside it.
fn state_at(
    alloc: Global,
    at: u16,
    bytes: Option<usize>,
    beside: Beside,
) -> Result<FollowedState, AllocError> {
    let stack = match bytes {
        Some(bytes) => Some(vec![in alloc; ByteSpan::ANY; bytes]?),
        None => None,
    };
    Ok(FollowedState {
        at,
        known: Known::ANY,
        stack,
        beside,
        hint: 0,
    })
}
