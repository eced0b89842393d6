//! How many return addresses stacks have.

use frames80::Word;
use std::alloc::{AllocError, Global};

/// How many return addresses each stack has, by the stack's number. Only speed depends on these
/// counts.
#[derive(Drop)]
pub(crate) struct OwnCounts {
    /// The counts of the stacks from number 1 on; stack 0 has no words.
    counts: Vec<u32>,
}

impl OwnCounts {
    /// No counts. The call takes no memory.
    pub(crate) fn new(alloc: Global) -> OwnCounts {
        OwnCounts {
            counts: Vec::new(alloc),
        }
    }

    /// How many return addresses the stack with this number has; 0 if it isn't counted.
    pub(crate) fn get(&self, number: u32) -> u32 {
        match self.counts.get((number as usize).wrapping_sub(1)) {
            Some(count) => *count,
            None => 0,
        }
    }

    /// Counts the return addresses of stack `number`, which has `word` on stack `below`. A stack
    /// that is counted already is left alone.
    ///
    /// # Errors
    /// `AllocError` if memory runs out.
    pub(crate) fn note(&mut self, number: u32, word: Word, below: u32) -> Result<(), AllocError> {
        if self.counts.len() >= number as usize {
            return Ok(());
        }
        let count = match word {
            Word::Own => self.get(below).saturating_add(1),
            Word::Any => self.get(below),
        };
        self.counts.push(count)?;
        Ok(())
    }
}
