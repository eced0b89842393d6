//! Numbers by what each belongs to.

use indexmap::IndexMap;
use std::alloc::{AllocError, Global};

/// Numbers from 0 on, each with a key. The numbers of one key are found without going through the
/// others.
#[derive(Drop)]
pub struct Groups {
    /// For each key, its greatest number.
    last: IndexMap<usize, usize>,
    /// For each number, the next lower one with the same key.
    before: Vec<Option<usize>>,
}

impl Groups {
    /// No numbers are given.
    pub fn new(alloc: Global) -> Groups {
        Groups {
            last: IndexMap::new(alloc),
            before: Vec::new(alloc),
        }
    }

    /// Gives the next number to a key.
    ///
    /// # Errors
    /// `AllocError` only if memory runs out.
    pub fn push(&mut self, key: usize) -> Result<(), AllocError> {
        let number = self.before.len();
        let before = self.last.insert(key, number)?;
        self.before.push(before)?;
        Ok(())
    }

    /// Whether a key has a number.
    pub fn has(&self, key: usize) -> bool {
        self.last.contains_key(&key)
    }

    /// The numbers of a key, ascending.
    ///
    /// # Errors
    /// `AllocError` only if memory runs out.
    pub fn of(&self, alloc: Global, key: usize) -> Result<Vec<usize>, AllocError> {
        let mut of = Vec::new(alloc);
        let mut at = self.last.get(&key).copied();
        for _ in 0..self.before.len() {
            let Some(number) = at else {
                break;
            };
            of.push(number)?;
            at = match self.before.get(number) {
                Some(before) => *before,
                None => None,
            };
        }
        of.reverse();
        Ok(of)
    }
}
