//! Marks of points.

use std::alloc::{AllocError, Global};
use std::mem;

/// For each point whether it is marked.
#[derive(Drop)]
pub(crate) struct Marks {
    marks: Vec<bool>,
}

impl Marks {
    /// Marks of which none is set.
    pub(crate) fn new(alloc: Global) -> Marks {
        Marks {
            marks: Vec::new(alloc),
        }
    }

    /// Marks a point, and returns whether it was marked before.
    ///
    /// # Errors
    /// `AllocError` if memory runs out.
    pub(crate) fn add(&mut self, point: usize) -> Result<bool, AllocError> {
        if self.marks.len() <= point {
            self.marks.resize(point.saturating_add(1), false)?;
        }
        match self.marks.get_mut(point) {
            Some(mark) => Ok(mem::replace(mark, true)),
            None => Ok(true),
        }
    }

    /// Removes the mark of a point.
    pub(crate) fn remove(&mut self, point: usize) {
        if let Some(mark) = self.marks.get_mut(point) {
            *mark = false;
        }
    }
}
