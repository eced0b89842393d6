//! A set of places for each point.

use crate::places::Places;
use std::alloc::{AllocError, Global};

/// How many points are in a group: the words of a block of places are kept for all of them at once.
const POINTS: usize = 16;

/// No group of words.
const NONE: u32 = u32::MAX;

/// A set of places for each point, 64 places in a word. There are words only for the groups of points and the blocks of places that
/// are in use.
#[derive(Drop)]
pub(crate) struct PlaceSets {
    /// The allocator that the sets grow by.
    alloc: Global,
    /// For each block, by group of points, the number of the group's words in `words`, or `NONE`.
    rows: Vec<Vec<u32>>,
    /// The words, `POINTS` for each group: one bit for each place of a block.
    words: Vec<u64>,
}

impl PlaceSets {
    /// Empty sets.
    pub(crate) fn new(alloc: Global) -> PlaceSets {
        PlaceSets {
            alloc,
            rows: Vec::new(alloc),
            words: Vec::new(alloc),
        }
    }

    /// Empties all sets.
    pub(crate) fn clear(&mut self) {
        self.rows.clear();
        self.words.clear();
    }

    /// How many blocks of places any set may have.
    pub(crate) fn blocks(&self) -> u32 {
        u32::try_from(self.rows.len()).unwrap_or(u32::MAX)
    }

    /// The bits of the places of a block that are in the set of a point.
    pub(crate) fn get(&self, point: u32, block: u32) -> u64 {
        match self.index(point, block) {
            Some(index) => self.words.get(index).copied().unwrap_or(0),
            None => 0,
        }
    }

    /// Adds places to the set of a point, and returns the bits of those that were not in it.
    /// `AllocError` if memory runs out.
    pub(crate) fn add(&mut self, places: Places) -> Result<u64, AllocError> {
        let index = match self.index(places.point, places.block) {
            Some(index) if index < self.words.len() => index,
            _ => self.add_group(places.point, places.block)?,
        };
        let Some(word) = self.words.get_mut(index) else {
            return Ok(0);
        };
        let new = places.bits & !*word;
        *word |= new;
        Ok(new)
    }

    /// The index in `words` of the word for a block of a point. If there is no such word, `None` or
    /// an index past the end.
    fn index(&self, point: u32, block: u32) -> Option<usize> {
        let row = self.rows.get(block as usize)?;
        let first = row.get(group_of(point))?;
        Some(index_in(*first as usize, point))
    }

    /// Adds words for a block of all points in the group of `point`, and returns the index of the
    /// point's own. `AllocError` if memory runs out.
    fn add_group(&mut self, point: u32, block: u32) -> Result<usize, AllocError> {
        for _ in self.rows.len()..=block as usize {
            self.rows.push(Vec::new(self.alloc))?;
        }
        let first = self.words.len() / POINTS;
        self.words
            .resize(self.words.len().saturating_add(POINTS), 0)?;
        if let Some(row) = self.rows.get_mut(block as usize) {
            let group = group_of(point);
            if row.len() <= group {
                row.resize(group.saturating_add(1), NONE)?;
            }
            if let Some(begins) = row.get_mut(group) {
                *begins = u32::try_from(first).unwrap_or(NONE);
            }
        }
        Ok(index_in(first, point))
    }
}

/// The number of the group that a point belongs to.
fn group_of(point: u32) -> usize {
    point as usize / POINTS
}

/// The index in `words` of the word of a point, if its group's words have this number.
fn index_in(group: usize, point: u32) -> usize {
    group
        .wrapping_mul(POINTS)
        .wrapping_add(point as usize % POINTS)
}
