//! The points that wait to be visited.

use crate::marks::Marks;
use crate::order::rank_addresses;
use frames80::Code;
use std::alloc::{AllocError, Global};
use std::collections::BinaryHeap;

/// A point that waits, ordered by the rank of its address.
#[derive(Clone, Copy, PartialEq, Eq, PartialOrd, Ord)]
struct Waiting {
    rank: u32,
    point: usize,
}

/// The points that wait to be visited, each once. The one whose address has the greatest rank comes first.
#[derive(Drop)]
pub struct Pending {
    /// The rank of each address.
    ranks: Vec<u32>,
    waiting: BinaryHeap<Waiting>,
    /// The points that are in the queue.
    waits: Marks,
}

impl Pending {
    /// An empty queue for points of `program`, whose addresses are ranked.
    ///
    /// # Errors
    /// `AllocError` if memory runs out.
    pub fn new<C: Code>(alloc: Global, program: &C) -> Result<Pending, AllocError> {
        let ranks = rank_addresses(alloc, program)?;
        Ok(Pending {
            ranks,
            waiting: BinaryHeap::new(alloc),
            waits: Marks::new(alloc),
        })
    }

    /// Adds `point`, which is at address `at`. A point that waits already is left alone.
    ///
    /// # Errors
    /// `AllocError` if memory runs out.
    pub fn add(&mut self, point: usize, at: u16) -> Result<(), AllocError> {
        if self.waits.add(point)? {
            return Ok(());
        }
        let rank = match self.ranks.get(usize::from(at)) {
            Some(rank) => *rank,
            None => 0,
        };
        self.waiting.push(Waiting { rank, point })?;
        Ok(())
    }

    /// Removes the point that is best visited next and returns it; `None` if none waits.
    pub fn take(&mut self) -> Option<usize> {
        let first = self.waiting.pop()?;
        self.waits.remove(first.point);
        Some(first.point)
    }
}
