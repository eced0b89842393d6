//! The places that are asked for and from which the search has yet to go back.

use crate::places::Places;
use std::alloc::{AllocError, Global};
use std::collections::BinaryHeap;

/// An entry of the queue. The greatest entry comes first, so ranks and blocks are kept as
/// `u32::MAX` minus them.
#[derive(Clone, Copy, PartialEq, Eq, PartialOrd, Ord)]
struct Ask {
    /// `u32::MAX` minus the rank of the point's address.
    rank_down: u32,
    /// The number of the point.
    point: u32,
    /// `u32::MAX` minus the number of the block.
    block_down: u32,
    /// The places of the block.
    bits: u64,
}

/// A queue of the places that are asked for and not yet gone back from. Those whose address has the
/// least rank come first: by then most points after it have been gone back from, so that many of
/// its places are taken at once.
#[derive(Drop)]
pub(crate) struct Asks {
    /// An entry that is kept out of the heap: mostly it is the next one.
    apart: Option<Ask>,
    others: BinaryHeap<Ask>,
}

impl Ask {
    /// Whether both entries are of one block of one point.
    fn is_beside(self, other: &Ask) -> bool {
        self.point == other.point && self.block_down == other.block_down
    }
}

impl Asks {
    /// An empty queue.
    pub(crate) fn new(alloc: Global) -> Asks {
        Asks {
            apart: None,
            others: BinaryHeap::new(alloc),
        }
    }

    /// Queues places of a point whose address has this rank. `AllocError` if memory runs out.
    pub(crate) fn add(&mut self, rank: u32, places: Places) -> Result<(), AllocError> {
        let ask = Ask {
            rank_down: u32::MAX.wrapping_sub(rank),
            point: places.point,
            block_down: u32::MAX.wrapping_sub(places.block),
            bits: places.bits,
        };
        let before = self.apart;
        match before {
            None => self.apart = Some(ask),
            Some(apart) if apart < ask => {
                self.others.push(apart)?;
                self.apart = Some(ask);
            }
            Some(_) => self.others.push(ask)?,
        }
        Ok(())
    }

    /// Removes the first places from the queue, with those in the heap that follow them and are of
    /// their point and block, and returns them as one; `None` if the queue is empty. Places kept
    /// apart that come after the first stay, even if they are of that block.
    pub(crate) fn take(&mut self) -> Option<Places> {
        let first = self.take_first()?;
        let mut bits = first.bits;
        // The bound is never met: each one that is taken is gone.
        for _ in 0..u64::MAX {
            match self.others.peek() {
                Some(other) if first.is_beside(other) => bits |= other.bits,
                _ => break,
            }
            self.others.pop();
        }
        Some(Places {
            point: first.point,
            block: u32::MAX.wrapping_sub(first.block_down),
            bits,
        })
    }

    /// Removes the first entry from the queue and returns it; `None` if the queue is empty.
    fn take_first(&mut self) -> Option<Ask> {
        let Some(apart) = self.apart else {
            return self.others.pop();
        };
        match self.others.peek() {
            Some(other) if apart < *other => self.others.pop(),
            _ => {
                self.apart = None;
                Some(apart)
            }
        }
    }
}
