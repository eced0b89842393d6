//! Ways from points, in lists.

use std::alloc::{AllocError, Global};

/// No link.
const NONE: u32 = u32::MAX;

/// A way on from a point.
#[derive(Clone, Copy)]
pub(crate) struct Way {
    /// The number of the point.
    pub(crate) from: u32,
    /// Which of the point's ways it is.
    pub(crate) turn: Turn,
}

/// Which of the ways on from a point is taken.
#[derive(Clone, Copy)]
pub(crate) enum Turn {
    /// The instruction leads there: 0 is the next address or the only target, 1 that of a conditional jump; those of a PCHL are
    /// counted from 0.
    Leads(u16),
    /// To the address after a call, when the callee returns.
    OverCall,
}

/// A link of a list of ways.
#[derive(Clone, Copy)]
pub(crate) struct Link {
    /// The way that the link holds.
    pub(crate) way: Way,
    /// The index of the next older link of the list, or `NONE`.
    before: u32,
}

/// Lists of ways by number, each with the newest way first.
#[derive(Drop)]
pub(crate) struct Lists {
    /// For each list the index of its newest link, or `NONE`.
    newest: Vec<u32>,
    links: Vec<Link>,
}

impl Lists {
    /// Empty lists.
    pub(crate) fn new(alloc: Global) -> Lists {
        Lists {
            newest: Vec::new(alloc),
            links: Vec::new(alloc),
        }
    }

    /// Adds a way to the list with this number. `AllocError` if memory runs out.
    pub(crate) fn add(&mut self, list: usize, way: Way) -> Result<(), AllocError> {
        if self.newest.len() <= list {
            self.newest.resize(list.saturating_add(1), NONE)?;
        }
        let number = u32::try_from(self.links.len()).unwrap_or(NONE);
        if let Some(newest) = self.newest.get_mut(list) {
            let before = *newest;
            self.links.push(Link { way, before })?;
            *newest = number;
        }
        Ok(())
    }

    /// The newest link of the list with this number; `None` if the list is empty.
    pub(crate) fn newest(&self, list: usize) -> Option<Link> {
        let newest = self.newest.get(list)?;
        self.links.get(*newest as usize).copied()
    }

    /// The way of a list that has exactly one; else `None`.
    pub(crate) fn only(&self, list: usize) -> Option<Way> {
        let link = self.newest(list)?;
        if link.before == NONE {
            Some(link.way)
        } else {
            None
        }
    }

    /// The next older link of the same list; `None` if this is the oldest.
    pub(crate) fn before(&self, link: Link) -> Option<Link> {
        self.links.get(link.before as usize).copied()
    }
}
