//! The points that wait for a callee's return.

use crate::marks::Marks;
use crate::pending::Pending;
use std::alloc::{AllocError, Global};

/// No link.
const NONE: usize = usize::MAX;

/// A point at a call and its address, and the link before it of the same callee.
#[derive(Clone, Copy)]
struct Link {
    /// The number of the point.
    point: usize,
    /// The address of the call.
    at: u16,
    /// The index of the next older link of the same callee, or `NONE`.
    before: usize,
}

/// For each entry, the points at calls of it, each once, the newest first: they are visited again
/// when the callee is seen to return. What the verifier answers doesn't rest on this list, only how
/// soon.
#[derive(Drop)]
pub struct Callers {
    /// For each entry the index of its newest link, or `NONE`.
    newest: Vec<usize>,
    /// The links of all entries.
    links: Vec<Link>,
    /// The points that have a link.
    linked: Marks,
}

impl Callers {
    /// Empty lists: no point waits.
    ///
    /// # Errors
    /// `AllocError` if memory runs out.
    pub fn new(alloc: Global) -> Result<Callers, AllocError> {
        Ok(Callers {
            newest: vec![in alloc; NONE; 65536]?,
            links: Vec::new(alloc),
            linked: Marks::new(alloc),
        })
    }

    /// Adds `point`, which is at address `at`, to the points that wait for the procedure at `entry`
    /// to return. A point that waits already is left alone: its instruction calls no other
    /// procedure.
    ///
    /// # Errors
    /// `AllocError` if memory runs out.
    pub fn add(&mut self, entry: u16, point: usize, at: u16) -> Result<(), AllocError> {
        if self.linked.add(point)? {
            return Ok(());
        }
        let number = self.links.len();
        if let Some(newest) = self.newest.get_mut(usize::from(entry)) {
            self.links.push(Link {
                point,
                at,
                before: *newest,
            })?;
            *newest = number;
        }
        Ok(())
    }

    /// Adds all points that wait for the procedure at `entry` to return to `pending`.
    ///
    /// # Errors
    /// `AllocError` if memory runs out.
    pub fn wake(&mut self, entry: u16, pending: &mut Pending) -> Result<(), AllocError> {
        let mut at = match self.newest.get(usize::from(entry)) {
            Some(newest) => *newest,
            None => NONE,
        };
        for _ in 0..self.links.len() {
            let Some(link) = self.links.get(at) else {
                break;
            };
            pending.add(link.point, link.at)?;
            at = link.before;
        }
        Ok(())
    }
}
