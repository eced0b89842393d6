//! Which places of frames a return asks for: those from which its word comes.
//!
//! What the verifier answers doesn't rest on it, only how soon: a frame may forget any of its places.

use crate::place_sets::PlaceSets;
use crate::places::height_up_to;
use crate::search::Search;
use frames80::{Code, PointNumbers, Procedure};
use frames80_interned::Asked;
use std::alloc::{AllocError, Global};

/// The bits of the pairs in the first block.
const PAIRS: u64 = 7;

/// For each point, the words and pairs that returns ask for: a return may use what they hold as its
/// return address. Frames may forget the others.
#[derive(Drop)]
pub struct AskedPlaces {
    /// The numbers by which `asked` knows the points.
    numbers: PointNumbers,
    /// The places that are asked for at each point.
    asked: PlaceSets,
    /// The words that were last looked up, each by how many words there are from the bottom up to
    /// it.
    heights: Vec<u32>,
    /// The pairs that were last looked up: bits 0 to 2 are BC, DE and HL.
    pairs: u64,
}

impl AskedPlaces {
    /// Finds what the returns of a program ask for. Nothing is asked for if a walk is found to a
    /// return with another word than the return address: the program is refused then, whatever its
    /// frames keep.
    ///
    /// # Errors
    /// `AllocError` if memory runs out.
    pub fn find<C: Code>(alloc: Global, program: &C) -> Result<AskedPlaces, AllocError> {
        let (numbers, asked) = Search::of(alloc, program)?.into_asked();
        Ok(AskedPlaces {
            numbers,
            asked,
            heights: Vec::new(alloc),
            pairs: 0,
        })
    }

    /// Looks up what is asked for at an address of a procedure; [`AskedPlaces::found`] has it then.
    /// Nothing is asked for at a point that isn't known.
    ///
    /// # Errors
    /// `AllocError` if memory runs out.
    pub fn look_up(&mut self, procedure: Procedure, at: u16) -> Result<(), AllocError> {
        self.heights.clear();
        self.pairs = 0;
        let Some(point) = self.numbers.get(procedure, at) else {
            return Ok(());
        };
        let first = self.asked.get(point, 0);
        self.pairs = first & PAIRS;
        push_heights(&mut self.heights, 0, first & !PAIRS)?;
        for block in 1..self.asked.blocks() {
            push_heights(&mut self.heights, block, self.asked.get(point, block))?;
        }
        Ok(())
    }

    /// What the last call of [`AskedPlaces::look_up`] found; nothing before the first.
    pub fn found(&self) -> Asked<'_> {
        Asked {
            heights: &self.heights,
            bc: self.pairs & 1 != 0,
            de: self.pairs & 2 != 0,
            hl: self.pairs & 4 != 0,
        }
    }
}

/// Appends the stack words that these bits of a block stand for, each by how many words there are
/// from the bottom up to it, ascending. `AllocError` if memory runs out.
fn push_heights(heights: &mut Vec<u32>, block: u32, bits: u64) -> Result<(), AllocError> {
    let mut left = bits;
    for _ in 0..64 {
        if left == 0 {
            break;
        }
        heights.push(height_up_to(block, left.trailing_zeros()))?;
        left &= left.wrapping_sub(1);
    }
    Ok(())
}
