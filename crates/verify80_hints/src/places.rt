//! The places of frames by number, 64 in a block.

use frames80::FramePair;

/// How many places are pairs: BC, DE and HL. The words of the stack follow, from the bottom up.
const PAIRS: u32 = 3;

/// How many places are in a block.
const PLACES: u32 = 64;

/// A place of a frame, by number: one of its pairs, or one of its words.
#[derive(Clone, Copy, PartialEq, Eq)]
pub(crate) struct Place(u32);

/// Places of a frame of one point that are in one block.
#[derive(Clone, Copy)]
pub(crate) struct Places {
    /// The number of the point.
    pub(crate) point: u32,
    /// The number of the block.
    pub(crate) block: u32,
    /// A bit for each of the block's places that is meant.
    pub(crate) bits: u64,
}

impl Place {
    /// The place of a pair.
    pub(crate) fn of_pair(pair: FramePair) -> Place {
        match pair {
            FramePair::Bc => Place(0),
            FramePair::De => Place(1),
            FramePair::Hl => Place(2),
        }
    }

    /// The place of a word with `beneath` words beneath it.
    pub(crate) fn of_word(beneath: u32) -> Place {
        Place(beneath.wrapping_add(PAIRS))
    }

    /// The number of the place's block.
    pub(crate) fn block(self) -> u32 {
        self.0 / PLACES
    }

    /// Returns the place's bit in its block.
    pub(crate) fn bit(self) -> u64 {
        1u64.wrapping_shl(self.0 % PLACES)
    }
}

impl Places {
    /// One place of the point with this number.
    pub(crate) fn one(point: u32, place: Place) -> Places {
        Places {
            point,
            block: place.block(),
            bits: place.bit(),
        }
    }

    /// Whether `place` is one of these places.
    pub(crate) fn has(self, place: Place) -> bool {
        place.block() == self.block && self.bits & place.bit() != 0
    }

    /// The first pair that is one of these places; `None` if no pair is.
    pub(crate) fn first_pair(self) -> Option<Place> {
        let pair = self.bits.trailing_zeros();
        if self.block == 0 && pair < PAIRS {
            Some(Place(pair))
        } else {
            None
        }
    }
}

/// How many words there are from the bottom up to the one that this bit of a block stands for. The
/// bit must not be that of a pair.
pub(crate) fn height_up_to(block: u32, bit: u32) -> u32 {
    let place = block.wrapping_mul(PLACES).wrapping_add(bit);
    place.wrapping_sub(PAIRS).wrapping_add(1)
}
