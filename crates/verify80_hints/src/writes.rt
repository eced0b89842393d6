//! What the places of a frame get when an instruction or a call is passed: which of them are written, and with which words.

use crate::places::{Place, Places};
use frames80::{Change, FramePair};

/// What a place of a frame gets when an instruction or a call is passed: not a move of
/// docs/GLOSSARY.md, which says where an instruction leads with the new frame.
#[derive(Clone, Copy)]
pub(crate) struct Write {
    /// The place that is written.
    pub(crate) to: Place,
    /// The place whose word it gets; `None` if it gets a word that is no return address.
    pub(crate) from: Option<Place>,
}

/// What each place gets that an instruction or a call writes: one `Write` for each. Every other
/// place keeps its word.
#[derive(Clone, Copy)]
pub(crate) struct Writes([Option<Write>; 3]);

impl Write {
    /// What a pair gets if it is written with a word that is no return address.
    fn losing(pair: FramePair) -> Write {
        Write {
            to: Place::of_pair(pair),
            from: None,
        }
    }
}

impl Writes {
    /// What each place gets that this change writes, in a frame that has `height` words before the
    /// change. A word that Drop takes away is no write.
    pub(crate) fn of_change(change: Change, height: u32) -> Writes {
        let top = height.checked_sub(1).map(Place::of_word);
        let above = Place::of_word(height);
        let de = Place::of_pair(FramePair::De);
        let hl = Place::of_pair(FramePair::Hl);
        match change {
            Change::Push(pair) => Writes::one(above, Some(Place::of_pair(pair))),
            Change::PushAny => Writes::one(above, None),
            Change::Pop(pair) => Writes::one(Place::of_pair(pair), top),
            Change::Forget(pair) => Writes::one(Place::of_pair(pair), None),
            Change::Swap => Writes::two((hl, top), (top.unwrap_or(above), Some(hl))),
            Change::Exchange => Writes::two((de, Some(hl)), (hl, Some(de))),
            Change::Keep | Change::Drop | Change::SetStack(_) => Writes([None, None, None]),
        }
    }

    /// What each place gets over a call that returns: every pair a word that is no return address.
    pub(crate) fn of_call() -> Writes {
        Writes([
            Some(Write::losing(FramePair::Bc)),
            Some(Write::losing(FramePair::De)),
            Some(Write::losing(FramePair::Hl)),
        ])
    }

    /// One write, of the place `to`, with the word of the place `from`, or with one that is no
    /// return address.
    fn one(to: Place, from: Option<Place>) -> Writes {
        Writes([Some(Write { to, from }), None, None])
    }

    /// Two writes at once, each as the place that is written and the place that its word comes
    /// from.
    fn two(one: (Place, Option<Place>), other: (Place, Option<Place>)) -> Writes {
        let (to, from) = one;
        let first = Write { to, from };
        let (to, from) = other;
        Writes([Some(first), Some(Write { to, from }), None])
    }

    /// All of the writes; `None` fills the unused entries.
    pub(crate) fn each(self) -> [Option<Write>; 3] {
        self.0
    }

    /// Returns the bits of those of `places` that aren't written, so that they keep their words.
    pub(crate) fn kept_of(self, places: Places) -> u64 {
        let mut kept = places.bits;
        for found in self.0 {
            match found {
                Some(found) if found.to.block() == places.block => kept &= !found.to.bit(),
                _ => {}
            }
        }
        kept
    }

    /// The place that gets the word of `place`, or `place` itself if no other gets it.
    pub(crate) fn moved_to(self, place: Place) -> Place {
        for found in self.0 {
            match found {
                Some(found) if found.from == Some(place) => return found.to,
                _ => {}
            }
        }
        place
    }
}
