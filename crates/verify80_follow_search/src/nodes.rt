//! The states that were found.

use crate::arriving::Arrival;
use crate::growing::{grow, is_inside};
use crate::marks::{count_bytes, sum_of};
use crate::stop::{StopReason, Unfollowed};
use std::alloc::{AllocError, Global};
use std::collections::{BTreeSet, HashMap};
use verify80_follow::FollowedState;

/// The place of no state.
pub(crate) const NOWHERE: u32 = u32::MAX;
/// How many bytes they have, at most, all together.
const BYTES: usize = 8_388_608;

/// A number as a place of a list.
pub(crate) fn place_of(number: usize) -> u32 {
    u32::try_from(number).unwrap_or(NOWHERE)
}

/// What is kept of a state beside it.
#[derive(Drop)]
pub(crate) struct Note {
    /// Marks of its bytes.
    pub marks: Vec<bool>,
    /// The place of the state from which it was found.
    from: u32,
    /// How often the state has taken in another.
    growths: u32,
    /// Whether others have still to be followed from it.
    is_waiting: bool,
}

/// The states that were found, and those that wait.
#[derive(Drop)]
pub(crate) struct Nodes {
    pub states: Vec<FollowedState>,
    /// What is kept of each.
    notes: Vec<Note>,
    /// The place of each, by the sum of what tells it apart.
    by_sum: HashMap<u64, u32>,
    waiting: Vec<u32>,
    /// Where they stand.
    pub addresses: BTreeSet<u16>,
    /// How many bytes they have all together.
    bytes: usize,
    /// How many states there may be.
    most: usize,
}

impl Nodes {
    /// No states, of which there may be `most`.
    pub fn new(alloc: Global, most: usize) -> Nodes {
        Nodes {
            states: Vec::new(alloc),
            notes: Vec::new(alloc),
            by_sum: HashMap::new(alloc),
            waiting: Vec::new(alloc),
            addresses: BTreeSet::new(alloc),
            bytes: 0,
            most,
        }
    }

    /// The state at a place, and what is kept of it.
    pub fn get(&self, place: u32) -> Option<(&FollowedState, &Note)> {
        let place = place as usize;
        Some((self.states.get(place)?, self.notes.get(place)?))
    }

    /// The place of the next state that waits, which waits no more.
    pub fn next(&mut self) -> Option<u32> {
        let place = self.waiting.pop()?;
        if let Some(note) = self.notes.get_mut(place as usize) {
            note.is_waiting = false;
        }
        Some(place)
    }

    /// Whether a state waits.
    pub fn is_waiting(&self) -> bool {
        !self.waiting.is_empty()
    }

    /// The place of a state that says no more than this one: one that is there, which may grow, or this.
    ///
    /// # Errors
    /// If there are too many states, or memory runs out.
    pub fn enter(&mut self, arrival: Arrival, from: u32) -> Result<u32, Unfollowed> {
        let Arrival { state, marks, .. } = arrival;
        let sum = sum_of(&state, &marks);
        if let Some(place) = self.by_sum.get(&sum) {
            let place = *place;
            self.take_in(place, &state)?;
            return Ok(place);
        }
        self.bytes = self.bytes.saturating_add(marks.len());
        if self.states.len() >= self.most || self.bytes > BYTES {
            return Err(Unfollowed::Stopped(StopReason::TooManyStates));
        }
        let place = place_of(self.states.len());
        self.by_sum.insert(sum, place)?;
        self.waiting.push(place)?;
        self.addresses.insert(state.at)?;
        self.states.push(state)?;
        self.notes.push(Note {
            marks,
            from,
            growths: 0,
            is_waiting: true,
        })?;
        Ok(place)
    }

    /// Lets the state at a place take in another with the same sum. If it grows, it waits again.
    fn take_in(&mut self, place: u32, other: &FollowedState) -> Result<(), Unfollowed> {
        let (states, notes) = (&mut self.states, &mut self.notes);
        let (Some(state), Some(note)) = (
            states.get_mut(place as usize),
            notes.get_mut(place as usize),
        ) else {
            return Ok(());
        };
        if state.at != other.at || count_bytes(state) != count_bytes(other) {
            return Err(Unfollowed::Stopped(StopReason::TooManyStates));
        }
        if !is_inside(other, state) {
            grow(state, &note.marks, other, note.growths);
            note.growths = note.growths.saturating_add(1);
            if !note.is_waiting {
                note.is_waiting = true;
                self.waiting.push(place)?;
            }
        }
        Ok(())
    }

    /// The addresses of a way to the state at a place, from the first state on.
    ///
    /// # Errors
    /// `AllocError` if memory runs out.
    pub fn way_to(&self, alloc: Global, place: u32) -> Result<Vec<u16>, AllocError> {
        let mut way = Vec::new(alloc);
        let mut next = place;
        for _ in 0..self.states.len() {
            let Some((state, note)) = self.get(next) else {
                break;
            };
            way.push(state.at)?;
            next = note.from;
        }
        way.reverse();
        Ok(way)
    }

    /// The place of a state at the address that has the most.
    ///
    /// # Errors
    /// `AllocError` if memory runs out.
    pub fn most_crowded(&self, alloc: Global) -> Result<u32, AllocError> {
        let mut counts = vec![in alloc; 0_u32; 65_536]?;
        let (mut most, mut crowded) = (0, NOWHERE);
        for (number, state) in self.states.iter().enumerate() {
            if let Some(count) = counts.get_mut(usize::from(state.at)) {
                *count = count.saturating_add(1);
                if *count > most {
                    (most, crowded) = (*count, place_of(number));
                }
            }
        }
        Ok(crowded)
    }
}
