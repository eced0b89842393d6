//! Words are followed to the returns that ask for them.

use crate::lists::{Turn, Way};
use crate::places::{Place, Places};
use crate::point::Point;
use crate::search::Search;
use crate::step::Step;
use frames80::{Code, Effect};
use std::alloc::AllocError;

/// How many blocks lie between the bits of a choice in `choices`; no frame has so many blocks of
/// places.
const BLOCKS: u32 = 2048;

/// How a word goes on from a place of a point.
#[derive(Clone, Copy)]
struct Hop {
    /// The way that it goes.
    turn: Turn,
    /// The address where that leads.
    at: u16,
    /// The place that has the word there.
    place: Place,
}

impl<'a, C: Code> Search<'a, C> {
    /// Completes a walk, unless one was found before: over this way another word than the return
    /// address comes to a place that is asked for. `AllocError` if memory runs out.
    pub(super) fn find_over(&mut self, way: Way, to: u32, place: Place) -> Result<(), AllocError> {
        match (self.point(way.from), self.point(to)) {
            (Some(from), Some(end)) if !self.is_found => {
                let step = self.step_on(from, from.step, way.turn, end.at)?;
                self.find_from(step, to, place)
            }
            _ => Ok(()),
        }
    }

    /// Completes a walk, unless one was found before: its last step reaches a point with another
    /// word than the return address in a place that is asked for. `AllocError` if memory runs out.
    pub(super) fn find_from(
        &mut self,
        step: u32,
        number: u32,
        place: Place,
    ) -> Result<(), AllocError> {
        if self.is_found {
            return Ok(());
        }
        let (step, end) = self.follow(step, number, place)?;
        self.find(step, end)
    }

    /// Records that a walk is found, and adds a step on from the return that it ends at. Where that
    /// step leads doesn't matter: the return is refused. `AllocError` if memory runs out.
    pub(super) fn find(&mut self, step: u32, number: u32) -> Result<(), AllocError> {
        self.is_found = true;
        if let Some(end) = self.point(number) {
            self.add_step(Step::GoesOn(step, end.at))?;
        }
        Ok(())
    }

    /// Adds the steps by which the word of a place reaches a return, and returns the number of the
    /// last step and that of its point. `AllocError` if memory runs out.
    pub(super) fn follow(
        &mut self,
        step: u32,
        number: u32,
        place: Place,
    ) -> Result<(u32, u32), AllocError> {
        let (mut step, mut number, mut place) = (step, number, place);
        // The bound is never met: what asks for a place was asked for before it.
        for _ in 0..u64::MAX {
            let Some(from) = self.point(number) else {
                break;
            };
            let Some(hop) = self.hop(from, number, place) else {
                break;
            };
            let Some(to) = self.numbers.get(from.procedure, hop.at) else {
                break;
            };
            step = self.step_on(from, step, hop.turn, hop.at)?;
            (number, place) = (to, hop.place);
        }
        Ok((step, number))
    }

    /// How the word of a place of a point goes on; `None` if it is used by a return there, or leads
    /// nowhere.
    fn hop(&self, from: Point, number: u32, place: Place) -> Option<Hop> {
        if from.returns() && place == Place::of_word(0) {
            return None;
        }
        let choice = self.choice(number, place);
        let mut hop = Hop {
            turn: Turn::Leads(choice),
            at: from.next,
            place,
        };
        match from.effect {
            Effect::Jump(to) => hop.at = to,
            Effect::JumpIf(to) if choice != 0 => hop.at = to,
            Effect::Case => hop.at = *self.program.targets(from.at).get(usize::from(choice))?,
            Effect::Call(_) => hop.turn = Turn::OverCall,
            Effect::Change(_) if choice != 0 => hop.place = from.writes(hop.turn).moved_to(place),
            Effect::Change(_) | Effect::JumpIf(_) | Effect::CallIf(_) | Effect::ReturnIf => {}
            Effect::Return | Effect::Halt | Effect::Refuse(_) => return None,
        }
        Some(hop)
    }

    /// Adds the step from a point over this way to address `at`, and returns its number.
    /// `AllocError` if memory runs out.
    fn step_on(&mut self, from: Point, step: u32, turn: Turn, at: u16) -> Result<u32, AllocError> {
        match (turn, from.effect) {
            (Turn::OverCall, Effect::Call(target) | Effect::CallIf(target)) => {
                let exit = match self.exit_of(target) {
                    Some(exit) => exit.step,
                    None => step,
                };
                self.add_step(Step::ComesBack(step, exit))
            }
            _ => self.add_step(Step::GoesOn(step, at)),
        }
    }

    /// Records how the words of places go on: by which way, or for a change whether they move (1)
    /// or stay (0). It is kept bit by bit: most choices are 0, which takes no memory. `AllocError`
    /// if memory runs out.
    pub(super) fn choose(&mut self, places: Places, choice: u16) -> Result<(), AllocError> {
        let (mut left, mut block) = (choice, places.block);
        for _ in 0..16 {
            if left == 0 {
                break;
            }
            if left & 1 != 0 {
                self.choices.add(Places { block, ..places })?;
            }
            left /= 2;
            block = block.wrapping_add(BLOCKS);
        }
        Ok(())
    }

    /// How the word of a place of a point goes on, as `choose` recorded it; 0 if nothing was
    /// recorded.
    fn choice(&self, point: u32, place: Place) -> u16 {
        let (mut choice, mut bit, mut block) = (0, 1u16, place.block());
        for _ in 0..16 {
            if block >= self.choices.blocks() {
                break;
            }
            if self.choices.get(point, block) & place.bit() != 0 {
                choice |= bit;
            }
            bit = bit.wrapping_shl(1);
            block = block.wrapping_add(BLOCKS);
        }
        choice
    }
}
