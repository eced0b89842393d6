//! Points are reached, and left.

use crate::lists::{Turn, Way};
use crate::places::{Place, Places};
use crate::point::{Counts, Point, effect_at};
use crate::search::Search;
use crate::step::Step;
use frames80::{Code, Effect, MOST_POINTS, Procedure};
use std::alloc::AllocError;

impl<'a, C: Code> Search<'a, C> {
    /// Follows each way on from a point, and enters the procedure that it calls. `AllocError` if
    /// memory runs out.
    pub(super) fn leave(&mut self, number: u32) -> Result<(), AllocError> {
        let Some(from) = self.point(number) else {
            return Ok(());
        };
        match from.effect {
            Effect::Change(_) | Effect::ReturnIf => self.go_to(number, from, from.next, 0),
            Effect::Jump(to) => self.go_to(number, from, to, 0),
            Effect::JumpIf(to) => {
                self.go_to(number, from, from.next, 0)?;
                self.go_to(number, from, to, 1)
            }
            Effect::Case => self.go_to_each(number, from),
            Effect::Call(target) => self.call(number, from, target),
            Effect::CallIf(target) => {
                self.go_to(number, from, from.next, 0)?;
                self.call(number, from, target)
            }
            Effect::Return | Effect::Halt | Effect::Refuse(_) => Ok(()),
        }
    }

    /// Follows the way with number `choice` on from a point to address `at`, unless the instruction
    /// is refused. `AllocError` if memory runs out.
    fn go_to(&mut self, number: u32, from: Point, at: u16, choice: u16) -> Result<(), AllocError> {
        let way = Way {
            from: number,
            turn: Turn::Leads(choice),
        };
        match from.counts_on(self.program.top()) {
            Some(counts) => self.go(way, from, at, counts, Step::GoesOn(from.step, at)),
            None => Ok(()),
        }
    }

    /// Follows the ways on from a PCHL to each declared target. `AllocError` if memory runs out.
    fn go_to_each(&mut self, number: u32, from: Point) -> Result<(), AllocError> {
        self.note_case(from)?;
        let program = self.program;
        let mut choice: u16 = 0;
        for at in program.targets(from.at) {
            self.go_to(number, from, *at, choice)?;
            choice = choice.wrapping_add(1);
        }
        Ok(())
    }

    /// Records that a PCHL is reached and, the first time, that it leads to its targets. `AllocError`
    /// if memory runs out.
    fn note_case(&mut self, from: Point) -> Result<(), AllocError> {
        if let Some(number) = self.cases.number_of(from.at) {
            return self.hubs.reach(number, from);
        }
        let number = self.cases.add(from.at)?;
        for at in self.program.targets(from.at) {
            self.cases.add_target(number, *at)?;
        }
        self.hubs.reach(number, from)
    }

    /// Enters a callee, and follows the way on to the address after the call if the callee is known
    /// to return; else the call waits for that. `AllocError` if memory runs out.
    fn call(&mut self, number: u32, from: Point, target: u16) -> Result<(), AllocError> {
        let way = Way {
            from: number,
            turn: Turn::OverCall,
        };
        let entry = Counts {
            taken: 0,
            height: 1,
        };
        let enters = Step::Enters(from.step);
        self.come(Procedure::Entry(target), target, entry, enters)?;
        let Some(exit) = self.exit_of(target) else {
            return self.callers.add(usize::from(target), way);
        };
        let back = Step::ComesBack(from.step, exit.step);
        match from.counts_over(exit.taken) {
            Some(counts) => self.go(way, from, from.next, counts, back),
            None => Ok(()),
        }
    }

    /// Takes a way on from a point to address `at`, and asks at the point for what is asked for at
    /// `at` already. `AllocError` if memory runs out.
    fn go(
        &mut self,
        way: Way,
        from: Point,
        at: u16,
        counts: Counts,
        step: Step,
    ) -> Result<(), AllocError> {
        let Some(point) = self.come(from.procedure, at, counts, step)? else {
            return Ok(());
        };
        if from.effect != Effect::Case {
            self.leading.add(point as usize, way)?;
        }
        for block in 0..self.asked.blocks() {
            let bits = self.asked.get(point, block);
            if bits != 0 {
                self.carry(way, Places { point, block, bits })?;
            }
        }
        Ok(())
    }

    /// Records that a walk reaches a point by a step, and returns the point's number. `None` if the
    /// walk has other counts than the first one there, or if there are too many points.
    /// `AllocError` if memory runs out.
    pub(super) fn come(
        &mut self,
        procedure: Procedure,
        at: u16,
        counts: Counts,
        step: Step,
    ) -> Result<Option<u32>, AllocError> {
        let Some(number) = self.numbers.get(procedure, at) else {
            return self.reach(procedure, at, counts, step);
        };
        match self.point(number) {
            Some(point) if point.counts == counts => Ok(Some(number)),
            Some(point) => {
                self.differ(point.step, step)?;
                Ok(None)
            }
            None => Ok(None),
        }
    }

    /// Adds steps that show two walks to one point with different counts: the one whose step has the
    /// number `first`, and the one that comes there by `step`. Only once in a search: nothing is
    /// added if such steps were, for any point. `AllocError` if memory runs out.
    fn differ(&mut self, first: u32, step: Step) -> Result<(), AllocError> {
        if !self.differs {
            let other = self.add_step(step)?;
            self.add_step(Step::Differs(first, other))?;
            self.differs = true;
        }
        Ok(())
    }

    /// Adds a point that no walk has reached before and returns its number; `None` if there are
    /// `MOST_POINTS`. A return asks for its word if that is the only one; if not, a walk is found.
    /// `AllocError` if memory runs out.
    fn reach(
        &mut self,
        procedure: Procedure,
        at: u16,
        counts: Counts,
        step: Step,
    ) -> Result<Option<u32>, AllocError> {
        if self.points.len() >= MOST_POINTS {
            return Ok(None);
        }
        let number = u32::try_from(self.points.len()).unwrap_or(u32::MAX);
        let (effect, next) = effect_at(self.program, at);
        let point = Point {
            procedure,
            at,
            next,
            effect,
            counts,
            rank: self.ranks.get(usize::from(at)).copied().unwrap_or(0),
            step: self.add_step(step)?,
        };
        self.points.push(point)?;
        self.numbers.put(procedure, at, number)?;
        self.left.push(number)?;
        if point.returns() && counts.height == 1 {
            self.ask(point, Places::one(number, Place::of_word(0)), 0)?;
        } else if point.returns() {
            self.find(point.step, number)?;
        }
        Ok(Some(number))
    }
}
