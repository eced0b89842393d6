//! A search for the points that the walks of a program reach, one by one, breadth first. Nothing rests on what it finds: of the points
//! that show a refusal it is checked that each comes from earlier ones (`reached`).

use crate::fault::Unexplained;
use crate::groups::Groups;
use crate::looked::{Looked, frame_after_return, look_at, room};
use crate::point::Point;
use frames80::{Code, Frame, Moves, role_of, slot};
use indexmap::IndexSet;
use std::alloc::{AllocError, Global};
use verify80_flow::Procedure;

/// Where a point of a search comes from: numbers of points that were found before it.
#[derive(Clone, Copy)]
pub enum Origin {
    /// The point is the main program's start.
    Begins,
    /// The instruction of the point with this number leads there.
    GoesOn(usize),
    /// The point with this number calls the procedure, and this is its entry.
    Enters(usize),
    /// A point calls a procedure that returns from another point, and this is the point after the
    /// call.
    ComesBack {
        /// The number of the point that calls.
        call: usize,
        /// The number of the point from which the procedure returns.
        exit: usize,
    },
}

/// A point that calls.
#[derive(Clone, Copy)]
pub struct CallingPoint {
    /// The number of the point.
    pub point: usize,
    /// The address that is called.
    pub target: u16,
    /// The address after the call.
    pub next: u16,
}

/// A point that returns.
#[derive(Clone, Copy)]
struct Exit {
    /// The number of the point.
    point: usize,
    /// How many words the procedure has taken there.
    taken: u32,
}

/// A procedure and a number of words: those that a caller of it can give, or those that an exit of it
/// has taken.
#[derive(Clone, Copy, PartialEq, Eq, Hash)]
struct Passing {
    /// The slot of the procedure.
    place: usize,
    /// The number of words.
    words: usize,
}

/// What tells a point from others: the slot of its procedure, its address, and the number of its
/// frame.
#[derive(Clone, Copy, PartialEq, Eq, Hash)]
struct Key {
    place: usize,
    at: u16,
    frame: usize,
}

/// The points that a search has found, in order of first sight, and where each comes from.
#[derive(Drop)]
pub struct Search {
    /// The points; indices in this list are their numbers.
    pub points: Vec<Point>,
    /// The keys of the points.
    known: IndexSet<Key>,
    /// The frames of the points, each once.
    frames: IndexSet<Frame>,
    /// For each point where it comes from.
    pub origins: Vec<Origin>,
    /// The points that call, in order of first sight.
    pub calls: Vec<CallingPoint>,
    /// What callers can give to callees, each once.
    offers: IndexSet<Passing>,
    /// The indices of `offers`, by the slot of the callee.
    offers_of: Groups,
    /// The indices of `calls`, by the index of what the caller can give.
    calls_of: Groups,
    /// The points that return, in order of first sight; one for each number of words that a procedure takes.
    exits: Vec<Exit>,
    /// What the exits have taken.
    takings: IndexSet<Passing>,
    /// The indices of `exits`, by the slot of the procedure.
    exits_of: Groups,
    /// Exits by their indices, each for one offer that is enough for it. Calls that can't give what an
    /// exit has taken are many, and are never gone through.
    fitting: Vec<usize>,
    /// The indices of `fitting`, by the index of the offer.
    fitting_of: Groups,
    /// How many points have been followed.
    followed: usize,
    /// What the points weigh together, `usize::MAX` at most.
    weight: usize,
}

impl Search {
    /// A search that has found no point yet. The call takes no memory.
    pub fn new(alloc: Global) -> Search {
        Search {
            points: Vec::new(alloc),
            known: IndexSet::new(alloc),
            frames: IndexSet::new(alloc),
            origins: Vec::new(alloc),
            calls: Vec::new(alloc),
            offers: IndexSet::new(alloc),
            offers_of: Groups::new(alloc),
            calls_of: Groups::new(alloc),
            exits: Vec::new(alloc),
            takings: IndexSet::new(alloc),
            exits_of: Groups::new(alloc),
            fitting: Vec::new(alloc),
            fitting_of: Groups::new(alloc),
            followed: 0,
            weight: 0,
        }
    }

    /// Follows points in order of first sight, from the main program's start on, until all are
    /// followed, or until the points that were found weigh more than `weight`. Answers whether all
    /// are followed.
    ///
    /// # Errors
    /// `Limit` if the frame of a point has more than 1,000,000 words, or as many taken. `Memory` if memory runs out.
    pub fn grow<C: Code>(
        &mut self,
        alloc: Global,
        program: &C,
        weight: usize,
    ) -> Result<bool, Unexplained> {
        if self.points.is_empty() {
            self.begin(alloc, program)?;
        }
        for number in self.followed..usize::MAX {
            if number >= self.points.len() {
                break;
            }
            if self.weight > weight {
                return Ok(false);
            }
            self.visit(alloc, program, number)?;
            self.followed = number + 1;
        }
        Ok(true)
    }

    /// What the points that were found weigh together, `usize::MAX` at most.
    pub fn weight(&self) -> usize {
        self.weight
    }

    /// Whether a point was found from which this procedure returns.
    pub fn returns(&self, procedure: Procedure) -> bool {
        self.exits_of.has(slot(procedure))
    }

    /// Adds the main program's start. `AllocError` if memory runs out.
    fn begin<C: Code>(&mut self, alloc: Global, program: &C) -> Result<(), AllocError> {
        let frame = Frame::main_entry(alloc)?;
        self.add(
            alloc,
            program,
            Procedure::Main,
            program.start(),
            frame,
            Origin::Begins,
        )
    }

    /// Adds a point with its origin, unless it was found before. `AllocError` if memory runs out.
    fn add<C: Code>(
        &mut self,
        alloc: Global,
        program: &C,
        procedure: Procedure,
        at: u16,
        frame: Frame,
        origin: Origin,
    ) -> Result<(), AllocError> {
        let key = Key {
            place: slot(procedure),
            at,
            frame: self.number_of(alloc, &frame)?,
        };
        if self.known.insert(key)? {
            let point = Point {
                procedure,
                at,
                frame,
            };
            self.weight = self.weight.saturating_add(weight_of(program, &point));
            self.points.push(point)?;
            self.origins.push(origin)?;
        }
        Ok(())
    }

    /// The number of a frame, which is added if it is new. `AllocError` if memory runs out.
    fn number_of(&mut self, alloc: Global, frame: &Frame) -> Result<usize, AllocError> {
        if let Some(number) = self.frames.get_index_of(frame) {
            return Ok(number);
        }
        let (number, _) = self.frames.insert_full(frame.copy(alloc)?)?;
        Ok(number)
    }

    /// Adds the points that the instruction of point `number` leads to; none if it may not be
    /// executed.
    fn visit<C: Code>(
        &mut self,
        alloc: Global,
        program: &C,
        number: usize,
    ) -> Result<(), Unexplained> {
        let Some(point) = self.points.get(number) else {
            return Ok(());
        };
        let (procedure, at) = (point.procedure, point.at);
        match look_at(alloc, program, point)? {
            Looked::Wrong(_) | Looked::Stuck(_) => Ok(()),
            Looked::Moved(moves, next) => {
                self.follow(alloc, program, number, procedure, at, &moves, next)
            }
        }
    }

    /// Adds the points that a move of point `number` leads to. `next` is the address after its
    /// instruction.
    fn follow<C: Code>(
        &mut self,
        alloc: Global,
        program: &C,
        number: usize,
        procedure: Procedure,
        at: u16,
        moves: &Moves,
        next: u16,
    ) -> Result<(), Unexplained> {
        match moves {
            Moves::End => Ok(()),
            Moves::On(frame) => self.go_on(alloc, program, number, procedure, frame, &[next]),
            Moves::Jump(frame, to) => self.go_on(alloc, program, number, procedure, frame, &[*to]),
            Moves::Either(frame, to) => {
                self.go_on(alloc, program, number, procedure, frame, &[next, *to])
            }
            Moves::Case(frame) => {
                let targets = program.targets(at);
                self.go_on(alloc, program, number, procedure, frame, targets)
            }
            Moves::Call(_, target) => self.call(alloc, program, number, *target, next),
            Moves::MaybeCall(frame, target) => {
                self.go_on(alloc, program, number, procedure, frame, &[next])?;
                self.call(alloc, program, number, *target, next)
            }
            Moves::Return(taken) => self.leave(alloc, program, number, procedure, *taken),
            Moves::MaybeReturn(frame, taken) => {
                self.go_on(alloc, program, number, procedure, frame, &[next])?;
                self.leave(alloc, program, number, procedure, *taken)
            }
        }
    }

    /// Adds the points at these addresses of a procedure, with a copy of the frame at each, to which
    /// point `number` leads.
    fn go_on<C: Code>(
        &mut self,
        alloc: Global,
        program: &C,
        number: usize,
        procedure: Procedure,
        frame: &Frame,
        addresses: &[u16],
    ) -> Result<(), Unexplained> {
        for to in addresses {
            let copy = frame.copy(alloc)?;
            self.add(alloc, program, procedure, *to, copy, Origin::GoesOn(number))?;
        }
        Ok(())
    }

    /// Records that a point calls `target`, and adds the callee's entry, and the point after the
    /// call for each known exit of the callee.
    fn call<C: Code>(
        &mut self,
        alloc: Global,
        program: &C,
        point: usize,
        target: u16,
        next: u16,
    ) -> Result<(), Unexplained> {
        let callee = Procedure::Entry(target);
        let frame = Frame::entry(alloc)?;
        self.add(alloc, program, callee, target, frame, Origin::Enters(point))?;
        let call = CallingPoint {
            point,
            target,
            next,
        };
        let offer = self.offer_of(alloc, program, point, slot(callee))?;
        self.calls.push(call)?;
        self.calls_of.push(offer)?;
        let fitting = self.fitting_of.of(alloc, offer)?;
        self.come_back_by(alloc, program, call, &fitting)
    }

    /// The index of what the caller at point `number` can give to the procedure with slot `place`, which is added with the known exits
    /// that it is enough for, if it is new. `AllocError` if memory runs out.
    fn offer_of<C: Code>(
        &mut self,
        alloc: Global,
        program: &C,
        number: usize,
        place: usize,
    ) -> Result<usize, AllocError> {
        let words = match self.points.get(number) {
            Some(caller) => room(&caller.frame, role_of(program, caller.procedure)),
            None => 0,
        };
        let (offer, is_new) = self.offers.insert_full(Passing { place, words })?;
        if is_new {
            self.offers_of.push(place)?;
            let exits = self.exits_of.of(alloc, place)?;
            self.fit_each(&exits, offer, words)?;
        }
        Ok(offer)
    }

    /// Records which of the exits with these indices an offer of `words` words is enough for. `AllocError` if memory runs out.
    fn fit_each(&mut self, exits: &[usize], offer: usize, words: usize) -> Result<(), AllocError> {
        for number in exits {
            self.fit(*number, offer, words)?;
        }
        Ok(())
    }

    /// Records that an offer of `words` words is enough for the exit with index `number`, if it is. `AllocError` if memory runs out.
    fn fit(&mut self, number: usize, offer: usize, words: usize) -> Result<(), AllocError> {
        if let Some(exit) = self.exits.get(number) {
            if exit.taken as usize <= words {
                self.fitting.push(number)?;
                self.fitting_of.push(offer)?;
            }
        }
        Ok(())
    }

    /// Adds the point after a call for each of the exits that `fitting` has at these indices.
    fn come_back_by<C: Code>(
        &mut self,
        alloc: Global,
        program: &C,
        call: CallingPoint,
        indices: &[usize],
    ) -> Result<(), Unexplained> {
        for index in indices {
            if let Some(exit) = self.fitting_exit(*index) {
                self.come_back(alloc, program, call, exit)?;
            }
        }
        Ok(())
    }

    /// The exit that `fitting` has at this index; `None` if there is none.
    fn fitting_exit(&self, index: usize) -> Option<Exit> {
        match self.fitting.get(index) {
            Some(number) => self.exits.get(*number).copied(),
            None => None,
        }
    }

    /// Records that a procedure returns from a point with `taken` words taken, unless another exit
    /// has taken as many, and adds the point after each known call of the procedure.
    fn leave<C: Code>(
        &mut self,
        alloc: Global,
        program: &C,
        point: usize,
        procedure: Procedure,
        taken: u32,
    ) -> Result<(), Unexplained> {
        let place = slot(procedure);
        let words = taken as usize;
        if !self.is_first_to_take(place, words)? {
            return Ok(());
        }
        let exit = Exit { point, taken };
        let number = self.exits.len();
        self.exits.push(exit)?;
        self.exits_of.push(place)?;
        let calls = self.calls_with_room(alloc, place, number, words)?;
        self.come_back_to(alloc, program, &calls, exit)
    }

    /// Whether no known exit of the procedure with slot `place` has taken as many words; records them. `AllocError` if memory runs out.
    fn is_first_to_take(&mut self, place: usize, words: usize) -> Result<bool, AllocError> {
        let is_first = self.takings.insert(Passing { place, words })?;
        Ok(is_first)
    }

    /// The indices of the known calls of the procedure with slot `place` whose callers can give `taken` words, ascending; what they offer
    /// is recorded as enough for the exit with index `number`. `AllocError` if memory runs out.
    fn calls_with_room(
        &mut self,
        alloc: Global,
        place: usize,
        number: usize,
        taken: usize,
    ) -> Result<Vec<usize>, AllocError> {
        let offers = self.offers_of.of(alloc, place)?;
        let mut calls = Vec::new(alloc);
        self.gather_calls(alloc, &offers, number, taken, &mut calls)?;
        calls.sort()?;
        Ok(calls)
    }

    /// Appends to `calls` the indices of those that make one of these offers, if it is enough for `taken` words, and records that it is
    /// enough for the exit with index `number`. `AllocError` if memory runs out.
    fn gather_calls(
        &mut self,
        alloc: Global,
        offers: &[usize],
        number: usize,
        taken: usize,
        calls: &mut Vec<usize>,
    ) -> Result<(), AllocError> {
        for offer in offers {
            let words = self.words_offered(*offer);
            if taken <= words {
                self.fit(number, *offer, words)?;
                let of = self.calls_of.of(alloc, *offer)?;
                calls.extend_from_slice(&of)?;
            }
        }
        Ok(())
    }

    /// How many words the offer with this index is of; 0 if there is none.
    fn words_offered(&self, offer: usize) -> usize {
        match self.offers.get_index(offer) {
            Some(offered) => offered.words,
            None => 0,
        }
    }

    /// Adds the point after each of the calls with these numbers, for an exit of their callee.
    fn come_back_to<C: Code>(
        &mut self,
        alloc: Global,
        program: &C,
        calls: &[usize],
        exit: Exit,
    ) -> Result<(), Unexplained> {
        for number in calls {
            if let Some(call) = self.calls.get(*number).copied() {
                self.come_back(alloc, program, call, exit)?;
            }
        }
        Ok(())
    }

    /// Adds the point after a call whose callee returns by `exit`, unless the caller has too few
    /// words.
    fn come_back<C: Code>(
        &mut self,
        alloc: Global,
        program: &C,
        call: CallingPoint,
        exit: Exit,
    ) -> Result<(), Unexplained> {
        let Some(caller) = self.points.get(call.point) else {
            return Ok(());
        };
        let procedure = caller.procedure;
        let role = role_of(program, procedure);
        let Some(frame) = frame_after_return(alloc, &caller.frame, role, exit.taken)? else {
            return Ok(());
        };
        let origin = Origin::ComesBack {
            call: call.point,
            exit: exit.point,
        };
        self.add(alloc, program, procedure, call.next, frame, origin)?;
        Ok(())
    }
}

/// What a point weighs, `usize::MAX` at most: eight, one for each word of its frame and each word
/// taken, and as much again for each target that is declared at its address.
fn weight_of<C: Code>(program: &C, point: &Point) -> usize {
    let words = point.frame.words.len();
    let own = words
        .saturating_add(8)
        .saturating_add(point.frame.taken as usize);
    own.saturating_mul(program.targets(point.at).len().saturating_add(1))
}

/// What points weigh together, `usize::MAX` at most.
pub fn points_weight<C: Code>(program: &C, points: &[Point]) -> usize {
    let mut weight: usize = 0;
    for point in points {
        weight = weight.saturating_add(weight_of(program, point));
    }
    weight
}
