//! The search for what returns ask for, and for a walk to a return whose word isn't the return address.
//!
//! The search goes forth over the points that walks reach, with the counts that they have there, and back from the returns: a
//! return asks for its word, and what is asked for at a point is asked for where it comes from, at each point that leads there.
//! That is done for 64 places of a frame at once. If the bottom word is asked for at the start of a procedure, the procedure
//! returns with its return address, and walks go on after its calls. If another word reaches a place that is asked for, a walk
//! leads from there to a return with that word, and the search ends.

mod back;
mod follow;
mod reach;

use crate::asks::Asks;
use crate::cases::Cases;
use crate::hubs::Hubs;
use crate::lists::Lists;
use crate::order::rank_addresses;
use crate::place_sets::PlaceSets;
use crate::point::{Counts, Point};
use crate::step::Step;
use frames80::{Code, PointNumbers, Procedure};
use std::alloc::{AllocError, Global};

/// The most steps that are kept.
const MOST_STEPS: usize = 2_000_000;

/// How a procedure returns.
#[derive(Clone, Copy)]
struct Exit {
    /// The number of the step that reaches its return.
    step: u32,
    /// How many words it has taken there.
    taken: u32,
}

/// The search for what returns ask for. Steps and points are known by their numbers.
#[derive(Drop)]
pub(crate) struct Search<'a, C> {
    program: &'a C,
    /// The number of each point.
    numbers: PointNumbers,
    /// The points, by number.
    points: Vec<Point>,
    /// The rank of each address, in postorder.
    ranks: Vec<u32>,
    /// The steps, by number.
    steps: Vec<Step>,
    /// For each point the ways that lead to it, but for those from PCHLs.
    leading: Lists,
    /// The PCHLs that were reached, and those that lead to each address.
    cases: Cases,
    /// Which PCHLs were reached, and what was asked for at them.
    hubs: Hubs,
    /// For each entry how its procedure returns, if that is known.
    exits: Vec<Option<Exit>>,
    /// For each entry the calls that wait for its procedure to return.
    callers: Lists,
    /// The points whose ways on are still to be followed.
    left: Vec<u32>,
    /// The places that are asked for at each point.
    asked: PlaceSets,
    /// For each place that is asked for, how its word goes on, bit by bit.
    choices: PlaceSets,
    /// The places that are asked for and still to be gone back from.
    asks: Asks,
    /// Whether steps were added that show two walks to one point with different counts.
    differs: bool,
    /// Whether a walk is found to a return with another word than the return address.
    is_found: bool,
}

/// The steps of a walk to a return whose word isn't the return address, or of two walks to one
/// point with different counts, and of the walks that these need. Empty if no such walks are found,
/// or if the first kind alone is found and takes 2,000,000 steps or more.
///
/// # Errors
/// `AllocError` if memory runs out.
pub fn find_steps<C: Code>(alloc: Global, program: &C) -> Result<Vec<Step>, AllocError> {
    Ok(Search::of(alloc, program)?.into_steps())
}

impl<'a, C: Code> Search<'a, C> {
    /// Searches a program until a walk is found to a return with another word than the return
    /// address, or all that returns ask for is found.
    ///
    /// # Errors
    /// `AllocError` if memory runs out.
    pub(crate) fn of(alloc: Global, program: &'a C) -> Result<Search<'a, C>, AllocError> {
        let mut search = Search::new(alloc, program)?;
        search.go_through()?;
        Ok(search)
    }

    /// A search that has reached no point. `AllocError` if memory runs out.
    fn new(alloc: Global, program: &'a C) -> Result<Search<'a, C>, AllocError> {
        let exits = vec![in alloc; None; 65536]?;
        let ranks = rank_addresses(alloc, program)?;
        let cases = Cases::new(alloc)?;
        let numbers = PointNumbers::new(alloc)?;
        Ok(Search {
            program,
            numbers,
            points: Vec::new(alloc),
            ranks,
            steps: Vec::new(alloc),
            leading: Lists::new(alloc),
            cases,
            hubs: Hubs::new(alloc),
            exits,
            callers: Lists::new(alloc),
            left: Vec::new(alloc),
            asked: PlaceSets::new(alloc),
            choices: PlaceSets::new(alloc),
            asks: Asks::new(alloc),
            differs: false,
            is_found: false,
        })
    }

    /// Goes through the points until a walk is found to a return with another word than the return
    /// address, or nothing is left. `AllocError` if memory runs out.
    fn go_through(&mut self) -> Result<(), AllocError> {
        let none = Counts {
            taken: 0,
            height: 0,
        };
        self.come(Procedure::Main, self.program.start(), none, Step::Begins)?;
        // The bound is never met: each point is left once, and once more when its callee's return is seen, and each place asked for once.
        for _ in 0..u64::MAX {
            if self.is_found {
                break;
            } else if let Some(number) = self.left.pop() {
                self.leave(number)?;
            } else if let Some(places) = self.asks.take() {
                self.go_back(places)?;
            } else {
                break;
            }
        }
        self.settle();
        Ok(())
    }

    /// Leaves of a search that has ended what it shows: nothing is asked for if a walk was found to
    /// a return with another word than the return address, and there are steps only if they are
    /// whole.
    fn settle(&mut self) {
        if self.is_found {
            self.asked.clear();
        }
        let is_whole = self.is_found && self.steps.len() < MOST_STEPS;
        if !is_whole && !self.differs {
            self.steps.clear();
        }
    }

    /// The steps that the search shows.
    fn into_steps(self) -> Vec<Step> {
        let Search { steps, .. } = self;
        steps
    }

    /// The numbers of the points, and what is asked for at each.
    pub(crate) fn into_asked(self) -> (PointNumbers, PlaceSets) {
        let Search { numbers, asked, .. } = self;
        (numbers, asked)
    }

    /// The point with this number, or `None` if there is none.
    fn point(&self, number: u32) -> Option<Point> {
        self.points.get(number as usize).copied()
    }

    /// How the procedure that is entered at an address returns, or `None` if that isn't known.
    fn exit_of(&self, entry: u16) -> Option<Exit> {
        *self.exits.get(usize::from(entry))?
    }

    /// Adds a step and returns its number. From `MOST_STEPS` on steps are dropped. `AllocError` if
    /// memory runs out.
    fn add_step(&mut self, step: Step) -> Result<u32, AllocError> {
        let number = self.steps.len();
        if number < MOST_STEPS {
            self.steps.push(step)?;
        }
        Ok(u32::try_from(number).unwrap_or(u32::MAX))
    }
}
