//! Trials: states are followed from the start until no more are found, and told apart in one way after the other.

use crate::arriving::Arrival;
use crate::budget::Budget;
use crate::marks::count_bytes;
use crate::nodes::{NOWHERE, Nodes, place_of};
use crate::program::FollowedProgram;
use crate::stop::{Stop, StopReason, Unfollowed};
use decode80::{Fetched, behind};
use std::alloc::{AllocError, Global};
use std::collections::BTreeSet;
use std::mem;
use verify80_follow::{Listed, Table, Way};
use verify80_states::APART;

/// Whether addresses that LXI names and few bytes of A tell states apart, in one trial after the other.
const TRIALS: [(bool, bool); 4] = [(false, false), (true, false), (false, true), (true, true)];
/// How many bytes of a state are followed at the cost of a way.
const BYTES_PER_WAY: usize = 64;

/// What comes of trials.
#[derive(Drop)]
pub(crate) enum Tried {
    Found(Table),
    /// None gave a table; and whether there were too many states with one.
    Stopped(Stop, bool),
    /// What is called and wasn't tried, by a program whose calls are to be stepped over.
    Untried(Vec<u16>),
}

/// A trial.
#[derive(Drop)]
struct Trial<'a> {
    alloc: Global,
    program: FollowedProgram<'a>,
    nodes: Nodes,
    /// The hints of the states that were followed last.
    hints: Vec<u32>,
    /// The ways that were behind no call when they were found.
    ways: BTreeSet<Way>,
    /// What is called and wasn't tried.
    untried: BTreeSet<u16>,
    /// The place of the state that is followed.
    place: u32,
    /// How many bytes the stack has, at most.
    most: usize,
    /// What may still be taken.
    left: Budget,
}

/// Follows a program with each way to tell states apart, until one gives a table, or comes to what wasn't tried.
///
/// # Errors
/// `AllocError` if memory runs out.
pub(crate) fn try_each(
    alloc: Global,
    followed: FollowedProgram<'_>,
    budget: &mut Budget,
) -> Result<Tried, AllocError> {
    let mut are_many = [false; 2];
    let mut is_crowded = false;
    let mut shown = Stop {
        at: followed.start.at(),
        reason: StopReason::TooManyStates,
        way: Vec::new(alloc),
    };
    for (splits_addresses, splits_bytes) in TRIALS {
        // If there are too many states, there are with more splits.
        if splits_addresses && are_many[0] || splits_bytes && are_many[1] {
            continue;
        }
        let followed = FollowedProgram {
            splits_addresses,
            splits_bytes,
            ..followed
        };
        let (stop, are_too_many) = match try_once(alloc, followed, budget)? {
            Tried::Stopped(stop, are_too_many) => (stop, are_too_many),
            tried => return Ok(tried),
        };
        are_many[0] |= are_too_many && !splits_bytes;
        are_many[1] |= are_too_many && !splits_addresses;
        is_crowded |= are_too_many;
        if !are_too_many || shown.way.is_empty() {
            shown = stop;
        }
    }
    Ok(Tried::Stopped(shown, is_crowded))
}

/// Follows a program from its start, as far as `left` allows.
fn try_once(
    alloc: Global,
    program: FollowedProgram<'_>,
    left: &mut Budget,
) -> Result<Tried, AllocError> {
    let mut trial = Trial {
        alloc,
        program,
        nodes: Nodes::new(alloc, left.states),
        hints: Vec::new(alloc),
        ways: BTreeSet::new(alloc),
        untried: BTreeSet::new(alloc),
        place: 0,
        most: 0,
        left: *left,
    };
    let followed = match trial.follow_all() {
        Ok(()) => trial.make_table(),
        Err(reason) => Err(reason),
    };
    *left = trial.left;
    match followed {
        Ok(table) => {
            *left = left.without(table.states.len());
            Ok(Tried::Found(table))
        }
        Err(Unfollowed::Memory) => Err(AllocError),
        Err(_) if !trial.untried.is_empty() => {
            Ok(Tried::Untried(trial.untried.iter().copied().collect(alloc)?))
        }
        Err(Unfollowed::Stopped(reason)) => {
            let are_too_many = reason == StopReason::TooManyStates;
            let place = if are_too_many {
                trial.nodes.most_crowded(alloc)?
            } else {
                trial.place
            };
            let way = trial.nodes.way_to(alloc, place)?;
            let stop = Stop {
                at: way.as_slice().last().copied().unwrap_or(program.start.at()),
                reason,
                way,
            };
            Ok(Tried::Stopped(stop, are_too_many))
        }
    }
}

impl Trial<'_> {
    /// Follows states from the first ones on until none waits.
    fn follow_all(&mut self) -> Result<(), Unfollowed> {
        for first in self.program.start.states(self.alloc)? {
            let first = Arrival {
                marks: vec![in self.alloc; false; count_bytes(&first)]?,
                state: first,
                is_split: false,
            };
            self.nodes.enter(first, NOWHERE)?;
        }
        for _ in 0..=self.left.ways {
            let Some(place) = self.nodes.next() else {
                break;
            };
            self.hints.clear();
            self.follow(place, &[])?;
        }
        if self.nodes.is_waiting() || !self.untried.is_empty() {
            return Err(Unfollowed::Stopped(StopReason::TooManyStates));
        }
        Ok(())
    }

    /// The ways that are listed, once all states are known: those that go behind no call at which a state stands.
    fn listed_ways(&self) -> Result<Vec<Way>, AllocError> {
        let mut ways = Vec::new(self.alloc);
        for way in &self.ways {
            if !self.is_behind_call(way.to) {
                ways.push(*way)?;
            }
        }
        Ok(ways)
    }

    /// Follows each state once more for its hints, and answers the table, without what it leaves open.
    fn make_table(&mut self) -> Result<Table, Unfollowed> {
        let ways = self.listed_ways()?;
        self.hints.clear();
        self.hints.push(0)?;
        for number in 0..self.nodes.states.len() {
            if let Some(state) = self.nodes.states.get_mut(number) {
                state.hint = place_of(self.hints.len());
            }
            self.follow(place_of(number), &ways)?;
        }
        Ok(Table {
            states: mem::replace(&mut self.nodes.states, Vec::new(self.alloc)),
            hints: mem::replace(&mut self.hints, Vec::new(self.alloc)),
            ways,
            listed: Listed {
                stores: Vec::new(self.alloc),
                jumps: Vec::new(self.alloc),
            },
            bytes: u16::try_from(self.most).unwrap_or(u16::MAX),
            summaries: Vec::new(self.alloc),
        })
    }

    /// Enters what each way makes of the state at a place, and adds a hint for each; that of a listed way is its place among `ways`.
    fn follow(&mut self, place: u32, ways: &[Way]) -> Result<(), Unfollowed> {
        self.place = place;
        let Some((state, _)) = self.nodes.get(place) else {
            return Ok(());
        };
        let at = state.at;
        let cost = 1 + count_bytes(state) / BYTES_PER_WAY;
        let found = self.program.instruction(at)?;
        if let Some(to) = self.program.untried(found.instr) {
            self.untried.insert(to)?;
            return Ok(());
        }
        self.most = self
            .most
            .max(self.program.count_deepest(state, found.instr));
        let count = self.program.count_hints(at, found.instr);
        let first = self.hints.len();
        self.hints.resize(first.saturating_add(count), NOWHERE)?;
        if let Some((place, _)) = self.program.steps_over(found.instr) {
            self.set_hint(first.saturating_add(1), place as usize);
        }
        for number in 0..count {
            if self.left.ways < cost {
                return Err(Unfollowed::Stopped(StopReason::TooManyStates));
            }
            self.left.ways = self.left.ways.saturating_sub(cost);
            self.go(found, first, number, ways)?;
        }
        Ok(())
    }

    /// Enters what one way makes of the state that is followed, and sets the hint of it, and of the way if that is listed.
    fn go(
        &mut self,
        found: Fetched,
        first: usize,
        number: usize,
        ways: &[Way],
    ) -> Result<(), Unfollowed> {
        let Some((state, note)) = self.nodes.get(self.place) else {
            return Ok(());
        };
        let Some(lead) = self.program.lead(state, found, number)? else {
            return Ok(());
        };
        let at = state.at;
        let arrival = self
            .program
            .arrive(self.alloc, state, &note.marks, found, lead)?;
        if number == 0 && self.program.goes_by_number(at, found.instr) {
            let way = Way { at, to: lead.to };
            if !self.is_behind_call(way.to) {
                self.ways.insert(way)?;
            }
            let place = ways.partition_point(|other| *other < way);
            if ways.get(place) == Some(&way) {
                self.set_hint(first.saturating_add(1), place);
            }
        }
        let to = self.enter(arrival)?;
        self.set_hint(first.saturating_add(number), to);
        Ok(())
    }

    /// Whether an address is behind a call at which a state stands.
    fn is_behind_call(&self, to: u16) -> bool {
        self.is_call(behind(to, 1), to) || self.is_call(behind(to, 3), to)
    }

    /// Whether a state stands at a call at an address that returns to another.
    fn is_call(&self, at: u16, to: u16) -> bool {
        self.nodes.addresses.contains(&at) && self.program.has_call(at, to)
    }

    /// Enters a state, or one for each byte of A. Answers the hint of it, which says where among the hints the places of those begin.
    fn enter(&mut self, arrival: Arrival) -> Result<usize, Unfollowed> {
        if !arrival.is_split {
            return Ok(self.nodes.enter(arrival, self.place)? as usize);
        }
        let first = self.hints.len();
        let a = arrival.state.known.a;
        for byte in a.first..=a.last {
            let one = arrival.with_a(self.alloc, byte)?;
            let to = self.nodes.enter(one, self.place)?;
            self.hints.push(to)?;
        }
        self.left.ways = self.left.ways.saturating_sub(usize::from(a.last));
        Ok(first.saturating_add(APART as usize))
    }

    /// Sets a hint.
    fn set_hint(&mut self, number: usize, to: usize) {
        if let Some(hint) = self.hints.get_mut(number) {
            *hint = place_of(to);
        }
    }
}
