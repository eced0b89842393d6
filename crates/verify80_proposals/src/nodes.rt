//! The states that are known so far, by address.

use decode80::{Flow, Instr};
use std::alloc::{AllocError, Global};
use std::collections::HashMap;
use verify80_needs::{
    Landmarks, Named, Needs, ReachedProgram, Units, Variables, sum_of, widened_cells,
};
use verify80_states::{Placed, State, StoredByte};

/// The place of no state.
pub(crate) const NOWHERE: u32 = u32::MAX;
/// How many states an address has, at most: a loop of 4,096 turns is walked through.
const MOST: usize = 4352;
/// How many states an address has, at most, once some of them are no longer distinguished.
const JOINED: usize = 256;
/// How many states an address has, at most, once its procedure has had its ways.
const FEWER: usize = 32;
/// How many states there are in all before each address has one.
const MANY: usize = 200_000;

/// What a search may cost.
#[derive(Clone, Copy)]
pub(crate) struct Limits {
    /// How many ways are followed in a procedure before its addresses have fewer states; with twice as many each has one, and with three
    /// times as many its spans grow at once to any word.
    pub procedure: usize,
    /// How many ways are followed in all.
    pub all: usize,
    /// How many ways are followed after that, when each address has one state.
    pub late: usize,
    /// The bytes of memory that states name.
    pub memory: Named,
}

/// A number as a place of a list of states.
pub(crate) fn place_of(number: usize) -> u32 {
    u32::try_from(number).unwrap_or(NOWHERE)
}

/// A state that was found.
#[derive(Clone, Copy)]
pub(crate) struct Node {
    /// The state at its address. It has no hints until it is followed: then its hint isn't `NOWHERE`.
    pub placed: Placed,
    /// How often the state has taken in another.
    pub growths: u32,
    /// The place of the state that has taken this one in, which was found later: its own, if none has.
    pub taken_by: u32,
    /// Whether others have still to be followed from this state.
    pub is_waiting: bool,
    /// Whether neither this state nor one that it comes from has taken in another.
    pub is_exact: bool,
}

/// What the states at an address make of the condition that the instruction there asks.
#[derive(Clone, Copy)]
pub(crate) enum Decision {
    /// No exact state was followed.
    Unseen,
    /// An exact state leaves the condition open, and no state decides it.
    Open,
    /// A state decides the condition.
    Decided,
}

/// The states at one address.
#[derive(Drop)]
pub(crate) struct Group {
    /// The places of those that none has taken in.
    pub places: Vec<u32>,
    /// The parts by which states are no longer distinguished there.
    pub joined: Units,
}

/// The states that are known so far, and those from which others have still to be followed.
#[derive(Drop)]
pub(crate) struct Nodes<'a> {
    /// By address the number of its group.
    numbers: &'a [u16],
    limits: Limits,
    /// All states, with those that were taken in.
    pub(crate) nodes: Vec<Node>,
    /// The states of each address.
    pub(crate) groups: Vec<Group>,
    /// The place of each state that none has taken in, by the sum of its address and of the parts that distinguish states there.
    by_sum: HashMap<u64, u32>,
    pub(crate) waiting: Vec<u32>,
    needs: Needs,
    landmarks: Landmarks,
    pub(crate) variables: Variables,
    /// Each variable's address, with an address at which states name it: ascending.
    readers: Vec<(u16, u16)>,
    /// The place of the first state, and the places to which the ways of each state lead; or, from `APART` on, where the places for each byte
    /// of A begin.
    pub(crate) hints: Vec<u32>,
    /// The parts by which states are never distinguished.
    pub(crate) never: Units,
    /// By number how many ways were followed in each group.
    spent: Vec<usize>,
    /// How many ways were followed, since each address has one state if it has.
    pub(crate) followed: usize,
    /// Whether each address has one state from now on, and spans grow at once to any word.
    pub(crate) is_late: bool,
    /// Whether states that are entered are exact, unless they are joined.
    pub(crate) enters_exact: bool,
    /// By address what was made of the condition there.
    pub(crate) decisions: Vec<Decision>,
}

impl<'a> Nodes<'a> {
    /// A table without states.
    ///
    /// # Errors
    /// `AllocError` if memory runs out.
    pub fn new(
        alloc: Global,
        program: ReachedProgram<'_>,
        numbers: &'a [u16],
        limits: Limits,
    ) -> Result<Nodes<'a>, AllocError> {
        let needs = Needs::of(alloc, program, limits.memory)?;
        let variables = Variables::new(alloc, &needs.variables)?;
        let never = if variables.list().is_empty() {
            Units::NONE
        } else {
            Units::CELLS
        };
        let groups = (0..65_536_u32).map(|_| Group {
            places: Vec::new(alloc),
            joined: never,
        });
        Ok(Nodes {
            numbers,
            limits,
            nodes: Vec::new(alloc),
            groups: groups.collect(alloc)?,
            by_sum: HashMap::new(alloc),
            waiting: Vec::new(alloc),
            readers: needs.readers(alloc)?,
            needs,
            landmarks: Landmarks::new(alloc, program)?,
            variables,
            hints: vec![in alloc; 0; 1]?,
            never,
            spent: vec![in alloc; 0; 65_536]?,
            followed: 0,
            is_late: false,
            enters_exact: true,
            decisions: vec![in alloc; Decision::Unseen; 65_536]?,
        })
    }

    /// Notes that others have to be followed from a state.
    pub fn wait(&mut self, place: u32) -> Result<(), AllocError> {
        if let Some(node) = self.nodes.get_mut(place as usize)
            && !node.is_waiting
        {
            node.is_waiting = true;
            self.waiting.push(place)?;
        }
        Ok(())
    }

    /// Notes how many ways were followed from an address.
    pub fn note_followed(&mut self, at: u16, ways: usize) {
        self.followed = self.followed.saturating_add(ways);
        if let Some(number) = self.numbers.get(usize::from(at))
            && let Some(spent) = self.spent.get_mut(usize::from(*number))
        {
            *spent = spent.saturating_add(ways);
        }
    }

    /// Notes whether a state decides the condition that the instruction at its address asks.
    pub fn note_condition(&mut self, at: u16, instr: Instr, state: State) {
        let condition = match instr.flow() {
            Flow::JumpsIf(condition, _) | Flow::ReturnsIf(condition) => condition,
            _ => return,
        };
        let decides = state.given(condition, true).is_none()
            || state.given(condition, false).is_none();
        let is_exact = self.enters_exact;
        if let Some(decision) = self.decisions.get_mut(usize::from(at)) {
            *decision = match *decision {
                _ if decides => Decision::Decided,
                Decision::Unseen if is_exact => Decision::Open,
                before => before,
            };
        }
    }

    /// The place of a state at an address that says no more than this one: one that is there, or one that is made.
    ///
    /// # Errors
    /// `AllocError` if memory runs out.
    pub fn enter(&mut self, alloc: Global, at: u16, state: State) -> Result<u32, AllocError> {
        let state = self.needs.needed_part(at, state, &self.variables);
        let Some(group) = self.groups.get(usize::from(at)) else {
            return Ok(NOWHERE);
        };
        let (count, joined) = (group.places.len(), group.joined);
        let sum = sum_of(at, state, joined);
        if let Some(place) = self.by_sum.get(&sum)
            && let Some(node) = self.nodes.get(*place as usize)
            && state.is_inside(node.placed.state, self.variables.list())
        {
            return Ok(*place);
        }
        if count >= self.most(at, joined != self.never) && joined != Units::ALL {
            self.join_some(alloc, at)?;
            return self.put(at, state);
        }
        self.put_as(at, sum, state)
    }

    /// Puts a state at its address: into the one that differs from it in joined parts alone, or as one of its own. Answers the place.
    pub fn put(&mut self, at: u16, state: State) -> Result<u32, AllocError> {
        let joined = self
            .groups
            .get(usize::from(at))
            .map_or(Units::ALL, |group| group.joined);
        self.put_as(at, sum_of(at, state, joined), state)
    }

    /// Puts a state with this sum at its address. Answers the place.
    fn put_as(&mut self, at: u16, sum: u64, state: State) -> Result<u32, AllocError> {
        let place = match self.by_sum.get(&sum) {
            Some(place) => *place,
            None => place_of(self.nodes.len()),
        };
        let growths = if self.grows_at_once(at) { u32::MAX } else { 0 };
        match self.nodes.get_mut(place as usize) {
            Some(node) => {
                let growths = growths.max(node.growths);
                node.placed.state = self.landmarks.grown(node.placed.state, state, growths);
                node.growths = node.growths.saturating_add(1);
                node.is_exact = false;
            }
            None => {
                self.by_sum.insert(sum, place)?;
                if let Some(group) = self.groups.get_mut(usize::from(at)) {
                    group.places.push(place)?;
                }
                self.nodes.push(Node {
                    placed: Placed {
                        at,
                        state,
                        hint: NOWHERE,
                    },
                    growths: 0,
                    taken_by: place,
                    is_waiting: false,
                    is_exact: self.enters_exact,
                })?;
            }
        }
        self.wait(place)?;
        Ok(place)
    }

    /// Notes that a byte is stored: each variable where that may be grows, and so do the states that name it.
    pub fn note_stored(&mut self, stored: StoredByte) -> Result<(), AllocError> {
        let numbers = self.variables.numbers_in(stored.at);
        for number in numbers.0..numbers.1 {
            if let Some(address) = self.variables.grow(&self.landmarks, number, stored.bytes) {
                self.widen(address)?;
            }
        }
        Ok(())
    }

    /// Widens the states that name a variable.
    fn widen(&mut self, address: u16) -> Result<(), AllocError> {
        let first = self.readers.partition_point(|reader| reader.0 < address);
        let end = self.readers.partition_point(|reader| reader.0 <= address);
        for number in first..end {
            if let Some((_, at)) = self.readers.get(number).copied() {
                self.widen_at(at, address)?;
            }
        }
        Ok(())
    }

    /// Widens the states at an address that name a variable. Each counts as a way.
    fn widen_at(&mut self, at: u16, address: u16) -> Result<(), AllocError> {
        let count = self
            .groups
            .get(usize::from(at))
            .map_or(0, |group| group.places.len());
        self.note_followed(at, count);
        for number in 0..count {
            let Some(group) = self.groups.get(usize::from(at)) else {
                break;
            };
            let Some(place) = group.places.get(number).copied() else {
                break;
            };
            if let Some(node) = self.nodes.get_mut(place as usize) {
                let known = &mut node.placed.state.known;
                let bytes = self.variables.bytes_at(known.set, address);
                let cells = widened_cells(known.cells, address, bytes);
                if cells != known.cells {
                    known.cells = cells;
                    self.wait(place)?;
                }
            }
        }
        Ok(())
    }

    /// How often the procedure at an address has had its ways.
    fn spent_at(&self, at: u16) -> usize {
        match self.numbers.get(usize::from(at)) {
            Some(number) => {
                let spent = self.spent.get(usize::from(*number)).copied().unwrap_or(0);
                spent / self.limits.procedure.max(1)
            }
            None => 0,
        }
    }

    /// How many states an address has now, at most; `is_joined` says whether some of them are no longer distinguished.
    pub fn most(&self, at: u16, is_joined: bool) -> usize {
        match self.spent_at(at) {
            _ if self.is_late || self.nodes.len() >= MANY => 1,
            0 if is_joined => JOINED,
            0 => MOST,
            1 => FEWER,
            _ => 1,
        }
    }

    /// Whether spans at an address grow at once to any word.
    fn grows_at_once(&self, at: u16) -> bool {
        self.is_late || self.spent_at(at) > 2
    }
}
