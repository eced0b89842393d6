//! How much searches may take.

/// How many states there are, at most, in all tables of a program.
const STATES: usize = 262_144;
/// How many ways are followed, at most.
const WAYS: usize = 3_000_000;

/// How many states may still be kept, and how many ways followed, by the searches that share it.
#[derive(Clone, Copy)]
pub struct Budget {
    pub(crate) states: usize,
    pub(crate) ways: usize,
}

impl Budget {
    /// All of it.
    pub const ALL: Budget = Budget {
        states: STATES,
        ways: WAYS,
    };

    /// The budget with all ways.
    pub fn with_all_ways(self) -> Budget {
        Budget { ways: WAYS, ..self }
    }

    /// The budget with all ways, and with the states of a table that isn't kept any more.
    pub fn with_states(self, states: usize) -> Budget {
        Budget {
            states: self.states.saturating_add(states),
            ways: WAYS,
        }
    }

    /// Lends as much of it as another one has, at most.
    pub(crate) fn lend(&mut self, most: Budget) -> Budget {
        let states = self.states.min(most.states);
        let ways = self.ways.min(most.ways);
        self.states = self.states.saturating_sub(states);
        self.ways = self.ways.saturating_sub(ways);
        Budget { states, ways }
    }

    /// Takes back what is left of what was lent.
    pub(crate) fn take_back(&mut self, left: Budget) {
        self.states = self.states.saturating_add(left.states);
        self.ways = self.ways.saturating_add(left.ways);
    }

    /// The budget without states that are kept.
    pub(crate) fn without(self, states: usize) -> Budget {
        Budget {
            states: self.states.saturating_sub(states),
            ..self
        }
    }
}
