//! Which procedures return. Nothing is promised of it: whoever uses it has to see that it fits.
//!
//! Instructions that may follow one another without a call or a return are a group: a procedure, or several that share a piece of code.

use decode80::Flow;
use std::alloc::{AllocError, Global};
use verify80::ProcRow;
use verify80_needs::{ReachedProgram, mark};
use verify80_states::{CallReturns, Placed, is_marked};

/// How often the program is gone through, at most, before all of it is one group.
const SWEEPS: usize = 64;

/// The groups of a program's instructions.
#[derive(Drop)]
pub struct Groups {
    /// By address the number of its group, which is its lowest address: 65,536 places.
    pub(crate) numbers: Vec<u16>,
    /// By number whether a group may return.
    returns: Vec<bool>,
    /// The group of each callee, and the address behind the call: ascending.
    calls: Vec<(u16, u16)>,
}

impl Groups {
    /// The groups of a program whose procedures are these.
    ///
    /// # Errors
    /// `AllocError` if memory runs out.
    pub fn new(
        alloc: Global,
        program: ReachedProgram<'_>,
        rows: &[ProcRow],
    ) -> Result<Groups, AllocError> {
        let mut groups = Groups {
            numbers: (0..65_536_u32).map(|number| number as u16).collect(alloc)?,
            returns: vec![in alloc; false; 65_536]?,
            calls: Vec::new(alloc),
        };
        let mut is_changed = true;
        for _ in 0..SWEEPS {
            is_changed = is_changed && groups.sweep(program, rows);
        }
        if is_changed {
            groups.numbers.fill(0);
            groups.returns.fill(true);
        }
        for number in 0..65_536_u32 {
            if let Some(found) = program.at(number as u16)
                && let Flow::Calls(entry) | Flow::CallsIf(_, entry) = found.instr.flow()
            {
                let callee = groups.number(entry);
                groups.calls.push((callee, found.next))?;
            }
        }
        groups.calls.sort_unstable();
        Ok(groups)
    }

    /// Joins each instruction with those that may come after it before a return, and none of a callee, and says whether something changed.
    /// Where procedures share code, one that doesn't return may be in a group that does.
    fn sweep(&mut self, program: ReachedProgram<'_>, rows: &[ProcRow]) -> bool {
        for row in rows {
            if row.returns {
                let group = self.number(row.entry);
                mark(&mut self.returns, group);
            }
        }
        let mut is_changed = false;
        for number in 0..65_536_u32 {
            let at = number as u16;
            let Some(found) = program.at(at) else {
                continue;
            };
            let (direct, targets) = program.ways_inside(at, found);
            for to in direct.iter().flatten().chain(targets) {
                is_changed |= self.join(at, *to);
            }
            let group = self.number(at);
            match found.instr.flow() {
                Flow::Returns | Flow::ReturnsIf(_) => {
                    is_changed |= !is_marked(&self.returns, group);
                    mark(&mut self.returns, group);
                }
                Flow::Calls(entry) if is_marked(&self.returns, self.number(entry)) => {
                    is_changed |= self.join(at, found.next);
                }
                _ => {}
            }
        }
        is_changed
    }

    /// Gives two addresses, and those that their numbers are, the lowest number of theirs, and says whether the two had different ones.
    fn join(&mut self, one: u16, other: u16) -> bool {
        let (first, second) = (self.number(one), self.number(other));
        let lowest = self.number(first).min(self.number(second));
        for at in [one, other, first, second] {
            if let Some(number) = self.numbers.get_mut(usize::from(at)) {
                *number = lowest;
            }
        }
        first != second
    }

    /// The number of the group at an address.
    pub fn number(&self, at: u16) -> u16 {
        self.numbers.get(usize::from(at)).copied().unwrap_or(at)
    }

    /// The calls of the procedures of a group, each as the group's number and the address behind the call.
    pub fn calls(&self, group: u16) -> &[(u16, u16)] {
        let first = self.calls.partition_point(|call| call.0 < group);
        let end = self.calls.partition_point(|call| call.0 <= group);
        self.calls.get(first..end).unwrap_or(&[])
    }

    /// Marks for the groups that are called and may return.
    ///
    /// # Errors
    /// `AllocError` if memory runs out.
    pub fn marks_of_called(&self, alloc: Global) -> Result<Vec<bool>, AllocError> {
        let mut marks = vec![in alloc; false; 65_536]?;
        for (callee, _) in &self.calls {
            if is_marked(&self.returns, *callee) {
                mark(&mut marks, *callee);
            }
        }
        Ok(marks)
    }

    /// Takes the mark of each group of which a state at a return doesn't know where it goes, and says whether one had it.
    pub fn take_marks(
        &self,
        program: ReachedProgram<'_>,
        table: &[Placed],
        marks: &mut [bool],
    ) -> bool {
        let mut is_changed = false;
        for placed in table {
            if let Some(instr) = program.instr(placed.at)
                && let Some(mark) = marks.get_mut(usize::from(self.number(placed.at)))
                && *mark
                && !program.knows_return(instr, placed.state)
            {
                *mark = false;
                is_changed = true;
            }
        }
        is_changed
    }

    /// By address whether its group returns, and whether it knows where to, as the marked groups do.
    ///
    /// # Errors
    /// `AllocError` if memory runs out.
    pub fn returns(&self, alloc: Global, knows: &[bool]) -> Result<CallReturns, AllocError> {
        Ok(CallReturns {
            may_return: self.by_address(alloc, &self.returns)?,
            know_return: self.by_address(alloc, knows)?,
        })
    }

    /// Marks of groups as marks of their addresses.
    fn by_address(&self, alloc: Global, marks: &[bool]) -> Result<Vec<bool>, AllocError> {
        self.numbers
            .iter()
            .map(|group| is_marked(marks, *group))
            .collect(alloc)
    }
}
