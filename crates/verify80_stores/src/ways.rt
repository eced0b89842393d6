//! Which instructions are nearest before each address, by ways of the program. This is a search, of which nothing is promised.

use decode80::{Fetched, Flow, Instr};
use std::alloc::{AllocError, Global};
use verify80_proposals::{Groups, ReachedProgram, mark};
use verify80_states::{entry_at, is_marked};

/// By address the nearest instruction of some kind before it, if there is one: 65,536 places.
pub(crate) type Nearest = Vec<Option<u16>>;

/// By address the nearest marked address from which a way leads there.
///
/// # Errors
/// `AllocError` if memory runs out.
pub(crate) fn find_marked(
    alloc: Global,
    program: ReachedProgram<'_>,
    groups: &Groups,
    marks: &[bool],
) -> Result<Nearest, AllocError> {
    let mut ways = Ways::new(alloc, program, groups)?;
    ways.spread(|at, _| is_marked(marks, at), |_| true)?;
    Ok(ways.found)
}

/// The ways that are followed from instructions.
#[derive(Drop)]
pub(crate) struct Ways<'a> {
    program: ReachedProgram<'a>,
    groups: &'a Groups,
    /// The instruction from which each address was reached.
    pub found: Nearest,
    /// The addresses that were reached, in order.
    reached: Vec<u16>,
    /// Marks for the groups from which ways went back to their callers.
    returned: Vec<bool>,
}

impl<'a> Ways<'a> {
    /// Ways by which nothing is reached yet.
    ///
    /// # Errors
    /// `AllocError` if memory runs out.
    pub fn new(
        alloc: Global,
        program: ReachedProgram<'a>,
        groups: &'a Groups,
    ) -> Result<Ways<'a>, AllocError> {
        Ok(Ways {
            program,
            groups,
            found: vec![in alloc; None; 65_536]?,
            reached: Vec::new(alloc),
            returned: vec![in alloc; false; 65_536]?,
        })
    }

    /// Follows the ways from those instructions that begin one, each as long as instructions let it pass, to addresses that weren't
    /// reached.
    ///
    /// # Errors
    /// `AllocError` if memory runs out.
    pub fn spread<B: Fn(u16, Instr) -> bool, P: Fn(Instr) -> bool>(
        &mut self,
        begins: B,
        passes: P,
    ) -> Result<(), AllocError>
        requires { B.IsAlwaysCallable begins × P.IsAlwaysCallable passes }
    {
        for number in 0..65_536_u32 {
            let at = u16::MAX - number as u16;
            if let Some(found) = self.program.at(at) {
                if begins(at, found.instr) {
                    self.follow(at, found, at)?;
                }
            }
        }
        for place in 0..65_536_usize {
            let Some(at) = self.reached.get(place).copied() else {
                break;
            };
            if let (Some(found), Some(by)) = (self.program.at(at), entry_at(&self.found, at)) {
                if passes(found.instr) {
                    self.follow(at, found, by)?;
                }
            }
        }
        Ok(())
    }

    /// Follows an instruction to where it leads: a call both to its callee and behind it, a return behind the calls of its group.
    fn follow(&mut self, at: u16, found: Fetched, by: u16) -> Result<(), AllocError> {
        let (direct, targets) = self.program.ways_inside(at, found);
        for to in direct.iter().flatten() {
            self.reach(*to, by)?;
        }
        for to in targets {
            self.reach(*to, by)?;
        }
        match found.instr.flow() {
            Flow::Calls(to) | Flow::CallsIf(_, to) => {
                self.reach(found.next, by)?;
                self.reach(to, by)
            }
            Flow::Returns | Flow::ReturnsIf(_) => {
                let group = self.groups.number(at);
                self.go_back(group, by)
            }
            _ => Ok(()),
        }
    }

    /// Reaches what stands behind the calls of a group; nothing if that was done before.
    fn go_back(&mut self, group: u16, by: u16) -> Result<(), AllocError> {
        if is_marked(&self.returned, group) {
            return Ok(());
        }
        mark(&mut self.returned, group);
        let groups = self.groups;
        for (_, behind) in groups.calls(group) {
            self.reach(*behind, by)?;
        }
        Ok(())
    }

    /// Notes the instruction `by` from which an address is reached, if the address wasn't reached before.
    fn reach(&mut self, at: u16, by: u16) -> Result<(), AllocError> {
        if let Some(found) = self.found.get_mut(usize::from(at)) {
            if found.is_none() {
                *found = Some(by);
                self.reached.push(at)?;
            }
        }
        Ok(())
    }
}
