//! The order in which points are visited: reverse postorder of the code, over all of its procedures.
//!
//! A point is best visited when what leads to it has been: then a frame that reaches it late changes nothing after it a
//! second time. What the verifier answers doesn't rest on this order, only how soon.

use decode80::Fetched;
use frames80::{Code, Effect, effect_of};
use std::alloc::{AllocError, Global};

/// The ways on from an address, in its own procedure.
#[derive(Clone, Copy)]
enum Ways {
    /// To up to two addresses.
    To(Option<u16>, Option<u16>),
    /// To the declared targets.
    Case,
}

/// An address on the path of the search, its ways on, and how many of them have been tried.
#[derive(Clone, Copy)]
struct Step {
    /// The address.
    at: u16,
    /// Where its instruction leads.
    ways: Ways,
    /// How many of these ways have been tried.
    tried: usize,
}

/// A depth-first search over addresses. Each procedure that is called is a root of its own, and a
/// call is assumed to return.
#[derive(Drop)]
struct Search {
    /// For each address its number in postorder, counted from 1; 0 if it isn't finished.
    ranks: Vec<u32>,
    /// For each address whether it was put on the path.
    seen: Vec<bool>,
    /// How many addresses are finished.
    finished: u32,
    /// The addresses from the root to where the search is.
    path: Vec<Step>,
    /// The starts of procedures that are still to be searched.
    roots: Vec<u16>,
}

/// For each address its rank in postorder, 0 if it isn't reached: of two addresses the one with the
/// greater rank is visited first.
///
/// # Errors
/// `AllocError` if memory runs out.
pub(crate) fn rank_addresses<C: Code>(alloc: Global, program: &C) -> Result<Vec<u32>, AllocError> {
    let mut search = Search::new(alloc)?;
    search.go_through_all(program)?;
    Ok(search.ranks)
}

impl Search {
    /// A search that has seen no address.
    ///
    /// # Errors
    /// `AllocError` if memory runs out.
    fn new(alloc: Global) -> Result<Search, AllocError> {
        Ok(Search {
            ranks: vec![in alloc; 0; 65536]?,
            seen: vec![in alloc; false; 65536]?,
            finished: 0,
            path: Vec::new(alloc),
            roots: Vec::new(alloc),
        })
    }

    /// Goes through the code of the main program and of each procedure that it calls. `AllocError`
    /// if memory runs out.
    fn go_through_all<C: Code>(&mut self, program: &C) -> Result<(), AllocError> {
        self.roots.push(program.start())?;
        // The bound is never met: a root is added by a call that is seen, and each address is seen once.
        for _ in 0..u64::MAX {
            let Some(root) = self.roots.pop() else {
                break;
            };
            self.enter(program, root)?;
            self.go_through(program)?;
        }
        Ok(())
    }

    /// Puts an address on the path, unless it was seen before. A procedure that its instruction
    /// calls becomes a root.
    ///
    /// # Errors
    /// `AllocError` if memory runs out.
    fn enter<C: Code>(&mut self, program: &C, at: u16) -> Result<(), AllocError> {
        let Some(seen) = self.seen.get_mut(usize::from(at)) else {
            return Ok(());
        };
        if *seen {
            return Ok(());
        }
        *seen = true;
        let (ways, called) = ways_from(program, at);
        if let Some(target) = called {
            self.roots.push(target)?;
        }
        self.path.push(Step { at, ways, tried: 0 })?;
        Ok(())
    }

    /// Searches on from the end of the path until the path is empty.
    ///
    /// # Errors
    /// `AllocError` if memory runs out.
    fn go_through<C: Code>(&mut self, program: &C) -> Result<(), AllocError> {
        // The bound is never met: each address is entered once, and has as many ways on as it has targets.
        for _ in 0..u64::MAX {
            let Some(step) = self.path.pop() else {
                break;
            };
            self.go_on(program, step)?;
        }
        Ok(())
    }

    /// Takes the next untried way on from an address, which was just taken off the path, or
    /// finishes the address.
    ///
    /// # Errors
    /// `AllocError` if memory runs out.
    fn go_on<C: Code>(&mut self, program: &C, step: Step) -> Result<(), AllocError> {
        let Some(to) = way_on(program, step) else {
            self.finish(step.at);
            return Ok(());
        };
        self.path.push(Step {
            at: step.at,
            ways: step.ways,
            tried: step.tried.saturating_add(1),
        })?;
        self.enter(program, to)
    }

    /// Gives an address the next postorder number: each way on from it was tried.
    fn finish(&mut self, at: u16) {
        self.finished = self.finished.saturating_add(1);
        if let Some(rank) = self.ranks.get_mut(usize::from(at)) {
            *rank = self.finished;
        }
    }
}

/// The ways on from an address in its own procedure, and the procedure that its instruction calls,
/// if any. There are no ways if no instruction may be executed there.
fn ways_from<C: Code>(program: &C, at: u16) -> (Ways, Option<u16>) {
    let Ok(Fetched { instr, next }) = program.look(at) else {
        return (Ways::To(None, None), None);
    };
    match effect_of(instr) {
        Effect::Change(_) | Effect::ReturnIf => (Ways::To(Some(next), None), None),
        Effect::Call(target) | Effect::CallIf(target) => {
            (Ways::To(Some(next), None), Some(target))
        }
        Effect::Jump(to) => (Ways::To(Some(to), None), None),
        Effect::JumpIf(to) => (Ways::To(Some(to), Some(next)), None),
        Effect::Case => (Ways::Case, None),
        Effect::Halt | Effect::Return | Effect::Refuse(_) => (Ways::To(None, None), None),
    }
}

/// The address where the next untried way of a step leads; `None` if each was tried.
fn way_on<C: Code>(program: &C, step: Step) -> Option<u16> {
    match step.ways {
        Ways::To(first, second) => match step.tried {
            0 => first,
            1 => second,
            _ => None,
        },
        Ways::Case => program.targets(step.at).get(step.tried).copied(),
    }
}
