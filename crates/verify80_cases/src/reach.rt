//! The addresses that a program may reach, along the cases that its regions have.

ghost use Rattle.std.specs.Prelude.{◌≡◌, IfOk, OnOk, length};
ghost use Rattle.verify80_cases.specs.Reach.{AreReached, Enters, IsDone, given, leads_to, targets_of};
ghost use Rattle.verify80.specs.Looking.{declared_targets};

use crate::leads::{falls_to, target_of};
use decode80::{Instr, fetch};
use frames80::{Code, table};
use std::alloc::{AllocError, Global};
use verify80::ImageCode;

/// How many addresses there are.
const ADDRESSES: usize = 65_536;

/// For each address whether the program may reach it from its start or from one of `entries`: along each branch, after each
/// call whether it returns or not, and from a PCHL to the targets that the regions declare for it.
/// The search goes on only from addresses with an instruction whose bytes are all code; an address without
/// one may be marked, and leads nowhere.
///
/// # Errors
/// `AllocError` only if memory runs out.
pub fn find_reachable(
    alloc: Global,
    code: &ImageCode<'_>,
    entries: &[u16],
) -> Result<Vec<bool>, AllocError>
    ensures { IfOk result (λ marks. AreReached code.now entries.now marks.items) }
{
    let visited = Visited::of(alloc, code, entries)?;
    Ok(visited.marks)
}

/// The addresses that a search has reached.
#[derive(Drop)]
pub(crate) struct Visited {
    /// For each address whether it is reached.
    pub(crate) marks: Vec<bool>,
    /// The addresses that are reached, each once, in the order in which they were found.
    pub(crate) order: Vec<u16>,
}

impl Visited {
    ghost use Rattle.std.specs.Prelude.{[], ℕ, List};
    ghost use Rattle.image80.specs.Image.{Located};

    /// No address is reached. `AllocError` if memory runs out.
    fn new(alloc: Global) -> Result<Visited, AllocError>
        ensures { IfOk result (λ visited. (image : Located) → IsDone image [] visited.marks.items visited.order.items) }
    {
        Ok(Visited {
            marks: table(alloc, false, ADDRESSES)?,
            order: Vec::new(alloc),
        })
    }

    ghost use Rattle.std.specs.Prelude.{◌∷◌, ◌++◌};

    /// The program's start, these entries, and all that the program may reach from there. `AllocError` if memory runs out.
    pub(crate) fn of(
        alloc: Global,
        code: &ImageCode<'_>,
        entries: &[u16],
    ) -> Result<Visited, AllocError>
        ensures { IfOk result (λ visited. IsDone code.now (code.now.start ∷ entries.now) visited.marks.items visited.order.items) }
    {
        let mut visited = Visited::new(alloc)?;
        visited.explore(code, code.start())?;
        for entry in entries {
            visited.explore(code, *entry)?;
        }
        Ok(visited)
    }

    /// Adds an address and all that the program may reach from there. `marks` must have an entry
    /// for each address. `AllocError` if memory runs out.
    pub(crate) fn explore(&mut self, code: &ImageCode<'_>, at: u16) -> Result<(), AllocError>
        requires { length self.old.marks.items ≡ 65536 }
        ensures { OnOk result ((roots : List ℕ) → IsDone code.now roots self.old.marks.items self.old.order.items →
            IsDone code.now (roots ++ at ∷ []) self.new.marks.items self.new.order.items) }
    {
        let mut number = self.order.len();
        self.enter(at)?;
        while number < self.order.len() {
            let next = self.order[number];
            self.follow(code, next)?;
            number += 1;
        }
        Ok(())
    }

    /// Adds an address, unless it is reached already. `marks` must have an entry for each address.
    /// `AllocError` if memory runs out.
    fn enter(&mut self, at: u16) -> Result<(), AllocError>
        requires { length self.old.marks.items ≡ 65536 }
        ensures { OnOk result (Enters self.old.marks.items self.old.order.items (at ∷ []) self.new.marks.items self.new.order.items) }
    {
        let index = usize::from(at);
        if !self.marks[index] {
            self.order.push(at)?;
            self.marks[index] = true;
        }
        Ok(())
    }

    /// Adds an address, if there is one. `marks` must have an entry for each address. `AllocError`
    /// if memory runs out.
    fn enter_given(&mut self, at: Option<u16>) -> Result<(), AllocError>
        requires { length self.old.marks.items ≡ 65536 }
        ensures { OnOk result (Enters self.old.marks.items self.old.order.items (given at) self.new.marks.items self.new.order.items) }
    {
        match at {
            Some(at) => self.enter(at),
            None => Ok(()),
        }
    }

    /// Adds each of these addresses. `marks` must have an entry for each address. `AllocError` if
    /// memory runs out.
    fn enter_each(&mut self, addresses: &[u16]) -> Result<(), AllocError>
        requires { length self.old.marks.items ≡ 65536 }
        ensures { OnOk result (Enters self.old.marks.items self.old.order.items addresses.now self.new.marks.items self.new.order.items) }
    {
        for at in addresses {
            self.enter(*at)?;
        }
        Ok(())
    }

    /// Adds the addresses that the instruction at an address leads to; none if there is no
    /// instruction. `marks` must have an entry for each address. `AllocError` if memory runs out.
    #[tactic(auto, unfolding(crate::specs::Reach::leads_to))]
    fn follow(&mut self, code: &ImageCode<'_>, at: u16) -> Result<(), AllocError>
        requires { length self.old.marks.items ≡ 65536 }
        ensures { OnOk result (Enters self.old.marks.items self.old.order.items (leads_to code.now at) self.new.marks.items self.new.order.items) }
    {
        let Ok(found) = fetch(at, code) else {
            return Ok(());
        };
        self.enter_given(target_of(found.instr))?;
        self.enter_given(falls_to(found))?;
        self.enter_each(targets_of(code, found.instr, at))?;
        Ok(())
    }
}

/// The targets that the regions declare for the instruction at an address; empty unless it is a
/// PCHL.
fn targets_of<'a>(code: &'a ImageCode<'_>, instr: Instr, at: u16) -> &'a [u16]
    ensures { result.now ≡ targets_of instr (declared_targets code.now.regions at) }
{
    match instr {
        Instr::Pchl => code.targets(at),
        _ => &[],
    }
}
