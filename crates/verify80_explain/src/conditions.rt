//! What is taken for granted of a program, so that its ways go on behind refused instructions.

ghost use Rattle.std.specs.Prelude.{◌≡◌};
ghost use Rattle.frames80.specs.Effects.{effect_of as effects_of};
ghost use Rattle.verify80.specs.Looking.{code_of};
ghost use Rattle.verify80_explain.specs.Conditions.{call_if, code_from, is_among};

use decode80::{Condition, Fetched, Instr, ahead};
use frames80::{Code, Effect, LookFault, effect_of};
use std::alloc::Global;
use verify80::ImageCode;

/// What is taken for granted of a program beyond what the verifier takes, so that its ways go on behind refused instructions.
#[derive(Drop)]
pub struct Conditions {
    /// The address at which the program begins anew, with an empty stack; `None` if it begins at its start.
    pub begins: Option<u16>,
    /// The addresses of instructions that are passed over: EI, and STA and SHLD outside data.
    pub passed: Vec<u16>,
    /// The entries of procedures that return, with the stack as it was at the call.
    pub returning: Vec<u16>,
}

impl Conditions {
    /// Nothing is taken for granted. The call takes no memory.
    pub(crate) fn new(alloc: Global, begins: Option<u16>) -> Conditions {
        Conditions {
            begins,
            passed: Vec::new(alloc),
            returning: Vec::new(alloc),
        }
    }

    /// How many conditions there are.
    pub(crate) fn count(&self) -> usize {
        let lists = self.passed.len().saturating_add(self.returning.len());
        lists.saturating_add(usize::from(self.begins.is_some()))
    }
}

/// An image's program, followed on conditions.
#[derive(Drop)]
pub(crate) struct ConditionalCode<'a, 'b> {
    pub(crate) code: &'a ImageCode<'b>,
    /// The address at which the program begins anew; `None` if it begins at its start. That of the conditions counts for nothing.
    pub(crate) begins: Option<u16>,
    pub(crate) conditions: &'a Conditions,
}

impl<'a, 'b> ConditionalCode<'a, 'b> {
    /// The program on all of these conditions.
    pub(crate) fn new(
        code: &'a ImageCode<'b>,
        conditions: &'a Conditions,
    ) -> ConditionalCode<'a, 'b>
        ensures code { result.code.now ≡ code.now }
        ensures begins { result.begins ≡ conditions.now.begins }
        ensures conditions { result.conditions.now ≡ conditions.now }
    {
        ConditionalCode {
            code,
            begins: conditions.begins,
            conditions,
        }
    }

    /// Whether the instruction at this address is passed over if it is refused for a fault.
    fn is_passed(&self, at: u16) -> bool
        ensures { result ≡ is_among self.now.conditions.now.passed.items at }
    {
        let passed = self.conditions.passed.as_slice();
        passed.contains(&at)
    }

    /// What is followed in place of an instruction: of a call of a procedure that is taken as returning a call on a condition, which may
    /// or may not be made.
    fn call_if(&self, found: Fetched) -> Fetched
        ensures { result ≡ call_if self.now.conditions.now.returning.items found (effects_of found.instr) }
    {
        let returning = self.conditions.returning.as_slice();
        match effect_of(found.instr) {
            Effect::Call(to) if returning.contains(&to) => Fetched {
                instr: Instr::CallIf(Condition::NonZero, to),
                next: found.next,
            },
            _ => found,
        }
    }
}

impl<'a, 'b> Code for ConditionalCode<'a, 'b> {
    ghost code = { λ program. code_from program.begins program.conditions.now (code_of program.code.now) };

    /// The instruction at an address and the address after it, or why none may be executed there. One that a condition passes over is
    /// a NOP, and a call of a procedure that is taken as returning a call on a condition, so that what is behind it is reached, and the
    /// procedure, too.
    fn look(&self, at: u16) -> Result<Fetched, LookFault> {
        match self.code.look(at) {
            Ok(found) => Ok(self.call_if(found)),
            Err(LookFault::EnablesInterrupts) if self.is_passed(at) => {
                Ok(nothing_before(ahead(at, 1)))
            }
            Err(LookFault::DirectStore) if self.is_passed(at) => Ok(nothing_before(ahead(at, 3))),
            Err(fault) => Err(fault),
        }
    }

    /// The targets that the regions declare for a PCHL at this address; empty if none are declared.
    fn targets(&self, at: u16) -> &[u16] {
        self.code.targets(at)
    }

    /// The address where the program begins anew, or where the main program starts.
    fn start(&self) -> u16 {
        match self.begins {
            Some(at) => at,
            None => self.code.start(),
        }
    }

    /// The address just above the stack, modulo 65536.
    fn top(&self) -> u16 {
        self.code.top()
    }

    /// The number of bytes that the stack has.
    fn stack(&self) -> u16 {
        self.code.stack()
    }
}

/// An instruction that does nothing, with the address after it.
fn nothing_before(next: u16) -> Fetched
    ensures { result ≡ Rattle.verify80_explain.specs.Conditions.nothing_before next }
{
    Fetched {
        instr: Instr::Nop,
        next,
    }
}
