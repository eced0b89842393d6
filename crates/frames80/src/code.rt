//! A program as the verifier sees it.

ghost use Rattle.std.specs.Prelude.{◌≡◌};
ghost use Rattle.frames80.specs.Code.{Code as CodeSeen, role_of};

use crate::{Procedure, Role};
use decode80::Fetched;

/// Why no instruction may be executed at an address, whatever the frame.
#[derive(Clone, Copy)]
pub enum LookFault {
    /// A byte of the instruction is outside CODE or past FFFF.
    Outside,
    /// The opcode is one of the twelve that the verifier takes as unused.
    Unused,
    /// An EI whose next byte isn't a HLT in CODE.
    EnablesInterrupts,
    /// A PCHL for which no targets are declared.
    Pchl,
    /// A STA or SHLD with a byte outside data.
    DirectStore,
}

/// A program as the verifier sees it: the instruction at each address, the targets that are
/// declared for each PCHL, the start address and the stack.
pub trait Code {
    /// The instruction at each address, the targets declared for it, the start, and the stack's top and length.
    ghost code: { Self → CodeSeen };

    /// The instruction at an address and the address after it, or why none may be executed there.
    fn look(&self, at: u16) -> Result<Fetched, LookFault>
        ensures { result ≡ (code self.now).look at };

    /// The targets that are declared for a PCHL at this address; empty if none are declared.
    fn targets(&self, at: u16) -> &[u16]
        ensures { result.now ≡ (code self.now).targets at };

    /// The address where the main program starts.
    fn start(&self) -> u16
        ensures { result ≡ (code self.now).start };

    /// The address just above the stack, modulo 65536.
    fn top(&self) -> u16
        ensures { result ≡ (code self.now).top };

    /// The number of bytes that the stack has.
    fn stack(&self) -> u16
        ensures { result ≡ (code self.now).stack };
}

/// The role of a procedure of `program`: the main program, with the stack's top, or an entry.
pub fn role_of<C: Code>(program: &C, procedure: Procedure) -> Role
    ensures { result ≡ role_of (C.code program.now) procedure }
{
    match procedure {
        Procedure::Main => Role::Main { top: program.top() },
        Procedure::Entry(_) => Role::Entry,
    }
}
