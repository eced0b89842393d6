//! What is known at an address, with the whole stack.

use crate::held::Beside;
use verify80_spans::ByteSpan;
use verify80_states::Known;
use verify80_stores::OpenStore;

/// What is known of a machine before the instruction at an address.
#[derive(Drop)]
pub struct FollowedState {
    pub at: u16,
    pub known: Known,
    /// What each byte of the stack may be, from SP up to the stack's top; `None` as long as SP isn't set.
    pub stack: Option<Vec<ByteSpan>>,
    pub beside: Beside,
    /// Where the state's hints begin: one for each way on, which names a state that says no more, or one such state for each byte of A, that of a HLT too;
    /// and behind that of a return, or of a PCHL without declared targets, the place of its way in the list of ways.
    pub hint: u32,
}

/// Where a return, or a PCHL without declared targets, may go.
#[derive(Clone, Copy, PartialEq, Eq, PartialOrd, Ord)]
pub struct Way {
    /// The address of the return or PCHL.
    pub at: u16,
    pub to: u16,
}

/// The stores and jumps by register pairs that a table leaves open, each list by address.
#[derive(Drop)]
pub struct Listed {
    /// The stores that may leave data: each with the addresses that it may have.
    pub stores: Vec<OpenStore>,
    /// The PCHLs with declared targets that may go elsewhere.
    pub jumps: Vec<u16>,
}

/// The runs for which a program is followed.
#[derive(Clone, Copy, PartialEq, Eq)]
pub struct RunKind {
    /// Whether SP is at the stack's top when a run begins; else it may be anywhere.
    pub is_set: bool,
    /// Whether the program is interrupted: a HLT at which interrupts may come leads on. Handlers must give back SP, registers, flags and what is
    /// pushed, and may store where devices may.
    pub interrupted: bool,
}

impl FollowedState {
    ghost use Rattle.std.specs.Prelude.{◌≡◌};
    ghost use Rattle.std.specs.Option.{option_map};
    ghost use Rattle.verify80_follow.specs.Follows.{stack_of};

    /// The bytes of the stack; `None` as long as SP isn't set.
    pub fn bytes(&self) -> Option<&[ByteSpan]>
        ensures { option_map (λ bytes. bytes.now) result ≡ stack_of self.now }
    {
        match &self.stack {
            Some(bytes) => Some(bytes),
            None => None,
        }
    }
}
