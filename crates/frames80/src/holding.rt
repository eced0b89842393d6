//! What a frame's words are to a pop and to a return.

ghost use Rattle.std.specs.Prelude.{◌≡◌, List};
ghost use Rattle.frames80.specs.declared.word.Word.{Word};
ghost use Rattle.frames80.specs.Holding.{holding_of};
ghost use Rattle.frames80.specs.Moves.{fault_of, change_fault, pop_fault, load_fault, return_fault};

use crate::effect::{Change, Effect};
use crate::fault::FrameFault::{self, PopsBelow, ReturnFromMain, ReturnNotOwn, SetsStack};
use crate::role::Role;

/// What the checks of pops and returns need to know of a frame's own words.
#[derive(Clone, Copy, PartialEq, Eq)]
pub enum Holding {
    /// The procedure has no words of its own on the stack.
    Nothing,
    /// The only word of its own is the return address.
    ReturnAddress,
    /// Several words, or one that isn't known to be the return address.
    Others,
}

impl Holding {
    /// Why an effect is refused if the frame's words are of this kind, or `None` if it is admitted.
    /// For `Effect::Refuse`, which is refused with every frame, the answer is `None` too: callers
    /// check that themselves.
    pub fn fault_of(self, role: Role, effect: Effect) -> Option<FrameFault>
        ensures { (words : List Word) → holding_of words ≡ self → result ≡ fault_of role effect words }
    {
        match effect {
            Effect::Change(change) => self.change_fault(role, change),
            Effect::Return | Effect::ReturnIf => self.return_fault(role),
            Effect::Halt
            | Effect::Jump(_)
            | Effect::JumpIf(_)
            | Effect::Case
            | Effect::Call(_)
            | Effect::CallIf(_)
            | Effect::Refuse(_) => None,
        }
    }

    /// Why a change is refused if the frame's words are of this kind, or `None` if it is admitted.
    fn change_fault(self, role: Role, change: Change) -> Option<FrameFault>
        ensures { (words : List Word) → holding_of words ≡ self → result ≡ change_fault role change words }
    {
        match change {
            Change::Pop(_) | Change::Drop | Change::Swap => self.pop_fault(role),
            Change::SetStack(address) => load_fault(role, address),
            Change::Keep
            | Change::Push(_)
            | Change::PushAny
            | Change::Exchange
            | Change::Forget(_) => None,
        }
    }

    /// `PopsBelow` if the main program pops with no words on its stack; else `None`.
    fn pop_fault(self, role: Role) -> Option<FrameFault>
        ensures { (words : List Word) → holding_of words ≡ self → result ≡ pop_fault role words }
    {
        match (role, self) {
            (Role::Main { .. }, Holding::Nothing) => Some(PopsBelow),
            (Role::Main { .. }, Holding::ReturnAddress | Holding::Others) | (Role::Entry, _) =>
                None,
        }
    }

    /// `ReturnFromMain` for the main program; `ReturnNotOwn` for an entry, unless its words are its
    /// return address alone; else `None`.
    fn return_fault(self, role: Role) -> Option<FrameFault>
        ensures { (words : List Word) → holding_of words ≡ self → result ≡ return_fault role words }
    {
        match (role, self) {
            (Role::Main { .. }, _) => Some(ReturnFromMain),
            (Role::Entry, Holding::ReturnAddress) => None,
            (Role::Entry, Holding::Nothing | Holding::Others) => Some(ReturnNotOwn),
        }
    }
}

/// `None` if the main program loads SP with the stack's top; else `SetsStack`.
fn load_fault(role: Role, address: u16) -> Option<FrameFault>
    ensures { result ≡ load_fault role address }
{
    match role {
        Role::Main { top } if top == address => None,
        Role::Main { .. } | Role::Entry => Some(SetsStack),
    }
}
