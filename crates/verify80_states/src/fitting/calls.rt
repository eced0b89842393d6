//! Whether procedures return, and where to.

ghost use Rattle.std.specs.Prelude.{◌≡◌, ℕ, Contains, true};
ghost use Rattle.decode80.specs.Facts.{flow};
ghost use Rattle.verify80_states.specs.Calls.{AccountsFor, AccountsForCall, IsWithin, returns_of};

use crate::fitting::marks::is_marked;
use decode80::{Fetched, Flow};

/// Whether the procedure that runs at each address may return, and whether it is known where to: marks by address, 65,536 of each.
#[derive(Drop)]
pub struct CallReturns {
    /// Marks of the addresses from which on a return may still come.
    pub may_return: Vec<bool>,
    /// Marks of the addresses from which on each state at a return knows where it goes.
    pub know_return: Vec<bool>,
}

impl CallReturns {
    /// Whether a return may still come from an address on.
    pub fn may_return(&self, at: u16) -> bool
        ensures { result ≡ (returns_of self.now).may at }
    {
        is_marked(&self.may_return, at)
    }

    /// Whether each state at a return from an address on knows where it goes.
    pub fn know_return(&self, at: u16) -> bool
        ensures { result ≡ (returns_of self.now).known at }
    {
        is_marked(&self.know_return, at)
    }

    /// Whether `at` accounts for `to`: a return that may come from `to` on may come from `at` on, and those from `to` on are known, if
    /// those from `at` on are.
    fn has_within(&self, at: u16, to: u16) -> bool
        ensures { result ≡ true → IsWithin (returns_of self.now) at to }
    {
        (!self.may_return(to) || self.may_return(at))
            && (!self.know_return(at) || self.know_return(to))
    }

    /// Whether `at` accounts for a call of `entry` that returns to `next`; true if the callee may not return.
    fn accounts_for_call(&self, at: u16, entry: u16, next: u16) -> bool
        ensures { result ≡ true → AccountsForCall (returns_of self.now) at entry next }
    {
        !self.may_return(entry) || self.has_within(at, next)
    }

    /// Whether `at` accounts for each of these targets.
    fn has_each_within(&self, at: u16, targets: &[u16]) -> bool
        ensures { result ≡ true → (to : ℕ) → Contains targets.now to → IsWithin (returns_of self.now) at to }
    {
        targets.iter().all(|to| self.has_within(at, *to))
    }

    /// Whether the marks at `at` agree with those where its instruction leads: if a return may come from there on, one may from `at` on,
    /// and if each return from `at` on knows where it goes, each from there on does. A call that is taken leads to the address after
    /// it, if its callee may return; at a return, one may come. `targets` are those of a PCHL.
    pub fn accounts_for(&self, targets: &[u16], at: u16, found: Fetched) -> bool
        ensures { result ≡ true → AccountsFor (returns_of self.now) targets.now at found.next (flow found.instr) }
    {
        let Fetched { instr, next } = found;
        match instr.flow() {
            Flow::Continues | Flow::Pushes | Flow::Pops | Flow::Exchanges => {
                self.has_within(at, next)
            }
            Flow::Jumps(to) => self.has_within(at, to),
            Flow::JumpsIf(_, to) => self.has_within(at, to) && self.has_within(at, next),
            Flow::JumpsToHl => self.has_each_within(at, targets),
            Flow::Calls(to) => self.accounts_for_call(at, to, next),
            Flow::CallsIf(_, to) => {
                self.accounts_for_call(at, to, next) && self.has_within(at, next)
            }
            Flow::Returns => self.may_return(at),
            Flow::ReturnsIf(_) => self.may_return(at) && self.has_within(at, next),
            Flow::Halts => true,
        }
    }
}
