//! What a search finds, or where it stops.

use std::alloc::{AllocError, AllocFailed};
use std::fmt;
use verify80_follow::Table;

/// Why a search goes on no further.
#[derive(Clone, Copy, PartialEq, Eq)]
pub enum StopReason {
    /// A byte of the instruction is outside CODE or past FFFF.
    FetchOutside,
    /// The byte begins no instruction.
    UnusedOpcode,
    /// EI without a HLT behind it, in a program that isn't interrupted.
    EnablesInterrupts,
    /// STA or SHLD stores outside data.
    DirectStore,
    /// The stack is used, or interrupts are enabled, before SP is set.
    StackNotSet,
    /// SP leaves the stack.
    LeavesStack,
    /// A return, of which it isn't known where it goes.
    UnknownReturn,
    /// A PCHL without declared targets, of which it isn't known where it goes.
    UnknownJump,
    /// An SPHL, of which it isn't known what it sets SP to.
    UnknownPointer,
    /// A handler returns, and a register or a flag may not be what it was.
    NotGivenBack,
    /// A handler enables interrupts, and not directly before it returns.
    EnablesEarly,
    /// A handler sets SP elsewhere than to the stack's top, or reads it.
    UsesPointer,
    /// STACK has no room for the program's bytes and those of an interrupt below them.
    NoRoom,
    /// A handler stores to RAM that only the program writes.
    StoresQuiet,
    /// There are too many states; the address has the most of them.
    TooManyStates,
    /// The table that was found doesn't follow the program.
    Unfit,
}

/// The first place that isn't known, or at which there are too many states.
#[derive(Drop)]
pub struct Stop {
    pub at: u16,
    pub reason: StopReason,
    /// The addresses of a way there, from the image's start on.
    pub way: Vec<u16>,
}

impl StopReason {
    /// What the reason means.
    fn words(self) -> &'static str {
        match self {
            StopReason::FetchOutside => "an instruction has a byte outside CODE, or past FFFF",
            StopReason::UnusedOpcode => "the byte begins no instruction of the 8080",
            StopReason::EnablesInterrupts =>
                "EI enables interrupts, and no HLT is behind it: --interrupted follows a program that is interrupted",
            StopReason::DirectStore => "STA or SHLD stores outside DATA",
            StopReason::StackNotSet =>
                "the stack is used before LXI SP sets SP, or an interrupt may use it",
            StopReason::LeavesStack => "SP leaves STACK: too much is pushed, or popped",
            StopReason::UnknownReturn =>
                "it isn't known where the return goes: the word at SP may be several",
            StopReason::UnknownJump =>
                "it isn't known where the PCHL goes: HL may be several, and no CASE line names its targets",
            StopReason::NotGivenBack =>
                "the handler returns, and A, a flag or a pair may not be what it was",
            StopReason::EnablesEarly =>
                "the handler enables interrupts, and not directly before a RET with all given back",
            StopReason::UsesPointer =>
                "the handler sets SP elsewhere than to the stack's top, or reads it by DAD SP",
            StopReason::NoRoom =>
                "STACK has no room for the program's bytes and this handler's below them",
            StopReason::StoresQuiet => "the handler may store to RAM that --quiet-ram names",
            StopReason::UnknownPointer => "it isn't known what SPHL sets SP to: HL may be several",
            StopReason::TooManyStates =>
                "the program is in too many states; this address has the most of them",
            StopReason::Unfit => "the states that were found don't follow the program",
        }
    }
}

/// How many addresses of a way are shown at its end.
const SHOWN: usize = 12;

/// The place, what is wrong there, and the end of a way to it, as words of a line each.
impl fmt::Display for Stop {
    fn fmt<W: fmt::Write>(&self, f: &mut fmt::Formatter<W>) -> fmt::Result {
        let (at, words) = (self.at, self.reason.words());
        write!(f, "{at:04X}: {words}")?;
        if self.way.is_empty() {
            return Ok(());
        }
        let first = self.way.len().saturating_sub(SHOWN);
        f.write_str(if first == 0 {
            "; a way there:"
        } else {
            "; the end of a way there:"
        })?;
        for at in &self.way[first..] {
            write!(f, " {at:04X}")?;
        }
        Ok(())
    }
}

/// What a search finds.
#[derive(Drop)]
pub enum SearchResult {
    /// A table, which is to be checked.
    Found(Table),
    Stopped(Stop),
}

/// Why a state isn't followed.
#[derive(Clone, Copy)]
pub(crate) enum Unfollowed {
    Stopped(StopReason),
    Memory,
}

impl From<StopReason> for Unfollowed {
    fn from(reason: StopReason) -> Unfollowed {
        Unfollowed::Stopped(reason)
    }
}

impl From<AllocError> for Unfollowed {
    fn from(_: AllocError) -> Unfollowed {
        Unfollowed::Memory
    }
}

impl<T: Drop> From<AllocFailed<T>> for Unfollowed {
    fn from(_: AllocFailed<T>) -> Unfollowed {
        Unfollowed::Memory
    }
}
