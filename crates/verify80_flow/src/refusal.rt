//! Why an image is refused.

ghost use Rattle.std.specs.Prelude.{◌≡◌};
ghost use Rattle.verify80_flow.specs.Refusal.{refusal_code, refusal_name, refusal_address, refusal_of, look_refusal, rests_on_a_word};

use frames80::{FrameFault, LookFault};
use std::alloc::AllocError;
use std::error::Error;
use std::fmt;

/// Why an image is refused. A refusal holds of the image: it names the address of an instruction that a walk reaches, or for
/// `FetchOutside` and `HeightsDiffer` the address of a point, or the numbers that it compares.
#[derive(Clone, Copy, PartialEq, Eq)]
pub enum Refusal {
    /// The instruction at a point that is reached has a byte outside CODE or past FFFF.
    FetchOutside(u16),
    /// A walk reaches one of the twelve unused bytes.
    UnusedOpcode(u16),
    /// A walk reaches an EI whose next byte isn't a HLT in CODE.
    EnablesInterrupts(u16),
    /// A walk reaches SPHL.
    Sphl(u16),
    /// A walk reaches a PCHL for which no targets are declared.
    Pchl(u16),
    /// A walk reaches INX SP or DCX SP.
    StackByByte(u16),
    /// A walk reaches LXI SP outside the main program, or with another word than the stack's top.
    SetsStack(u16),
    /// A walk reaches STA or SHLD that stores a byte outside data.
    DirectStore(u16),
    /// The main program pops, with POP or XTHL, while it has no words on its stack.
    PopsBelow(u16),
    /// A procedure that is called returns, and its words are not its return address alone.
    ReturnNotOwn(u16),
    /// The main program returns.
    ReturnFromMain(u16),
    /// Two walks reach one point with different numbers of words, or of words taken.
    HeightsDiffer(u16),
    /// Two returns of one procedure take different numbers of words; the address is that of one of them.
    UnevenArguments(u16),
    /// A call is reached with fewer words above the caller's bottom word (in the main program:
    /// fewer words) than the callee takes on one of its walks.
    ShortArguments(u16),
    /// A call is reached that leads back to its own procedure.
    Recursion(u16),
    /// The program needs more bytes of stack (the first number) than the stack has (the second).
    StackTooSmall(u64, u16),
    /// More than 262,144 points are reached.
    TooManyPoints,
    /// Out of memory.
    Memory,
}

impl Refusal {
    /// The refusal's number, 1 to 18 in the order of docs/VERIFIER.md's table; 18 is `Memory`.
    pub fn code(&self) -> u8
        ensures { result ≡ refusal_code self.now }
    {
        match self {
            Refusal::FetchOutside(_) => 1,
            Refusal::UnusedOpcode(_) => 2,
            Refusal::EnablesInterrupts(_) => 3,
            Refusal::Sphl(_) => 4,
            Refusal::Pchl(_) => 5,
            Refusal::StackByByte(_) => 6,
            Refusal::SetsStack(_) => 7,
            Refusal::DirectStore(_) => 8,
            Refusal::PopsBelow(_) => 9,
            Refusal::ReturnNotOwn(_) => 10,
            Refusal::ReturnFromMain(_) => 11,
            Refusal::HeightsDiffer(_) => 12,
            Refusal::UnevenArguments(_) => 13,
            Refusal::ShortArguments(_) => 14,
            Refusal::Recursion(_) => 15,
            Refusal::StackTooSmall(_, _) => 16,
            Refusal::TooManyPoints => 17,
            Refusal::Memory => 18,
        }
    }

    /// The refusal's name, as it is printed, without its numbers.
    pub fn name(&self) -> &'static str
        ensures { result.now ≡ refusal_name self.now }
    {
        match self {
            Refusal::FetchOutside(_) => "FetchOutside",
            Refusal::UnusedOpcode(_) => "UnusedOpcode",
            Refusal::EnablesInterrupts(_) => "EnablesInterrupts",
            Refusal::Sphl(_) => "Sphl",
            Refusal::Pchl(_) => "Pchl",
            Refusal::StackByByte(_) => "StackByByte",
            Refusal::SetsStack(_) => "SetsStack",
            Refusal::DirectStore(_) => "DirectStore",
            Refusal::PopsBelow(_) => "PopsBelow",
            Refusal::ReturnNotOwn(_) => "ReturnNotOwn",
            Refusal::ReturnFromMain(_) => "ReturnFromMain",
            Refusal::HeightsDiffer(_) => "HeightsDiffer",
            Refusal::UnevenArguments(_) => "UnevenArguments",
            Refusal::ShortArguments(_) => "ShortArguments",
            Refusal::Recursion(_) => "Recursion",
            Refusal::StackTooSmall(_, _) => "StackTooSmall",
            Refusal::TooManyPoints => "TooManyPoints",
            Refusal::Memory => "Memory",
        }
    }

    /// The address that the refusal names, or `None` for `StackTooSmall`, `TooManyPoints` and
    /// `Memory`.
    pub fn address(&self) -> Option<u16>
        ensures { result ≡ refusal_address self.now }
    {
        match *self {
            Refusal::FetchOutside(at)
            | Refusal::UnusedOpcode(at)
            | Refusal::EnablesInterrupts(at)
            | Refusal::Sphl(at)
            | Refusal::Pchl(at)
            | Refusal::StackByByte(at)
            | Refusal::SetsStack(at)
            | Refusal::DirectStore(at)
            | Refusal::PopsBelow(at)
            | Refusal::ReturnNotOwn(at)
            | Refusal::ReturnFromMain(at)
            | Refusal::HeightsDiffer(at)
            | Refusal::UnevenArguments(at)
            | Refusal::ShortArguments(at)
            | Refusal::Recursion(at) => Some(at),
            Refusal::StackTooSmall(_, _) | Refusal::TooManyPoints | Refusal::Memory => None,
        }
    }

    /// Whether the refusal is `ReturnNotOwn`, the only one that depends on which words are known to
    /// be the return address.
    pub(crate) fn rests_on_a_word(&self) -> bool
        ensures { result ≡ rests_on_a_word self.now }
    {
        matches!(self, Refusal::ReturnNotOwn(_))
    }

    /// The refusal for an address where no instruction may be executed, for this reason.
    pub(crate) fn of_look(fault: LookFault, at: u16) -> Refusal
        ensures { result ≡ look_refusal fault at }
    {
        match fault {
            LookFault::Outside => Refusal::FetchOutside(at),
            LookFault::Unused => Refusal::UnusedOpcode(at),
            LookFault::EnablesInterrupts => Refusal::EnablesInterrupts(at),
            LookFault::Pchl => Refusal::Pchl(at),
            LookFault::DirectStore => Refusal::DirectStore(at),
        }
    }

    /// The refusal for an instruction at an address that has this fault with its frame.
    pub(crate) fn of(fault: FrameFault, at: u16) -> Refusal
        ensures { result ≡ refusal_of fault at }
    {
        match fault {
            FrameFault::Sphl => Refusal::Sphl(at),
            FrameFault::StackByByte => Refusal::StackByByte(at),
            FrameFault::SetsStack => Refusal::SetsStack(at),
            FrameFault::PopsBelow => Refusal::PopsBelow(at),
            FrameFault::ReturnNotOwn => Refusal::ReturnNotOwn(at),
            FrameFault::ReturnFromMain => Refusal::ReturnFromMain(at),
            FrameFault::Memory => Refusal::Memory,
        }
    }
}

impl fmt::Display for Refusal {
    /// Writes the name, and after it the address, as `Sphl AT 3000`, or the two numbers of
    /// `StackTooSmall`.
    fn fmt<W: fmt::Write>(&self, f: &mut fmt::Formatter<W>) -> fmt::Result {
        let name = self.name();
        if let Refusal::StackTooSmall(need, has) = self {
            return write!(f, "{name} {need} {has}");
        }
        match self.address() {
            Some(at) => write!(f, "{name} AT {at:04X}"),
            None => f.write_str(name),
        }
    }
}

/// Shown as `Display` does, by its name and numbers.
impl fmt::Debug for Refusal {
    /// Writes what `Display` writes.
    fn fmt<W: fmt::Write>(&self, f: &mut fmt::Formatter<W>) -> fmt::Result {
        fmt::Display::fmt(self, f)
    }
}

impl Error for Refusal {}

impl From<AllocError> for Refusal {
    ghost use Rattle.verify80_flow.specs.declared.refusal.Refusal.TheVariants.{Memory};

    ghost from_gives = { λ _ refusal. refusal ≡ Memory };

    /// Running out of memory is the refusal `Memory`.
    fn from(_: AllocError) -> Refusal {
        Refusal::Memory
    }
}
