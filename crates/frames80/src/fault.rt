//! Why an instruction, a call or a meeting of frames is refused. The numbers are those of the verifier's refusals.

ghost use Rattle.std.specs.Prelude.{◌≡◌};
ghost use Rattle.frames80.specs.Fault.{frame_fault_code, call_fault_code};

use std::alloc::AllocError;
use thiserror::Error;

/// Why an instruction is refused with a frame.
#[derive(Clone, Copy, PartialEq, Eq, Debug, Error)]
pub enum FrameFault {
    /// SPHL, which sets SP to HL.
    #[error("Sphl")]
    Sphl = 4,
    /// INX SP or DCX SP.
    #[error("StackByByte")]
    StackByByte = 6,
    /// LXI SP in an entry, or with another word than the stack's top.
    #[error("SetsStack")]
    SetsStack = 7,
    /// A pop or XTHL of the main program if its stack is empty.
    #[error("PopsBelow")]
    PopsBelow = 9,
    /// A return of an entry whose words are not its return address alone.
    #[error("ReturnNotOwn")]
    ReturnNotOwn = 10,
    /// A return of the main program.
    #[error("ReturnFromMain")]
    ReturnFromMain = 11,
    /// Out of memory.
    #[error("Memory")]
    Memory = 18,
}

impl FrameFault {
    /// The number of this fault, 4 to 18, with which the verifier refuses a program.
    pub fn code(&self) -> u8
        ensures { result ≡ frame_fault_code self.now }
    {
        *self as u8
    }
}

impl From<AllocError> for FrameFault {
    ghost use Rattle.frames80.specs.declared.fault.FrameFault.TheVariants.{Memory};

    ghost from_gives = { λ _ fault. fault ≡ Memory };

    /// Running out of memory is the fault `Memory`.
    fn from(_: AllocError) -> FrameFault {
        FrameFault::Memory
    }
}

/// Why a caller has no frame after a call.
#[derive(Clone, Copy, PartialEq, Eq, Debug, Error)]
pub enum CallFault {
    /// The caller has fewer words above its bottom word than the callee may take; in the main
    /// program, fewer words.
    #[error("ShortArguments")]
    ShortArguments = 14,
    /// Out of memory.
    #[error("Memory")]
    Memory = 18,
}

impl CallFault {
    /// The number of this fault, 14 or 18, with which the verifier refuses a program.
    pub fn code(&self) -> u8
        ensures { result ≡ call_fault_code self.now }
    {
        *self as u8
    }
}

impl From<AllocError> for CallFault {
    ghost use Rattle.frames80.specs.declared.fault.CallFault.TheVariants.{Memory};

    ghost from_gives = { λ _ fault. fault ≡ Memory };

    /// Running out of memory is the fault `Memory`.
    fn from(_: AllocError) -> CallFault {
        CallFault::Memory
    }
}

/// Two frames of one point differ in the words taken or in the number of words.
#[derive(Clone, Copy, PartialEq, Eq, Debug, Error)]
#[error("HeightsDiffer")]
pub struct HeightsDiffer;

impl HeightsDiffer {
    /// The number of this fault, 12, with which the verifier refuses a program.
    pub fn code(&self) -> u8
        ensures { result ≡ 12 }
    {
        12
    }
}
