//! The refusals of this crate. Each prints as its name, then its values with one space before each.

ghost use Rattle.std.specs.Prelude.{◌≡◌, ◌≢◌, false, IsTrue};
ghost use Rattle.omf_module.specs.Fault.{cause_code, no_memory, fault_of};
ghost use Rattle.omf_module.specs.Spelled.{cause_of, commons_cause};
ghost use Rattle.omf_module.specs.declared.fault.Cause.TheVariants.{Memory as OutOfMemory, Record as OfRecord};

use omf_body::{BodyFault, FieldFault};
use omf_core::{RecordFault, RecordKind};
use std::alloc::{AllocError, AllocFailed};
use std::{error, fmt};
use thiserror::Error;

/// What is wrong with a record of a module. (8080 Object Module Formats, and the rules of this project.)
#[derive(Clone, Copy, PartialEq, Eq, Debug, Error)]
pub enum Cause {
    /// The bytes at the place are no record, for this reason.
    #[error("{0}")]
    Record(RecordFault),
    /// Where a module should begin there is no byte, or a record that isn't a module header.
    #[error("NoHeader")]
    NoHeader,
    /// A module may have no record of this type byte.
    #[error("UnknownKind {0:02X}")]
    UnknownKind(u8),
    /// The body of a record of this type byte ends inside a field, a field has no listed value,
    /// or an id or a name is listed twice.
    #[error("BadBody {0:02X}")]
    BadBody(u8),
    /// A name is empty, or has a byte outside 21h to 7Eh.
    #[error("BadName")]
    BadName,
    /// No segment of the module has this id, or content is given for STACK (03).
    #[error("SegmentUnknown {0:02X}")]
    SegmentUnknown(u8),
    /// A content passes the end of its segment.
    #[error("OffsetOutside")]
    OffsetOutside,
    /// A fixup record has no content record before it.
    #[error("FixupBeforeContent")]
    FixupBeforeContent,
    /// The bytes of a fixup aren't all in its content.
    #[error("FixupOutside")]
    FixupOutside,
    /// A fixup shares a byte with one before it.
    #[error("FixupTwice")]
    FixupTwice,
    /// No external of the module has the index that a fixup gives.
    #[error("IndexUnknown")]
    IndexUnknown,
    /// Where a module or a file should go on there is no byte, or in a module an end-of-file
    /// record.
    #[error("NoEnd")]
    NoEnd,
    /// Out of memory for the module.
    #[error("Memory")]
    Memory,
}

impl From<AllocError> for Cause {
    ghost from_gives = { λ _ cause. cause ≡ OutOfMemory };

    fn from(_e: AllocError) -> Cause {
        Cause::Memory
    }
}

impl<T: Drop> From<AllocFailed<T>> for Cause {
    ghost from_gives = { λ _ cause. cause ≡ OutOfMemory };

    fn from(_e: AllocFailed<T>) -> Cause {
        Cause::Memory
    }
}

impl From<RecordFault> for Cause {
    ghost from_gives = { λ fault cause. cause ≡ OfRecord fault };

    fn from(fault: RecordFault) -> Cause {
        Cause::Record(fault)
    }
}

impl From<BodyFault> for Cause {
    ghost from_gives = { λ fault cause. cause ≡ cause_of fault };

    /// Converts the fault of a record's body to the cause of the same name.
    fn from(fault: BodyFault) -> Cause {
        match fault {
            BodyFault::UnknownKind(kind) => Cause::UnknownKind(kind),
            BodyFault::BadBody(kind) => Cause::BadBody(kind),
            BodyFault::BadName => Cause::BadName,
        }
    }
}

impl Cause {
    /// Converts the fault of a field of a named commons record (2E).
    pub(crate) fn of_commons(fault: FieldFault) -> Cause
        ensures { result ≡ commons_cause fault }
    {
        match fault {
            FieldFault::BadBody => Cause::BadBody(RecordKind::NamedCommons.byte()),
            FieldFault::BadName => Cause::BadName,
        }
    }

    /// The fault with this cause at this place; `Memory` is always at place 0.
    pub(crate) fn at(self, place: usize) -> ModuleFault
        ensures { result ≡ fault_of place self }
    {
        match self {
            Cause::Memory => ModuleFault {
                at: 0,
                cause: Cause::Memory,
            },
            cause => ModuleFault { at: place, cause },
        }
    }
}

/// Why no module can be read.
#[derive(Clone, Copy, PartialEq, Eq, Debug)]
pub struct ModuleFault {
    /// The place of the faulty record, in bytes from the start of the file; 0 if memory ran out.
    pub at: usize,
    /// What is wrong with the record.
    pub cause: Cause,
}

impl From<AllocError> for ModuleFault {
    ghost from_gives = { λ _ fault. fault ≡ no_memory };

    fn from(_e: AllocError) -> ModuleFault {
        Cause::Memory.at(0)
    }
}

impl<T: Drop> From<AllocFailed<T>> for ModuleFault {
    ghost from_gives = { λ _ fault. fault ≡ no_memory };

    fn from(_e: AllocFailed<T>) -> ModuleFault {
        Cause::Memory.at(0)
    }
}

impl ModuleFault {
    /// Whether the fault is `Memory` at place 0.
    pub(crate) fn is_memory(&self) -> bool
        ensures memory { IsTrue result → self.now ≡ no_memory }
        ensures other { result ≡ false → self.now ≢ no_memory }
    {
        *self == Cause::Memory.at(0)
    }

    /// The number of the cause: 1 `Record`, 2 `NoHeader`, 3 `UnknownKind`, 4 `BadBody`, 5 `BadName`, 6 `SegmentUnknown`,
    /// 7 `OffsetOutside`, 8 `FixupBeforeContent`, 9 `FixupOutside`, 10 `FixupTwice`, 11 `IndexUnknown`, 12 `NoEnd`, 13 `Memory`.
    pub fn code(&self) -> u8
        ensures { result ≡ cause_code self.now.cause }
    {
        match self.cause {
            Cause::Record(_) => 1,
            Cause::NoHeader => 2,
            Cause::UnknownKind(_) => 3,
            Cause::BadBody(_) => 4,
            Cause::BadName => 5,
            Cause::SegmentUnknown(_) => 6,
            Cause::OffsetOutside => 7,
            Cause::FixupBeforeContent => 8,
            Cause::FixupOutside => 9,
            Cause::FixupTwice => 10,
            Cause::IndexUnknown => 11,
            Cause::NoEnd => 12,
            Cause::Memory => 13,
        }
    }
}

impl fmt::Display for ModuleFault {
    /// Writes the cause and the place, as `NoEnd AT 20`; for `Memory` no place.
    fn fmt<W: fmt::Write>(&self, f: &mut fmt::Formatter<W>) -> fmt::Result {
        let cause = self.cause;
        let at = self.at;
        match cause {
            Cause::Memory => write!(f, "{cause}"),
            _ => write!(f, "{cause} AT {at}"),
        }
    }
}

impl error::Error for ModuleFault {}
