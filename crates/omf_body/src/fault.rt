//! The refusals of this crate. Each prints as its name, then its value with one space before it.

use omf_core::RecordKind;
use thiserror::Error;

/// Why a field of a body can't be read.
#[derive(Clone, Copy, PartialEq, Eq, Debug, Error)]
pub enum FieldFault {
    /// The body ends inside the field, or the field's value isn't one that the format lists.
    #[error("BadBody")]
    BadBody,
    /// A name that the body holds whole has no bytes, or one outside 21h to 7Eh.
    #[error("BadName")]
    BadName,
}

/// Why the body of a record can't be read: its first fault, the fields taken in order.
#[derive(Clone, Copy, PartialEq, Eq, Debug, Error)]
pub enum BodyFault {
    /// An object file has no records of this type byte.
    #[error("UnknownKind {0:02X}")]
    UnknownKind(u8),
    /// The body of a record of this type byte ends inside a field, the value of a field isn't one
    /// that the format lists, the id of a common is outside 6 to 254, or an id is listed twice in a
    /// header.
    #[error("BadBody {0:02X}")]
    BadBody(u8),
    /// A name that the body holds whole has no bytes, or one outside 21h to 7Eh.
    #[error("BadName")]
    BadName,
}

impl FieldFault {
    ghost use Rattle.std.specs.Prelude.{◌≡◌};
    ghost use Rattle.omf_body.specs.Faults.{fault_of};

    /// Converts the fault of a field to that of the body of a record of this kind.
    pub(crate) fn of(self, kind: RecordKind) -> BodyFault
        ensures { result ≡ fault_of kind self }
    {
        match self {
            FieldFault::BadBody => BodyFault::BadBody(kind.byte()),
            FieldFault::BadName => BodyFault::BadName,
        }
    }
}
