//! What tells a refusal from others.

ghost use Rattle.std.specs.Prelude.{◌≡◌};
ghost use Rattle.verify80_flow.specs.Refusal.{refusal_address, refusal_code};

use verify80_flow::Refusal;

/// What tells a refusal from others: its address and its number.
#[derive(Clone, Copy, PartialEq, Eq, PartialOrd, Ord, Hash)]
pub(crate) struct Place {
    /// The address.
    pub(crate) at: Option<u16>,
    /// The number.
    pub(crate) code: u8,
}

impl Place {
    /// The address and the number of a refusal.
    pub(crate) fn of(refusal: Refusal) -> Place
        ensures { result ≡ record { at = refusal_address refusal; code = refusal_code refusal } }
    {
        Place {
            at: refusal.address(),
            code: refusal.code(),
        }
    }
}
