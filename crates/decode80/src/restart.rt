//! The eight restart vectors.

/// The number of a restart: RST n calls the address 8 times n. A field of three bits, 0 to 7 in this order.
///
/// The values are called vectors, so that none bears the name of a value of [`Condition`](crate::Condition).
#[derive(Clone, Copy, PartialEq, Eq)]
pub enum Restart {
    /// RST 0 calls 0000.
    Vector0,
    /// RST 1 calls 0008.
    Vector1,
    /// RST 2 calls 0010.
    Vector2,
    /// RST 3 calls 0018.
    Vector3,
    /// RST 4 calls 0020.
    Vector4,
    /// RST 5 calls 0028.
    Vector5,
    /// RST 6 calls 0030.
    Vector6,
    /// RST 7 calls 0038.
    Vector7,
}

impl Restart {
    ghost use Rattle.std.specs.Prelude.{◌≡◌, ◌*◌, ◌<◌};
    ghost use Rattle.decode80.specs.Restart.{restart_number};

    /// The n of RST n: the field that names the restart in an opcode.
    pub(crate) fn code(self) -> u8
        ensures value { result ≡ restart_number self }
        ensures small { result < 8 }
    {
        match self {
            Restart::Vector0 => 0,
            Restart::Vector1 => 1,
            Restart::Vector2 => 2,
            Restart::Vector3 => 3,
            Restart::Vector4 => 4,
            Restart::Vector5 => 5,
            Restart::Vector6 => 6,
            Restart::Vector7 => 7,
        }
    }

    /// The address that RST n calls, 8 times n.
    pub fn address(self) -> u16
        ensures { result ≡ 8 * restart_number self }
    {
        8 * u16::from(self.code())
    }
}
