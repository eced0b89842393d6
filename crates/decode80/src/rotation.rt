//! The four rotations of the accumulator.

/// A rotation of the accumulator by one bit.
#[derive(Clone, Copy, PartialEq, Eq)]
pub enum Rotation {
    /// RLC: bit 7 goes into bit 0 and the carry.
    Left,
    /// RRC: bit 0 goes into bit 7 and the carry.
    Right,
    /// RAL: bit 7 goes into the carry, and the old carry into bit 0.
    LeftThroughCarry,
    /// RAR: bit 0 goes into the carry, and the old carry into bit 7.
    RightThroughCarry,
}

impl Rotation {
    ghost use Rattle.std.specs.Prelude.{◌≡◌, ◌<◌};
    ghost use Rattle.decode80.specs.Rotation.{rotation_code};
    ghost use Rattle.decode80.specs.Text.{rotation_text};

    /// The two bits that name the rotation in an opcode, 0 to 3.
    pub(crate) fn code(self) -> u8
        ensures value { result ≡ rotation_code self }
        ensures small { result < 4 }
    {
        match self {
            Rotation::Left => 0,
            Rotation::Right => 1,
            Rotation::LeftThroughCarry => 2,
            Rotation::RightThroughCarry => 3,
        }
    }

    /// The mnemonic of the rotation.
    pub(crate) fn text(self) -> &'static [u8]
        ensures { result.now ≡ rotation_text self }
    {
        match self {
            Rotation::Left => b"RLC",
            Rotation::Right => b"RRC",
            Rotation::LeftThroughCarry => b"RAL",
            Rotation::RightThroughCarry => b"RAR",
        }
    }
}
