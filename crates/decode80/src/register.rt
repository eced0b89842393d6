//! The seven registers of eight bits.

/// One of the seven registers of eight bits.
///
/// In an opcode a register is a field of three bits: B, C, D, E, H, L are 0 to 5 and A is 7. The field 6 is M, the byte of
/// memory that HL points to; it is no register here, and the instructions that name it are values of their own
/// (Intel 8080 Assembly Language Programming Manual).
#[derive(Clone, Copy, Debug, PartialEq, Eq)]
pub enum Register {
    B,
    C,
    D,
    E,
    H,
    L,
    A,
}

impl Register {
    ghost use Rattle.std.specs.Prelude.{◌≡◌, ◌<◌};
    ghost use Rattle.decode80.specs.Register.{register_code};
    ghost use Rattle.decode80.specs.Text.{register_text};

    /// The three bits that name the register in an opcode: 0 to 5, or 7 for A.
    pub(crate) fn code(self) -> u8
        ensures value { result ≡ register_code self }
        ensures small { result < 8 }
    {
        match self {
            Register::B => 0,
            Register::C => 1,
            Register::D => 2,
            Register::E => 3,
            Register::H => 4,
            Register::L => 5,
            Register::A => 7,
        }
    }

    /// The letter of the register.
    pub(crate) fn text(self) -> &'static [u8]
        ensures { result.now ≡ register_text self }
    {
        match self {
            Register::B => b"B",
            Register::C => b"C",
            Register::D => b"D",
            Register::E => b"E",
            Register::H => b"H",
            Register::L => b"L",
            Register::A => b"A",
        }
    }
}
