//! The register pairs that an instruction can name.

/// A register pair of LXI, DAD, INX and DCX: a field of two bits, 0 to 3 in this order.
#[derive(Clone, Copy, PartialEq, Eq)]
pub enum Pair {
    /// B (high) and C (low).
    Bc,
    /// D (high) and E (low).
    De,
    /// H (high) and L (low).
    Hl,
    /// The stack pointer.
    Sp,
}

impl Pair {
    ghost use Rattle.std.specs.Prelude.{◌≡◌, ◌<◌};
    ghost use Rattle.decode80.specs.Pair.{pair_code};
    ghost use Rattle.decode80.specs.Text.{pair_text};

    /// The two bits that name the pair in an opcode, 0 to 3.
    pub(crate) fn code(self) -> u8
        ensures value { result ≡ pair_code self }
        ensures small { result < 4 }
    {
        match self {
            Pair::Bc => 0,
            Pair::De => 1,
            Pair::Hl => 2,
            Pair::Sp => 3,
        }
    }

    /// The name of the pair in an instruction's text: B, D, H or SP.
    pub(crate) fn text(self) -> &'static [u8]
        ensures { result.now ≡ pair_text self }
    {
        match self {
            Pair::Bc => b"B",
            Pair::De => b"D",
            Pair::Hl => b"H",
            Pair::Sp => b"SP",
        }
    }
}

/// A register pair of PUSH and POP: a field of two bits, 0 to 3 in this order.
#[derive(Clone, Copy, PartialEq, Eq)]
pub enum StackPair {
    /// B (high) and C (low).
    Bc,
    /// D (high) and E (low).
    De,
    /// H (high) and L (low).
    Hl,
    /// The program status word: A (high) and the flags byte (low).
    Psw,
}

impl StackPair {
    ghost use Rattle.std.specs.Prelude.{◌≡◌, ◌<◌};
    ghost use Rattle.decode80.specs.Pair.{stack_pair_code};
    ghost use Rattle.decode80.specs.Text.{stack_pair_text};

    /// The two bits that name the pair in PUSH and POP, 0 to 3.
    pub(crate) fn code(self) -> u8
        ensures value { result ≡ stack_pair_code self }
        ensures small { result < 4 }
    {
        match self {
            StackPair::Bc => 0,
            StackPair::De => 1,
            StackPair::Hl => 2,
            StackPair::Psw => 3,
        }
    }

    /// The name of the pair in an instruction's text: B, D, H or PSW.
    pub(crate) fn text(self) -> &'static [u8]
        ensures { result.now ≡ stack_pair_text self }
    {
        match self {
            StackPair::Bc => b"B",
            StackPair::De => b"D",
            StackPair::Hl => b"H",
            StackPair::Psw => b"PSW",
        }
    }
}

/// The register pair that STAX and LDAX take an address from: 0 or 1 in the opcode, in this order.
#[derive(Clone, Copy, PartialEq, Eq)]
pub enum IndexPair {
    /// B (high) and C (low).
    Bc,
    /// D (high) and E (low).
    De,
}

impl IndexPair {
    ghost use Rattle.std.specs.Prelude.{◌≡◌, ◌<◌};
    ghost use Rattle.decode80.specs.Pair.{index_pair_code};
    ghost use Rattle.decode80.specs.Text.{index_pair_text};

    /// The bit that names the pair in STAX and LDAX, 0 or 1.
    pub(crate) fn code(self) -> u8
        ensures value { result ≡ index_pair_code self }
        ensures small { result < 2 }
    {
        match self {
            IndexPair::Bc => 0,
            IndexPair::De => 1,
        }
    }

    /// The name of the pair in an instruction's text: B or D.
    pub(crate) fn text(self) -> &'static [u8]
        ensures { result.now ≡ index_pair_text self }
    {
        match self {
            IndexPair::Bc => b"B",
            IndexPair::De => b"D",
        }
    }
}
