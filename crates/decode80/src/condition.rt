//! The conditions of jumps, calls and returns.

/// What a conditional jump, call or return asks of the flags: a field of three bits, 0 to 7 in this order.
#[derive(Clone, Copy, PartialEq, Eq)]
pub enum Condition {
    /// NZ: the zero flag is 0.
    NonZero,
    /// Z: the zero flag is 1.
    Zero,
    /// NC: the carry flag is 0.
    NoCarry,
    /// C: the carry flag is 1.
    Carry,
    /// PO: the parity flag is 0.
    ParityOdd,
    /// PE: the parity flag is 1.
    ParityEven,
    /// P: the sign flag is 0.
    Plus,
    /// M: the sign flag is 1.
    Minus,
}

impl Condition {
    ghost use Rattle.std.specs.Prelude.{◌≡◌, ◌<◌, ◌++◌, codes};
    ghost use Rattle.decode80.specs.Condition.{condition_code};
    ghost use Rattle.decode80.specs.Text.{condition_text};

    /// The three bits that name the condition in an opcode, 0 to 7.
    pub(crate) fn code(self) -> u8
        ensures value { result ≡ condition_code self }
        ensures small { result < 8 }
    {
        match self {
            Condition::NonZero => 0,
            Condition::Zero => 1,
            Condition::NoCarry => 2,
            Condition::Carry => 3,
            Condition::ParityOdd => 4,
            Condition::ParityEven => 5,
            Condition::Plus => 6,
            Condition::Minus => 7,
        }
    }

    /// The mnemonic of the jump on the condition, such as JNZ.
    pub(crate) fn jump_text(self) -> &'static [u8]
        ensures { result.now ≡ codes "J" ++ condition_text self }
    {
        match self {
            Condition::NonZero => b"JNZ",
            Condition::Zero => b"JZ",
            Condition::NoCarry => b"JNC",
            Condition::Carry => b"JC",
            Condition::ParityOdd => b"JPO",
            Condition::ParityEven => b"JPE",
            Condition::Plus => b"JP",
            Condition::Minus => b"JM",
        }
    }

    /// The mnemonic of the call on the condition, such as CNZ.
    pub(crate) fn call_text(self) -> &'static [u8]
        ensures { result.now ≡ codes "C" ++ condition_text self }
    {
        match self {
            Condition::NonZero => b"CNZ",
            Condition::Zero => b"CZ",
            Condition::NoCarry => b"CNC",
            Condition::Carry => b"CC",
            Condition::ParityOdd => b"CPO",
            Condition::ParityEven => b"CPE",
            Condition::Plus => b"CP",
            Condition::Minus => b"CM",
        }
    }

    /// The mnemonic of the return on the condition, such as RNZ.
    pub(crate) fn return_text(self) -> &'static [u8]
        ensures { result.now ≡ codes "R" ++ condition_text self }
    {
        match self {
            Condition::NonZero => b"RNZ",
            Condition::Zero => b"RZ",
            Condition::NoCarry => b"RNC",
            Condition::Carry => b"RC",
            Condition::ParityOdd => b"RPO",
            Condition::ParityEven => b"RPE",
            Condition::Plus => b"RP",
            Condition::Minus => b"RM",
        }
    }
}
