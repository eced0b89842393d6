//! How a run ends.

ghost use Rattle.std.specs.Prelude.{◌≡◌};
ghost use Rattle.machine80.specs.End.{code_of};

/// How a run ends. Only code that isn't verified ends by `Fetch`, `Stack` or `Direct`; a vouched image never does.
#[derive(Clone, Copy, Debug, PartialEq, Eq)]
pub enum End {
    /// A HLT was executed.
    Halt,
    /// IN at this port, where no byte waits.
    InputEnd(u8),
    /// OUT at this port, which refuses the byte.
    OutputRefused(u8),
    /// A register-indirect store (STAX, MOV M and its like) to this address, which isn't data.
    StoreOutside(u16),
    /// The instruction at this address has a byte outside code or past FFFF, or its first byte is unused.
    Fetch(u16),
    /// A push or a pop touches this address, which isn't a byte of the stack.
    Stack(u16),
    /// STA or SHLD stores to this address, which isn't data.
    Direct(u16),
    /// A PCHL for which targets are declared jumps to this address, which is none of them.
    JumpOutside(u16),
}

impl End {
    /// The number of this end: 1 `Halt`, 2 `InputEnd`, 3 `OutputRefused`, 4 `StoreOutside`, 5 `Fetch`, 6 `Stack`, 7
    /// `Direct`, 8 `JumpOutside`.
    pub fn code(&self) -> u8
        ensures { result ≡ code_of self.now }
    {
        match self {
            End::Halt => 1,
            End::InputEnd(_) => 2,
            End::OutputRefused(_) => 3,
            End::StoreOutside(_) => 4,
            End::Fetch(_) => 5,
            End::Stack(_) => 6,
            End::Direct(_) => 7,
            End::JumpOutside(_) => 8,
        }
    }
}
