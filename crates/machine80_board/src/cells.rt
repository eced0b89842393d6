//! The cells that an instruction loads from and stores to.

ghost use Rattle.std.specs.Prelude.{◌≡◌, ◌++◌};
ghost use Rattle.decode80.specs.Fetch.{direct_bytes};
ghost use Rattle.machine80.specs.Effects.{pointed_bytes};
ghost use Rattle.machine80_board.specs.Exchanges.{loads, loads_of};
ghost use Rattle.machine80_board.specs.Keeping.{addresses_of};

use decode80::{Instr, Operand, Storing};
use machine80::Registers;

/// The cells that an instruction loads data from, or stores data to.
#[derive(Clone, Copy, PartialEq, Eq)]
pub(crate) enum Cells {
    /// None.
    Nowhere,
    /// The one at this address.
    Byte(u16),
    /// The one at this address and the next one.
    Word(u16),
}

/// The cells that an instruction loads data from.
pub(crate) fn loaded_cells(instr: Instr, registers: &Registers) -> Cells
    ensures { addresses_of result ≡ loads instr registers.now }
{
    match instr {
        Instr::Load(_) | Instr::InrMemory | Instr::DcrMemory => Cells::Byte(registers.hl()),
        Instr::Operate(_, operand) => operand_cells(operand, registers),
        Instr::Ldax(pair) => Cells::Byte(registers.index_pair(pair)),
        Instr::Lda(address) => Cells::Byte(address),
        Instr::Lhld(address) => Cells::Word(address),
        _ => Cells::Nowhere,
    }
}

/// The cell of an operand in memory.
fn operand_cells(operand: Operand, registers: &Registers) -> Cells
    ensures { addresses_of result ≡ loads_of operand registers.now }
{
    match operand {
        Operand::Memory => Cells::Byte(registers.hl()),
        Operand::Register(_) | Operand::Immediate(_) => Cells::Nowhere,
    }
}

/// The cells that an instruction stores to, apart from the stack.
pub(crate) fn stored_cells(instr: Instr, registers: &Registers) -> Cells
    ensures { addresses_of result ≡ direct_bytes instr ++ pointed_bytes instr registers.now }
{
    match instr.facts().storing {
        Storing::Nowhere => Cells::Nowhere,
        Storing::Byte(address) => Cells::Byte(address),
        Storing::Word(address) => Cells::Word(address),
        Storing::ThroughHl => Cells::Byte(registers.hl()),
        Storing::Through(pair) => Cells::Byte(registers.index_pair(pair)),
    }
}
