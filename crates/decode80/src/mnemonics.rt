//! The mnemonics of instructions.

ghost use Rattle.std.specs.Prelude.{◌≡◌, []};
ghost use Rattle.decode80.specs.Text.{mnemonic, operand_texts};

use crate::instr::Instr;
use crate::operation::Operand;

/// The mnemonic of an instruction, without operands.
pub(crate) fn mnemonic_of(instr: Instr) -> &'static [u8]
    ensures { result.now ≡ mnemonic instr }
{
    match instr {
        Instr::Mov(_, _) | Instr::Load(_) | Instr::Store(_) => b"MOV",
        Instr::Mvi(_, _) | Instr::MviMemory(_) => b"MVI",
        Instr::Lxi(_, _) => b"LXI",
        Instr::Dad(_) => b"DAD",
        Instr::Inx(_) => b"INX",
        Instr::Dcx(_) => b"DCX",
        Instr::Inr(_) | Instr::InrMemory => b"INR",
        Instr::Dcr(_) | Instr::DcrMemory => b"DCR",
        Instr::Operate(operation, Operand::Immediate(_)) => operation.immediate_text(),
        Instr::Operate(operation, _) => operation.text(),
        Instr::Jmp(_) => b"JMP",
        Instr::JumpIf(condition, _) => condition.jump_text(),
        Instr::Call(_) => b"CALL",
        Instr::CallIf(condition, _) => condition.call_text(),
        Instr::Rst(_) => b"RST",
        Instr::Push(_) => b"PUSH",
        Instr::Pop(_) => b"POP",
        Instr::Stax(_) => b"STAX",
        Instr::Ldax(_) => b"LDAX",
        Instr::Shld(_) => b"SHLD",
        Instr::Lhld(_) => b"LHLD",
        Instr::Sta(_) => b"STA",
        Instr::Lda(_) => b"LDA",
        Instr::In(_) => b"IN",
        Instr::Out(_) => b"OUT",
        alone => mnemonic_alone(alone),
    }
}

/// The mnemonic of an instruction, which must have no operands in its text.
fn mnemonic_alone(instr: Instr) -> &'static [u8]
    requires { operand_texts instr ≡ [] }
    ensures { result.now ≡ mnemonic instr }
{
    match instr {
        Instr::Ret => b"RET",
        Instr::ReturnIf(condition) => condition.return_text(),
        Instr::Rotate(rotation) => rotation.text(),
        Instr::Daa => b"DAA",
        Instr::Cma => b"CMA",
        Instr::Stc => b"STC",
        Instr::Cmc => b"CMC",
        Instr::Xthl => b"XTHL",
        Instr::Pchl => b"PCHL",
        Instr::Xchg => b"XCHG",
        Instr::Sphl => b"SPHL",
        Instr::Ei => b"EI",
        Instr::Di => b"DI",
        Instr::Nop => b"NOP",
        Instr::Hlt => b"HLT",
        _ => unreachable!(),
    }
}
