//! What an instruction does to the processor and its memory.

ghost use Rattle.std.specs.Prelude.{◌≡◌, ℕ, ◌∷◌, [], ◌/◌, ◌%◌, None, OnSome, IfNone, OnOk, OnErr, IfOk};
ghost use Rattle.std.specs.Result.{result_err};
ghost use Rattle.decode80.specs.Fetch.{behind};
ghost use Rattle.image80.specs.Range.{in_range};
ghost use Rattle.image80.specs.Regions.{in_data};
ghost use Rattle.machine80.specs.declared.end.End.TheVariants.{Stack, StoreOutside};
ghost use Rattle.machine80.specs.Cpu.{hl_of};
ghost use Rattle.machine80.specs.Effects.{target, changed, operand_of, stores, stored, pushed_bytes, push_bytes, with_flags};
ghost use Rattle.machine80.specs.Kinds.{Computes, IsPlain, IsStraight};
ghost use Rattle.machine80.specs.Step.{guard, first_outside, ends_at};

use crate::alu::{self, Answer};
use crate::bus::Bus;
use crate::cpu::Cpu;
use crate::end::End;
use crate::flags::condition_holds;
use crate::registers::Registers;
use crate::stack::{exchange, pop_pair, pop_return_address, push_pair, push_return_address};
use crate::stores::{store_byte, store_direct, store_word};
use decode80::{Fetched, Instr, Operand, StackPair, ahead, behind};
use image80::Regions;

/// The second operand of an operation on the accumulator: the byte in a register, the byte that HL points to, or the
/// immediate byte.
#[inline]
fn operand<B: Bus>(operand: Operand, registers: &Registers, bus: &B) -> u8
    ensures { result ≡ operand_of operand (B.memory bus.now) registers.now }
{
    match operand {
        Operand::Register(register) => registers.value(register),
        Operand::Memory => bus.load(registers.hl()),
        Operand::Immediate(byte) => byte,
    }
}

/// Executes an operation on the accumulator, INR or DCR of a register, DAD, a rotation, DAA, CMA, STC or CMC, but for
/// the program counter. The instruction must be one of these.
#[inline]
fn compute<B: Bus>(instr: Instr, cpu: &mut Cpu, bus: &B)
    requires { Computes instr }
    ensures { cpu.new ≡ changed instr (B.memory bus.now) cpu.old }
{
    let r = cpu.registers;
    match instr {
        Instr::Operate(operation, from) => {
            cpu.put(alu::operate(operation, r.a, operand(from, &r, bus), r.flags));
        }
        Instr::Inr(register) => cpu.put_in(register, alu::increment(r.value(register), r.flags)),
        Instr::Dcr(register) => cpu.put_in(register, alu::decrement(r.value(register), r.flags)),
        Instr::Dad(pair) => cpu.add(cpu.pair(pair)),
        Instr::Rotate(rotation) => cpu.put(alu::rotate(rotation, r.a, r.flags)),
        Instr::Daa => cpu.put(alu::decimal_adjust(r.a, r.flags)),
        Instr::Cma => cpu.registers.a = alu::complement(r.a),
        Instr::Stc => cpu.registers.flags = alu::set_carry(r.flags),
        Instr::Cmc => cpu.registers.flags = alu::complement_carry(r.flags),
        _ => unreachable!(),
    }
}

/// Executes an instruction that neither jumps nor stores nor touches the stack, but for the program counter and the
/// ports. The instruction must be of that kind. IN, OUT, EI, DI, NOP and HLT change nothing here.
#[inline]
fn change<B: Bus>(instr: Instr, cpu: &mut Cpu, bus: &B)
    requires { IsPlain instr }
    ensures { cpu.new ≡ changed instr (B.memory bus.now) cpu.old }
{
    let r = cpu.registers;
    match instr {
        Instr::Mov(to, from) => cpu.registers.assign(to, r.value(from)),
        Instr::Load(to) => cpu.registers.assign(to, bus.load(r.hl())),
        Instr::Mvi(to, byte) => cpu.registers.assign(to, byte),
        Instr::Lxi(pair, word) => cpu.assign_pair(pair, word),
        Instr::Inx(pair) => cpu.assign_pair(pair, ahead(cpu.pair(pair), 1)),
        Instr::Dcx(pair) => cpu.assign_pair(pair, behind(cpu.pair(pair), 1)),
        Instr::Ldax(pair) => cpu.registers.a = bus.load(r.index_pair(pair)),
        Instr::Lda(address) => cpu.registers.a = bus.load(address),
        Instr::Lhld(address) => cpu.registers.assign_stack_pair(
            StackPair::Hl,
            bus.load(ahead(address, 1)),
            bus.load(address),
        ),
        Instr::Xchg => {
            cpu.registers.assign_stack_pair(StackPair::De, r.h, r.l);
            cpu.registers.assign_stack_pair(StackPair::Hl, r.d, r.e);
        }
        Instr::Sphl => cpu.sp = r.hl(),
        Instr::Operate(_, _)
        | Instr::Inr(_)
        | Instr::Dcr(_)
        | Instr::Dad(_)
        | Instr::Rotate(_)
        | Instr::Daa
        | Instr::Cma
        | Instr::Stc
        | Instr::Cmc => compute(instr, cpu, bus),
        Instr::In(_) | Instr::Out(_) | Instr::Ei | Instr::Di | Instr::Nop | Instr::Hlt => {}
        _ => unreachable!(),
    }
}

/// Executes a fetched instruction and sets the program counter, without the effects of IN, OUT and HLT and the test
/// of a PCHL's targets, which are the caller's. Returns how the run ends if a byte that would be pushed, popped or
/// stored is outside its region; then nothing has changed.
#[inline]
pub(crate) fn proceed<B: Bus>(
    found: Fetched,
    cpu: &mut Cpu,
    bus: &mut B,
    regions: &Regions,
) -> Option<End>
    ensures end { result ≡ guard regions.now found.instr cpu.old }
    ensures kept { OnSome result ((cpu.new ≡ cpu.old) × (B.memory bus.new ≡ B.memory bus.old)) }
    ensures cpu { IfNone result (cpu.new
        ≡ record (changed found.instr (B.memory bus.old) cpu.old) {
          pc = target found.instr found.next
              (B.memory bus.old) cpu.old;
        }) }
    ensures memory { IfNone result (B.memory bus.new
        ≡ stored (B.memory bus.old) (stores found.instr found.next (B.memory bus.old) cpu.old)) }
{
    match go_on(found.instr, found.next, cpu, bus, regions) {
        Ok(address) => {
            cpu.pc = address;
            None
        }
        Err(end) => Some(end),
    }
}

/// Executes an instruction but for the program counter, and returns the address at which it goes on; `next` is the
/// address after it. `Err` is how the run ends if a byte that it touches is outside its region; then nothing has
/// changed.
#[inline]
fn go_on<B: Bus>(
    instr: Instr,
    next: u16,
    cpu: &mut Cpu,
    bus: &mut B,
    regions: &Regions,
) -> Result<u16, End>
    ensures end { result_err result ≡ guard regions.now instr cpu.old }
    ensures kept { OnErr result ((cpu.new ≡ cpu.old) × (B.memory bus.new ≡ B.memory bus.old)) }
    ensures target { IfOk result (λ address. address ≡ target instr next (B.memory bus.old) cpu.old) }
    ensures cpu { OnOk result (cpu.new ≡ changed instr (B.memory bus.old) cpu.old) }
    ensures memory { OnOk result (B.memory bus.new ≡ stored (B.memory bus.old) (stores instr next (B.memory bus.old) cpu.old)) }
{
    let r = cpu.registers;
    match instr {
        Instr::Jmp(address) => Ok(address),
        Instr::JumpIf(condition, address) if condition_holds(condition, r.flags) => Ok(address),
        Instr::Pchl => Ok(r.hl()),
        Instr::Call(address) => call(address, next, cpu, bus, regions),
        Instr::CallIf(condition, address) if condition_holds(condition, r.flags) => {
            call(address, next, cpu, bus, regions)
        }
        Instr::Rst(number) => call(number.address(), next, cpu, bus, regions),
        Instr::Ret => pop_return_address(cpu, bus, regions),
        Instr::ReturnIf(condition) if condition_holds(condition, r.flags) => {
            pop_return_address(cpu, bus, regions)
        }
        Instr::JumpIf(..) | Instr::CallIf(..) | Instr::ReturnIf(_) => Ok(next),
        straight => {
            go_straight(straight, cpu, bus, regions)?;
            Ok(next)
        }
    }
}

/// Pushes the return address `back` and returns `address`, at which the call goes on. `Err` is `End::Stack` if a
/// pushed byte would be outside the stack; then nothing has changed.
#[inline]
fn call<B: Bus>(
    address: u16,
    back: u16,
    cpu: &mut Cpu,
    bus: &mut B,
    regions: &Regions,
) -> Result<u16, End>
    ensures end { result_err result ≡ ends_at (first_outside (in_range regions.now.stack) (pushed_bytes cpu.old.sp)) Stack None }
    ensures kept { OnErr result ((cpu.new ≡ cpu.old) × (B.memory bus.new ≡ B.memory bus.old)) }
    ensures target { IfOk result (λ to. to ≡ address) }
    ensures cpu { OnOk result (cpu.new ≡ record cpu.old { sp = behind cpu.old.sp 2 }) }
    ensures memory { OnOk result (B.memory bus.new
        ≡ stored (B.memory bus.old) (push_bytes cpu.old.sp (back / 256) (back % 256))) }
{
    push_return_address(back, cpu, bus, regions)?;
    Ok(address)
}

/// Executes an instruction, which must be one that goes on to the next, but for the program counter. `Err` is how the
/// run ends if a byte that it touches is outside its region; then nothing has changed.
#[inline]
fn go_straight<B: Bus>(
    instr: Instr,
    cpu: &mut Cpu,
    bus: &mut B,
    regions: &Regions,
) -> Result<(), End>
    requires { IsStraight instr }
    ensures end { result_err result ≡ guard regions.now instr cpu.old }
    ensures kept { OnErr result ((cpu.new ≡ cpu.old) × (B.memory bus.new ≡ B.memory bus.old)) }
    ensures cpu { OnOk result (cpu.new ≡ changed instr (B.memory bus.old) cpu.old) }
    ensures memory { (next : ℕ) →
        OnOk result (B.memory bus.new ≡ stored (B.memory bus.old) (stores instr next (B.memory bus.old) cpu.old)) }
{
    let r = cpu.registers;
    match instr {
        Instr::Push(pair) => push_pair(pair, cpu, bus, regions),
        Instr::Pop(pair) => pop_pair(pair, cpu, bus, regions),
        Instr::Xthl => exchange(cpu, bus, regions),
        Instr::Sta(address) => store_direct(address, r.a, bus, regions),
        Instr::Shld(address) => store_word(address, r.l, r.h, bus, regions),
        Instr::Store(from) => store_byte(r.hl(), r.value(from), bus, regions),
        Instr::MviMemory(byte) => store_byte(r.hl(), byte, bus, regions),
        Instr::Stax(pair) => store_byte(r.index_pair(pair), r.a, bus, regions),
        Instr::InrMemory => {
            store_answer(alu::increment(bus.load(r.hl()), r.flags), cpu, bus, regions)
        }
        Instr::DcrMemory => {
            store_answer(alu::decrement(bus.load(r.hl()), r.flags), cpu, bus, regions)
        }
        plain => {
            change(plain, cpu, bus);
            Ok(())
        }
    }
}

/// Stores the result of INR M or DCR M where HL points to, and sets the flags. `Err` is `End::StoreOutside` if that
/// address isn't data; then nothing has changed.
#[inline]
fn store_answer<B: Bus>(
    answer: Answer,
    cpu: &mut Cpu,
    bus: &mut B,
    regions: &Regions,
) -> Result<(), End>
    ensures end { result_err result
        ≡ ends_at (first_outside (in_data regions.now) (hl_of cpu.old.registers ∷ [])) StoreOutside None }
    ensures kept { OnErr result ((cpu.new ≡ cpu.old) × (B.memory bus.new ≡ B.memory bus.old)) }
    ensures cpu { OnOk result (cpu.new ≡ with_flags cpu.old answer) }
    ensures memory { OnOk result (B.memory bus.new ≡ stored (B.memory bus.old) ((hl_of cpu.old.registers, answer.value) ∷ [])) }
{
    store_byte(cpu.registers.hl(), answer.value, bus, regions)?;
    cpu.registers.flags = answer.flags;
    Ok(())
}
