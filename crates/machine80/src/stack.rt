//! Instructions that push and pop. If a byte that they touch is no byte of the stack, nothing changes.

ghost use Rattle.std.specs.Prelude.{◌≡◌, ◌∷◌, [], ◌/◌, ◌%◌, None, OnOk, OnErr, IfOk};
ghost use Rattle.std.specs.Result.{result_err};
ghost use Rattle.decode80.specs.Fetch.{ahead, behind};
ghost use Rattle.image80.specs.Range.{in_range};
ghost use Rattle.machine80.specs.declared.end.End.TheVariants.{Stack};
ghost use Rattle.machine80.specs.Cpu.{high_of, low_of, with_stack_pair};
ghost use Rattle.machine80.specs.Effects.{byte_in, word_in, stored, pushed_bytes, popped_bytes, push_bytes};
ghost use Rattle.machine80.specs.Step.{first_outside, ends_at};

use crate::bus::Bus;
use crate::cpu::Cpu;
use crate::end::End;
use crate::guard::{guard_pop, guard_push};
use crate::words::{load_word, push, push_word};
use decode80::{StackPair, ahead, behind};
use image80::Regions;

/// Pushes a return address. `Err` is `End::Stack` with the first of the two bytes that is outside the stack; then
/// nothing has changed.
#[inline]
pub(crate) fn push_return_address<B: Bus>(
    place: u16,
    cpu: &mut Cpu,
    bus: &mut B,
    regions: &Regions,
) -> Result<(), End>
    ensures end { result_err result ≡ ends_at (first_outside (in_range regions.now.stack) (pushed_bytes cpu.old.sp)) Stack None }
    ensures kept { OnErr result ((cpu.new ≡ cpu.old) × (B.memory bus.new ≡ B.memory bus.old)) }
    ensures cpu { OnOk result (cpu.new ≡ record cpu.old { sp = behind cpu.old.sp 2 }) }
    ensures memory { OnOk result (B.memory bus.new
        ≡ stored (B.memory bus.old) (push_bytes cpu.old.sp (place / 256) (place % 256))) }
{
    guard_push(cpu.sp, regions)?;
    push_word(bus, cpu.sp, place);
    cpu.sp = behind(cpu.sp, 2);
    Ok(())
}

/// Pops a return address and returns it. `Err` is `End::Stack` with the first of the two bytes that is outside the
/// stack; then nothing has changed.
#[inline]
pub(crate) fn pop_return_address<B: Bus>(
    cpu: &mut Cpu,
    bus: &B,
    regions: &Regions,
) -> Result<u16, End>
    ensures end { result_err result ≡ ends_at (first_outside (in_range regions.now.stack) (popped_bytes cpu.old.sp)) Stack None }
    ensures kept { OnErr result (cpu.new ≡ cpu.old) }
    ensures place { IfOk result (λ place. place ≡ word_in (B.memory bus.now) cpu.old.sp) }
    ensures cpu { OnOk result (cpu.new ≡ record cpu.old { sp = ahead cpu.old.sp 2 }) }
{
    guard_pop(cpu.sp, regions)?;
    let place = load_word(bus, cpu.sp);
    cpu.sp = ahead(cpu.sp, 2);
    Ok(place)
}

/// Pushes a pair, as PUSH does. `Err` is `End::Stack` with the first of the two bytes that is outside the stack; then
/// nothing has changed.
#[inline]
pub(crate) fn push_pair<B: Bus>(
    pair: StackPair,
    cpu: &mut Cpu,
    bus: &mut B,
    regions: &Regions,
) -> Result<(), End>
    ensures end { result_err result ≡ ends_at (first_outside (in_range regions.now.stack) (pushed_bytes cpu.old.sp)) Stack None }
    ensures kept { OnErr result ((cpu.new ≡ cpu.old) × (B.memory bus.new ≡ B.memory bus.old)) }
    ensures cpu { OnOk result (cpu.new ≡ record cpu.old { sp = behind cpu.old.sp 2 }) }
    ensures memory { OnOk result (B.memory bus.new
        ≡ stored (B.memory bus.old) (push_bytes cpu.old.sp (high_of cpu.old.registers pair) (low_of cpu.old.registers pair))) }
{
    guard_push(cpu.sp, regions)?;
    push(
        bus,
        cpu.sp,
        cpu.registers.high(pair),
        cpu.registers.low(pair),
    );
    cpu.sp = behind(cpu.sp, 2);
    Ok(())
}

/// Pops a pair, as POP does. `Err` is `End::Stack` with the first of the two bytes that is outside the stack; then
/// nothing has changed.
#[inline]
pub(crate) fn pop_pair<B: Bus>(
    pair: StackPair,
    cpu: &mut Cpu,
    bus: &B,
    regions: &Regions,
) -> Result<(), End>
    ensures end { result_err result ≡ ends_at (first_outside (in_range regions.now.stack) (popped_bytes cpu.old.sp)) Stack None }
    ensures kept { OnErr result (cpu.new ≡ cpu.old) }
    ensures cpu { OnOk result (cpu.new
        ≡ record cpu.old {
          registers = with_stack_pair cpu.old.registers pair (byte_in (B.memory bus.now) (ahead cpu.old.sp 1))
              (byte_in (B.memory bus.now) cpu.old.sp);
          sp = ahead cpu.old.sp 2;
        }) }
{
    guard_pop(cpu.sp, regions)?;
    cpu.registers
        .assign_stack_pair(pair, bus.load(ahead(cpu.sp, 1)), bus.load(cpu.sp));
    cpu.sp = ahead(cpu.sp, 2);
    Ok(())
}

/// Exchanges HL with the word at the stack pointer, as XTHL does. `Err` is `End::Stack` with the first of the two
/// bytes that is outside the stack; then nothing has changed.
#[inline]
pub(crate) fn exchange<B: Bus>(cpu: &mut Cpu, bus: &mut B, regions: &Regions) -> Result<(), End>
    ensures end { result_err result ≡ ends_at (first_outside (in_range regions.now.stack) (popped_bytes cpu.old.sp)) Stack None }
    ensures kept { OnErr result ((cpu.new ≡ cpu.old) × (B.memory bus.new ≡ B.memory bus.old)) }
    ensures cpu { OnOk result (cpu.new
        ≡ record cpu.old {
          registers = record cpu.old.registers {
            h = byte_in (B.memory bus.old) (ahead cpu.old.sp 1);
            l = byte_in
                (B.memory bus.old) cpu.old.sp;
          };
        }) }
    ensures memory { OnOk result (B.memory bus.new
        ≡ stored (B.memory bus.old) ((cpu.old.sp, cpu.old.registers.l) ∷ (ahead cpu.old.sp 1, cpu.old.registers.h) ∷ [])) }
{
    guard_pop(cpu.sp, regions)?;
    let (high, low) = (bus.load(ahead(cpu.sp, 1)), bus.load(cpu.sp));
    bus.store(cpu.sp, cpu.registers.l);
    bus.store(ahead(cpu.sp, 1), cpu.registers.h);
    cpu.registers.assign_stack_pair(StackPair::Hl, high, low);
    Ok(())
}
