//! One step.

ghost use Rattle.std.specs.Prelude.{◌≡◌, ◌==◌, ◌-◌, ◌<◌, ◌^◌, AllPairs, OnSome, IfNone};
ghost use Rattle.std.specs.List.{list_any};
ghost use Rattle.image80.specs.Regions.{targets_at};
ghost use Rattle.machine80.specs.Cpu.{hl_of};
ghost use Rattle.machine80.specs.Ports.{has_refused};
ghost use Rattle.machine80.specs.Step.{PortsAfter, guard, guarded, jump_end, step_of, turn_of, with_ports};

use crate::bus::Bus;
use crate::cpu::Cpu;
use crate::end::End;
use crate::execute::proceed;
use crate::fetching::fetch;
use crate::ports::Ports;
use decode80::{Fetched, Instr};
use image80::Regions;

/// Makes one step: the instruction at the program counter is fetched, guarded and executed (Intel 8080 Microcomputer
/// Systems User's Manual, chapter 4; docs/MACHINE.md). Returns `None` if the run goes on, or how it ends:
/// [`End::Fetch`] if no instruction can be fetched; else [`End::Stack`], [`End::Direct`] or [`End::StoreOutside`] at
/// the first byte that it would touch outside its region; else [`End::Halt`] at HLT, [`End::InputEnd`] at IN if no
/// byte waits, [`End::OutputRefused`] at OUT if the ports refuse the byte, [`End::JumpOutside`] at a PCHL if targets
/// are declared for its address and HL is none of them.
///
/// If the run ends, nothing has changed but the count of refused outputs, which is one higher after
/// [`End::OutputRefused`]. The count must be below the greatest `u64`.
pub fn step<B: Bus, P: Ports>(
    cpu: &mut Cpu,
    bus: &mut B,
    ports: &mut P,
    regions: &Regions,
) -> Option<End>
    requires { (P.lists ports.old).refused < 2 ^ 64 - 1 }
    ensures turn { let before = with_ports cpu.old (B.memory bus.old) (P.lists ports.old) in
        let after = with_ports cpu.new (B.memory bus.new) (P.lists ports.new) in
        step_of regions.now (has_refused (P.lists ports.old) (P.lists ports.new)) before ≡ turn_of result after }
    ensures kept { OnSome result (with_ports cpu.new (B.memory bus.new) (P.lists ports.new)
        ≡ with_ports cpu.old (B.memory bus.old) (P.lists ports.old)) }
    ensures ports { PortsAfter result (P.lists ports.old) (P.lists ports.new) }
{
    let Some(found) = fetch(cpu.pc, bus, regions) else {
        return Some(End::Fetch(cpu.pc));
    };
    execute(found, cpu, bus, ports, regions)
}

/// Executes a fetched instruction with its checks, and returns how the run ends, if it does; then nothing has changed
/// but the count of refused outputs. That count must be below the greatest `u64`.
#[inline]
fn execute<B: Bus, P: Ports>(
    found: Fetched,
    cpu: &mut Cpu,
    bus: &mut B,
    ports: &mut P,
    regions: &Regions,
) -> Option<End>
    requires { (P.lists ports.old).refused < 2 ^ 64 - 1 }
    ensures turn { let before = with_ports cpu.old (B.memory bus.old) (P.lists ports.old) in
        let after = with_ports cpu.new (B.memory bus.new) (P.lists ports.new) in
        let refused = has_refused (P.lists ports.old) (P.lists ports.new) in
        guarded regions.now (guard regions.now found.instr cpu.old) refused found before ≡ turn_of result after }
    ensures kept { OnSome result (with_ports cpu.new (B.memory bus.new) (P.lists ports.new)
        ≡ with_ports cpu.old (B.memory bus.old) (P.lists ports.old)) }
    ensures ports { PortsAfter result (P.lists ports.old) (P.lists ports.new) }
{
    match found.instr {
        Instr::Hlt => Some(End::Halt),
        Instr::In(port) => {
            let Some(byte) = ports.take(port) else {
                return Some(End::InputEnd(port));
            };
            cpu.registers.a = byte;
            cpu.pc = found.next;
            None
        }
        Instr::Out(port) => {
            if ports.give(port, cpu.registers.a).is_err() {
                return Some(End::OutputRefused(port));
            }
            cpu.pc = found.next;
            None
        }
        Instr::Pchl => jump_by_pair(cpu, regions),
        _ => proceed(found, cpu, bus, regions),
    }
}

/// Executes PCHL: the program counter becomes HL. If targets are declared for its address and HL is none of them,
/// returns `End::JumpOutside` with HL, and nothing has changed.
fn jump_by_pair(cpu: &mut Cpu, regions: &Regions) -> Option<End>
    ensures end { result ≡ jump_end (targets_at regions.now cpu.old.pc) (hl_of cpu.old.registers) }
    ensures kept { OnSome result (cpu.new ≡ cpu.old) }
    ensures cpu { IfNone result (cpu.new ≡ record cpu.old { pc = hl_of cpu.old.registers }) }
{
    let to = cpu.registers.hl();
    if let Some(targets) = regions.targets(cpu.pc) {
        if !is_target(targets, to) {
            return Some(End::JumpOutside(to));
        }
    }
    cpu.pc = to;
    None
}

/// Whether the address is one of the targets, which must ascend.
fn is_target(targets: &[u16], to: u16) -> bool
    requires { AllPairs (λ a b. a < b) targets.now }
    ensures { result ≡ list_any (λ target. target == to) targets.now }
{
    targets.binary_search(&to).is_ok()
}
