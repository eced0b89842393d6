//! Programs with their ends, and ports that are lists.

use crate::memory::{empty_memory, empty_pages};
use image80::{Regions, read_regions};
use machine80::{Bus, Cpu, End, Inputs, ListPorts, PortRefused, Ports, step};
use std::alloc::{AllocError, Global};
use std::test::Fail;

mod programs;

use programs::{PROGRAMS, Program};

/// Inputs without a byte.
fn no_inputs(alloc: Global) -> Inputs {
    Inputs {
        pairs: Vec::new(alloc),
    }
}

/// Writes a program's bytes, from its start on.
fn write_program<B: Bus>(program: &Program, bus: &mut B) {
    let mut address = program.start;
    for byte in program.bytes {
        bus.store(address, *byte);
        address = address.wrapping_add(1);
    }
}

/// Executes a program for at most ten steps: its end, the steps that were made, and the processor
/// then.
fn run_ten_steps<B: Bus>(
    program: &Program,
    bus: &mut B,
    ports: &mut ListPorts,
    regions: &Regions,
) -> (Option<End>, u64, Cpu) {
    let mut cpu = Cpu::start(program.start, regions);
    let (mut end, mut steps) = (None, 0);
    for made in 1..=10 {
        if end.is_some() || ports.refusals() > 0 {
            break;
        }
        end = step(&mut cpu, bus, ports, regions);
        steps = made;
    }
    (end, steps, cpu)
}

/// Whether a program runs as it is listed, in a memory that holds 00 everywhere else.
fn runs_as_listed<B: Bus>(alloc: Global, program: &Program, bus: &mut B) -> Result<bool, Fail> {
    let regions = read_regions(alloc, program.regions)?;
    write_program(program, bus);
    let mut ports = ListPorts::new(alloc, no_inputs(alloc), 0);
    let (end, steps, cpu) = run_ten_steps(program, bus, &mut ports, &regions);
    Ok((end, steps, cpu.pc(), cpu.sp()) == program.ends)
}

/// Whether a program runs as it is listed in a memory in one piece.
fn runs_in_one_piece(alloc: Global, program: &Program) -> Result<bool, Fail> {
    let mut memory = empty_memory(alloc)?;
    runs_as_listed(alloc, program, &mut memory)
}

/// Whether a program runs as it is listed in a memory in pages.
fn runs_in_pages(alloc: Global, program: &Program) -> Result<bool, Fail> {
    let mut pages = empty_pages(alloc)?;
    runs_as_listed(alloc, program, &mut pages)
}

/// Whether a program runs as it is listed in a memory in one piece, and in one in pages.
fn runs_as_listed_in_each_memory(alloc: Global, program: &Program) -> Result<bool, Fail> {
    Ok(runs_in_one_piece(alloc, program)? && runs_in_pages(alloc, program)?)
}

#[test]
fn programs_run_as_listed(rt: HostRuntime) -> Result<(), Fail> {
    for program in &PROGRAMS {
        assert!(rt;
            runs_as_listed_in_each_memory(rt.alloc(), program)?,
            "{}",
            program.title
        );
    }
    Ok(())
}

/// Whether of two outputs one is kept, and the other is refused and counted.
fn refuse_second_output(ports: &mut ListPorts) -> Result<bool, Fail> {
    if ports.refusals() > 0 {
        return Ok(false);
    }
    if ports.give(0xFF, 0x41).is_err() {
        return Err("no memory for an output".into());
    }
    if ports.refusals() > 0 {
        return Ok(false);
    }
    let refused = ports.give(0x01, 0x42) == Err(PortRefused) && ports.refusals() == 1;
    Ok(refused && ports.outputs() == [(0xFF, 0x41)].as_slice())
}

/// Whether ports that keep one output refuse the second.
fn keep_one_output(alloc: Global) -> Result<bool, Fail> {
    let mut ports = ListPorts::new(alloc, no_inputs(alloc), 1);
    refuse_second_output(&mut ports)
}

#[test]
fn an_output_past_the_limit_is_refused(rt: HostRuntime) -> Result<(), Fail> {
    assert!(rt; keep_one_output(rt.alloc())?);
    Ok(())
}

/// A million input bytes, in turn for ports 00 and 01.
fn a_million_inputs(alloc: Global) -> Result<ListPorts, AllocError> {
    let mut pairs = Vec::with_capacity(alloc, 1_000_000)?;
    for number in 0..1_000_000u32 {
        pairs.push(((number % 2) as u8, (number / 2 % 256) as u8))?;
    }
    Ok(ListPorts::new(alloc, Inputs { pairs }, 0))
}

/// Whether a port gives its half of the million bytes in order, and then none.
fn gives_its_half(ports: &mut ListPorts, port: u8) -> bool {
    for number in 0..500_000u32 {
        if ports.take(port) != Some((number % 256) as u8) {
            return false;
        }
    }
    ports.take(port).is_none()
}

/// Whether each of two ports gives its half of a million inputs, and a third none.
fn gives_inputs(alloc: Global) -> Result<bool, AllocError> {
    let mut ports = a_million_inputs(alloc)?;
    let gives = gives_its_half(&mut ports, 0x01) && gives_its_half(&mut ports, 0x00);
    Ok(gives && ports.take(0x02).is_none())
}

/// Each port is emptied alone and in order, in a time that grows with the number of its bytes.
#[test]
fn each_port_gives_its_half_of_a_million_inputs(rt: HostRuntime) -> Result<(), Fail> {
    assert!(rt; gives_inputs(rt.alloc())?);
    Ok(())
}
