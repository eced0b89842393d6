//! A quick step does what the step does: both are made from the same states, and must end in the
//! same. The quick steps go over a memory in pages.

use crate::memory::{empty_memory, empty_pages};
use decode80::length_of;
use image80::{RegionMap, Regions, read_regions};
use machine80::{Bus, Cpu, Flags, FlatBus, Inputs, ListPorts, PagedBus, Ports, Registers, step};
use machine80_quick::quick_step;
use std::alloc::{AllocError, Global};
use std::process::Abort;
use std::test::Fail;

/// Code up to FFFF, and room for all data and stack that the states point to.
const REGIONS: &[u8] = b"REGIONS 1\nCODE F000 1000\nDATA 0000 8000\nSTACK 8000 1000\n";

/// Values of registers A, B, C, D, E, H and L.
type Set = (u8, u8, u8, u8, u8, u8, u8);

/// Register values before a step. The pairs point to data, but for BC, DE and HL of the last set.
static SETS: [Set; 4] = [
    (0x00, 0x20, 0x01, 0x7F, 0xFF, 0x12, 0x34),
    (0x9A, 0x00, 0xFF, 0x10, 0x00, 0x7F, 0xFE),
    (0xFF, 0x7F, 0x80, 0x01, 0x0F, 0x00, 0x00),
    (0x01, 0xFF, 0xFF, 0x80, 0x00, 0xF0, 0x10),
];

/// Flag bytes before a step: no flag, each alone, CY with AC, all.
static FLAGS: [u8; 8] = [0x00, 0x01, 0x04, 0x10, 0x40, 0x80, 0x11, 0xD5];

/// Two memories with the same bytes, one for each kind of step.
#[derive(Drop)]
struct Memories {
    /// The memory in one piece, for the step.
    slow: FlatBus,
    /// The memory in pages, for the quick step.
    quick: PagedBus,
}

/// Two memories that hold 00 everywhere.
fn make_memories(alloc: Global) -> Result<Memories, Fail> {
    let slow = empty_memory(alloc)?;
    let quick = empty_pages(alloc)?;
    Ok(Memories { slow, quick })
}

/// One input byte at port 34 if `kind` is even, else none.
fn inputs(alloc: Global, kind: usize) -> Result<Inputs, AllocError> {
    let mut pairs = Vec::new(alloc);
    if kind % 2 == 0 {
        pairs.push((0x34, 0x56))?;
    }
    Ok(Inputs { pairs })
}

/// Whether both memories have the same byte at each address.
fn have_same_bytes(left: &FlatBus, right: &PagedBus) -> bool {
    for address in 0..=u16::MAX {
        if left.load(address) != right.load(address) {
            return false;
        }
    }
    true
}

/// The state before a step: these registers and flags, and this program counter.
fn state_before(set: Set, flags: u8, pc: u16) -> Cpu {
    let (a, b, c, d, e, h, l) = set;
    Cpu {
        registers: Registers {
            a,
            b,
            c,
            d,
            e,
            h,
            l,
            flags: Flags::from_byte(flags),
        },
        sp: 0x8100,
        pc,
    }
}

/// Writes an opcode to an address, and the operand 1234 after it.
fn put_instruction<B: Bus>(bus: &mut B, opcode: u8, pc: u16) {
    bus.store(pc, opcode);
    bus.store(pc.wrapping_add(1), 0x34);
    bus.store(pc.wrapping_add(2), 0x12);
}

/// Whether both steps from a state reach the same end, registers, outputs and inputs. There is an
/// input byte at port 34 if `kind` is even, and room for one output if half of it is odd.
fn steps_agree(
    alloc: Global,
    memories: &mut Memories,
    regions: &Regions,
    map: &RegionMap,
    before: Cpu,
    kind: usize,
) -> Result<bool, AllocError> {
    let (left, right) = (inputs(alloc, kind)?, inputs(alloc, kind)?);
    let (mut cpu, mut quick) = (before, before);
    let mut ports = ListPorts::new(alloc, left, kind / 2 % 2);
    let mut quick_ports = ListPorts::new(alloc, right, kind / 2 % 2);
    let end = step(&mut cpu, &mut memories.slow, &mut ports, regions);
    let quick_end = quick_step(
        &mut quick,
        &mut memories.quick,
        &mut quick_ports,
        regions,
        map,
    );
    Ok(
        end == quick_end
            && cpu == quick
            && ports.outputs() == quick_ports.outputs()
            && ports.take(0x34) == quick_ports.take(0x34),
    )
}

/// Whether both steps of an opcode at `pc` agree in each state, and leave the same memory.
fn steps_agree_in_each_state(
    alloc: Global,
    memories: &mut Memories,
    regions: &Regions,
    map: &RegionMap,
    opcode: u8,
    pc: u16,
) -> Result<bool, AllocError> {
    for set in &SETS {
        for (kind, flags) in FLAGS.iter().enumerate() {
            put_instruction(&mut memories.slow, opcode, pc);
            put_instruction(&mut memories.quick, opcode, pc);
            if !steps_agree(
                alloc,
                memories,
                regions,
                map,
                state_before(*set, *flags, pc),
                kind,
            )? {
                return Ok(false);
            }
        }
    }
    Ok(have_same_bytes(&memories.slow, &memories.quick))
}

/// Asserts that both steps agree for every first byte, unused ones too, in the midst of the code
/// and at the end of memory.
fn compare_each_first_byte(
    rt: &impl Abort,
    alloc: Global,
    memories: &mut Memories,
    regions: &Regions,
    map: &RegionMap,
) -> Result<(), Fail> {
    for opcode in 0..=255u8 {
        let length = length_of(opcode).unwrap_or(1);
        for pc in [0xF100, (65536 - length) as u16] {
            let agree = steps_agree_in_each_state(alloc, memories, regions, map, opcode, pc)?;
            assert!(rt; agree, "{opcode} at {pc}");
        }
    }
    Ok(())
}

/// Asserts that both steps agree, in new memories, for every first byte.
fn compare_in_new_memories(
    rt: &impl Abort,
    alloc: Global,
    regions: &Regions,
    map: &RegionMap,
) -> Result<(), Fail> {
    let mut memories = make_memories(alloc)?;
    compare_each_first_byte(rt, alloc, &mut memories, regions, map)
}

#[test]
fn quick_steps_agree_for_every_first_byte(rt: HostRuntime) -> Result<(), Fail> {
    let regions = read_regions(rt.alloc(), REGIONS)?;
    let map = RegionMap::new(rt.alloc(), &regions)?;
    compare_in_new_memories(&rt, rt.alloc(), &regions, &map)
}
