//! One step of a run on a board.

ghost use Rattle.std.specs.Prelude.{◌≡◌, Some, IfOk, OnOk, true, [], ◌∷◌, ◌++◌};
ghost use Rattle.decode80.specs.declared.fetching.Fetched.{Fetched};
ghost use Rattle.decode80.specs.declared.instr.Instr.TheVariants.{In, Out};
ghost use Rattle.machine80.specs.Step.{fetch};
ghost use Rattle.machine80_board.specs.BoardRun.{BoardState, refused_end};
ghost use Rattle.machine80_board.specs.Keeping.{AreRight, AreWhole, HaveAnswered, HaveSeen, is_apart, IsNow, IsSame, Turned, addresses_of, answering_cells, outputs_among, IsSameMachine};

use crate::answering::{CellAnswer, answer_cell, note_output, take_answer};
use crate::cells::{Cells, loaded_cells, stored_cells};
use crate::closed_ports::ClosedPorts;
use crate::end::BoardEnd;
use crate::output::Output;
use crate::rules::{Rules, Running};
use board80::Place;
use decode80::{Fetched, Instr, ahead, fetch_reads_code_alone};
use image80::laws::code_data_and_stack_are_apart;
use machine80::{Bus, End, PagedBus, fetch, step};
use std::alloc::{AllocError, Global};

/// Makes one step of a run; returns how the run ends if it ends there, and `None` if it goes on. At an end the processor
/// and the outputs are those before the step. The board's devices must lie in data, and `running` must come from [`start`]
/// and have all its slots.
///
/// # Errors
/// `AllocError` if memory runs out for an output.
pub fn step_on_board(
    alloc: Global,
    rules: &Rules<'_>,
    running: &mut Running,
) -> Result<Option<BoardEnd>, AllocError>
    requires rules { AreRight rules.now }
    requires whole { AreWhole running.old }
    ensures turned { IfOk result (λ ending. (s : BoardState) → IsNow rules.now.lines.now s running.old →
        Turned rules.now.lines.now rules.now.regions.now rules.now.outputs s running.old running.new ending) }
    ensures whole { AreWhole running.new }
{
    let at = running.cpu.pc;
    let Some(found) = fetch(at, &running.bus, rules.regions) else {
        return Ok(Some(BoardEnd::OfMachine(End::Fetch(at))));
    };
    match found.instr {
        Instr::In(port) => Ok(take_input(rules, running, port, found.next)),
        Instr::Out(port) => put_out(rules, running, port, found.next),
        _ => step_among_cells(alloc, rules, running, found),
    }
}

/// Executes IN of a port: what the port answers comes into the accumulator. `next` is the address of the next
/// instruction.
fn take_input(rules: &Rules<'_>, running: &mut Running, port: u8, next: u16) -> Option<BoardEnd>
    requires whole { AreWhole running.old }
    ensures turned { (s : BoardState) (found : Fetched) → IsNow rules.now.lines.now s running.old →
        fetch rules.now.regions.now s.machine.memory s.machine.cpu.pc ≡ Some found → found.instr ≡ In port → found.next ≡ next →
        Turned rules.now.lines.now rules.now.regions.now rules.now.outputs s running.old running.new result }
    ensures whole { AreWhole running.new }
{
    let place = Place::Port(port);
    match take_answer(rules.lines, &mut running.cursors, &running.last, place) {
        Some(byte) => {
            running.cpu.registers.a = byte;
            running.cpu.pc = next;
            None
        }
        None => Some(BoardEnd::OfMachine(End::InputEnd(port))),
    }
}

/// Executes OUT of a port: the accumulator is put out. `next` is the address of the next instruction.
///
/// # Errors
/// `AllocError` if memory runs out for the output.
fn put_out(
    rules: &Rules<'_>,
    running: &mut Running,
    port: u8,
    next: u16,
) -> Result<Option<BoardEnd>, AllocError>
    requires whole { AreWhole running.old }
    ensures turned { IfOk result (λ ending. (s : BoardState) (found : Fetched) → IsNow rules.now.lines.now s running.old →
        fetch rules.now.regions.now s.machine.memory s.machine.cpu.pc ≡ Some found → found.instr ≡ Out port → found.next ≡ next →
        Turned rules.now.lines.now rules.now.regions.now rules.now.outputs s running.old running.new ending) }
    ensures whole { AreWhole running.new }
{
    if running.outputs.len() >= rules.outputs {
        return Ok(Some(BoardEnd::OfMachine(End::OutputRefused(port))));
    }
    let output = Output {
        place: Place::Port(port),
        byte: running.cpu.registers.a,
    };
    take_output(running, output)?;
    running.cpu.pc = next;
    Ok(None)
}

/// Executes an instruction that is neither IN nor OUT: the cells that it loads from answer first, and what it stores at
/// cells of devices is put out.
///
/// # Errors
/// `AllocError` if memory runs out for an output.
fn step_among_cells(
    alloc: Global,
    rules: &Rules<'_>,
    running: &mut Running,
    found: Fetched,
) -> Result<Option<BoardEnd>, AllocError>
    requires rules { AreRight rules.now }
    requires whole { AreWhole running.old }
    requires apart { is_apart found.instr ≡ true }
    ensures turned { IfOk result (λ ending. (s : BoardState) → IsNow rules.now.lines.now s running.old →
        fetch rules.now.regions.now s.machine.memory s.machine.cpu.pc ≡ Some found →
        Turned rules.now.lines.now rules.now.regions.now rules.now.outputs s running.old running.new ending) }
    ensures whole { AreWhole running.new }
{
    fetch_reads_code_alone();
    code_data_and_stack_are_apart();
    let before = running.cpu;
    let loaded = loaded_cells(found.instr, &before.registers);
    if let Err(address) = answer_cells(rules, running, loaded) {
        return Ok(Some(BoardEnd::CellEmpty(address)));
    }
    let mut ports = ClosedPorts { refused: 0 };
    let end = step(
        &mut running.cpu,
        &mut running.bus,
        &mut ports,
        rules.regions,
    );
    if let Some(end) = end {
        return Ok(Some(BoardEnd::OfMachine(end)));
    }
    let stored = stored_cells(found.instr, &before.registers);
    let outputs = outputs_among(alloc, rules, stored, &running.bus)?;
    let room = rules.outputs.saturating_sub(running.outputs.len());
    if let Some(refused) = outputs.get(room) {
        running.cpu = before;
        return Ok(Some(refused_end(refused.place)));
    }
    take_outputs(running, &outputs)?;
    Ok(None)
}

/// The end at a place whose output is refused.
fn refused_end(place: Place) -> BoardEnd
    ensures { result ≡ refused_end place }
{
    match place {
        Place::Port(port) => BoardEnd::OfMachine(End::OutputRefused(port)),
        Place::Cell(address) => BoardEnd::CellRefused(address),
    }
}

/// Lets cells answer: their bytes are put into memory. `Err` is the first that has no byte left.
fn answer_cells(rules: &Rules<'_>, running: &mut Running, cells: Cells) -> Result<(), u16>
    requires whole { AreWhole running.old }
    ensures answers { (s : BoardState) → IsNow rules.now.lines.now s running.old →
        HaveAnswered rules.now.lines.now (answering_cells rules.now.lines.now (addresses_of cells)) s running.old running.new result }
    ensures same { IsSame running.old running.new }
    ensures whole { AreWhole running.new }
{
    match cells {
        Cells::Nowhere => Ok(()),
        Cells::Byte(address) => answer_byte(rules, running, address),
        Cells::Word(address) => answer_word(rules, running, address),
    }
}

/// Lets a cell answer: its byte is put into memory. `Err` is its address if it has no byte left.
fn answer_byte(rules: &Rules<'_>, running: &mut Running, address: u16) -> Result<(), u16>
    requires whole { AreWhole running.old }
    ensures answers { (s : BoardState) → IsNow rules.now.lines.now s running.old →
        HaveAnswered rules.now.lines.now (answering_cells rules.now.lines.now (addresses_of (Cells.Byte address))) s running.old running.new result }
    ensures same { IsSame running.old running.new }
    ensures whole { AreWhole running.new }
{
    match answer_cell(rules.lines, &mut running.cursors, &running.last, address) {
        CellAnswer::Memory => Ok(()),
        CellAnswer::Answer(byte) => {
            running.bus.store(address, byte);
            Ok(())
        }
        CellAnswer::Empty => Err(address),
    }
}

/// Lets a cell and the next one answer: their bytes are put into memory. `Err` is the address of the first that has no
/// byte left.
fn answer_word(rules: &Rules<'_>, running: &mut Running, address: u16) -> Result<(), u16>
    requires whole { AreWhole running.old }
    ensures answers { (s : BoardState) → IsNow rules.now.lines.now s running.old →
        HaveAnswered rules.now.lines.now (answering_cells rules.now.lines.now (addresses_of (Cells.Word address))) s running.old running.new result }
    ensures same { IsSame running.old running.new }
    ensures whole { AreWhole running.new }
{
    answer_byte(rules, running, address)?;
    answer_byte(rules, running, ahead(address, 1))
}

/// What is at those cells that are a device's, as outputs.
///
/// # Errors
/// `AllocError` only if memory runs out.
fn outputs_among(
    alloc: Global,
    rules: &Rules<'_>,
    cells: Cells,
    bus: &PagedBus,
) -> Result<Vec<Output>, AllocError>
    ensures { IfOk result (λ outputs. outputs.items ≡ outputs_among rules.now.lines.now (addresses_of cells) bus.now) }
{
    let mut outputs = Vec::new(alloc);
    match cells {
        Cells::Nowhere => {}
        Cells::Byte(address) => push_output(rules, address, bus, &mut outputs)?,
        Cells::Word(address) => {
            push_output(rules, address, bus, &mut outputs)?;
            push_output(rules, ahead(address, 1), bus, &mut outputs)?;
        }
    }
    Ok(outputs)
}

/// Appends the byte at an address as an output if it is a device's.
fn push_output(
    rules: &Rules<'_>,
    address: u16,
    bus: &PagedBus,
    outputs: &mut Vec<Output>,
) -> Result<(), AllocError>
    ensures { OnOk result (outputs.new.items ≡ outputs.old.items ++ outputs_among rules.now.lines.now (address ∷ []) bus.now) }
{
    if rules.lines.in_device(address) {
        outputs.push(Output {
            place: Place::Cell(address),
            byte: bus.load(address),
        })?;
    }
    Ok(())
}

/// Takes outputs, in order.
fn take_outputs(running: &mut Running, outputs: &[Output]) -> Result<(), AllocError>
    requires whole { AreWhole running.old }
    ensures taken { OnOk result (running.new.outputs.items ≡ running.old.outputs.items ++ outputs.now) }
    ensures seen { OnOk result (HaveSeen running.old.last.items running.old.outputs.items → HaveSeen running.new.last.items running.new.outputs.items) }
    ensures same { IsSameMachine running.old running.new }
    ensures whole { AreWhole running.new }
{
    for output in outputs {
        take_output(running, *output)?;
    }
    Ok(())
}

/// Takes an output.
fn take_output(running: &mut Running, output: Output) -> Result<(), AllocError>
    requires whole { AreWhole running.old }
    ensures taken { OnOk result (running.new.outputs.items ≡ running.old.outputs.items ++ output ∷ []) }
    ensures seen { OnOk result (HaveSeen running.old.last.items running.old.outputs.items → HaveSeen running.new.last.items running.new.outputs.items) }
    ensures same { IsSameMachine running.old running.new }
    ensures whole { AreWhole running.new }
{
    running.outputs.push(output)?;
    note_output(&mut running.last, output);
    Ok(())
}
