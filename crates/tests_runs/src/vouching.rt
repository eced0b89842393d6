//! The program that pushes an argument is verified, vouched for, and run. Its rows, its calls and its transcript, from a run over a
//! memory in pages, are in the program's tests, as are other programs.

use crate::pushing::{IMAGE, REGIONS};
use image80::{Image, read_regions};
use image80_file::read_image;
use loader80::{ProcRow, Vouched, read_inputs, run, vouch};
use machine80::{End, FlatBus, ListPorts, Ports};
use std::alloc::Global;
use std::process::Abort;
use std::test::Fail;
use verify80::{find_reached, verify};
use verify80_stores::find_stores;

/// The row of the program's one procedure.
#[rattlefmt::skip]
static ROWS: [ProcRow; 1] = [
    ProcRow { entry: 0x300B, takes: 1, wants: 1, bound: 0, returns: true },
];

/// The image of the program that pushes an argument.
fn image(alloc: Global) -> Result<Image, Fail> {
    let regions = read_regions(alloc, REGIONS)?;
    match read_image(alloc, &IMAGE, regions) {
        Ok(image) => Ok(image),
        Err((_, fault)) => Err(fault.into()),
    }
}

/// Asserts what the report of the image has.
fn check_report(rt: &(impl Abort + AllocGlobal), image: &Image) -> Result<(), Fail> {
    let report = verify(rt.alloc(), &image)?;
    assert_eq!(rt; report.stack_bytes, 4);
    assert_eq!(rt; report.procedures.len(), 1);
    Ok(())
}

#[test]
fn an_image_is_verified(rt: HostRuntime) -> Result<(), Fail> {
    let image = image(rt.alloc())?;
    check_report(&rt, &image)
}

/// Asserts which addresses the vouched program reaches: its procedure, and not what follows it.
fn check_addresses(rt: &(impl Abort + AllocGlobal), vouched: &Vouched) -> Result<(), Fail> {
    let reached = find_reached(rt.alloc(), &vouched)?;
    assert!(rt; reached.at(0x300B).is_some());
    assert!(rt; reached.at(0x3012).is_none());
    Ok(())
}

/// Asserts that the vouched program has no stores that may leave data.
fn check_stores(rt: &(impl Abort + AllocGlobal), vouched: &Vouched) -> Result<(), Fail> {
    let stores = find_stores(rt.alloc(), &vouched, &[])?;
    assert!(rt; stores.addresses.is_empty());
    assert!(rt; stores.open.is_empty());
    Ok(())
}

/// Whether the ports have the argument as output, and both input bytes.
fn have_argument_and_inputs(ports: &mut ListPorts) -> bool {
    ports.outputs() == [(0x01, 0x05)].as_slice()
        && ports.take(0x02) == Some(0x41)
        && ports.take(0x02) == Some(0xFF)
}

/// Runs the vouched program: it outputs the argument. It takes no input, so both bytes are left.
fn check_run(rt: &(impl Abort + AllocGlobal), vouched: &Vouched) -> Result<(), Fail> {
    let inputs = read_inputs(rt.alloc(), b"02 41FF\n")?;
    let mut bus = FlatBus::new(rt.alloc(), vouched.image())?;
    let mut ports = ListPorts::new(rt.alloc(), inputs, 65_536);
    let ended = run(&vouched, &mut bus, &mut ports, 1_000_000);
    assert_eq!(rt; ended.end, Some(End::Halt));
    assert_eq!(rt; ended.steps, 11);
    assert!(rt; ended.cpu.pc() == 0x300A && have_argument_and_inputs(&mut ports));
    Ok(())
}

/// Asserts what is known of the vouched program, and runs it.
fn check_program(rt: &(impl Abort + AllocGlobal), vouched: &Vouched) -> Result<(), Fail> {
    assert!(rt; vouched.rows() == ROWS.as_slice());
    check_addresses(rt, vouched)?;
    check_stores(rt, vouched)?;
    check_run(rt, vouched)
}

#[test]
fn an_image_is_vouched_for_and_run(rt: HostRuntime) -> Result<(), Fail> {
    let image = image(rt.alloc())?;
    let vouched = match vouch(rt.alloc(), image) {
        Ok(vouched) => vouched,
        Err((_image, refusal)) => return Err(refusal.into()),
    };
    assert_eq!(rt; vouched.stack_bytes(), 4);
    check_program(&rt, &vouched)
}
