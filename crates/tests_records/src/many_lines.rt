//! Texts of regions with more than 255, 1,000 and 65,000 lines. Those of many cases are rows of the program's tests.

use image80::{read_regions, write_regions};
use std::alloc::{AllocError, Global};
use std::test::Fail;

/// Appends `count` ranges of data of one byte each, from 0000 on.
fn push_data(alloc: Global, count: u32, text: &mut String) -> Result<(), AllocError> {
    for first in 0..count {
        text.push_str(format!(in alloc; "DATA {first:04X} 0001\n")?.as_str())?;
    }
    Ok(())
}

/// Whether the regions of a text are written as the same text.
fn is_written_as_read(alloc: Global, text: &[u8]) -> Result<bool, Fail> {
    let regions = read_regions(alloc, text)?;
    let mut out = Vec::new(alloc);
    write_regions(alloc, &regions, &mut out)?;
    Ok(out.as_slice() == text)
}

/// Whether regions with `count` ranges of data of one byte each, from 0000 on, are written as they
/// are read.
fn ranges_are_written(alloc: Global, count: u32) -> Result<bool, Fail> {
    let mut text = format!(in alloc; "REGIONS 1\nSTACK FF00 0100\n")?;
    push_data(alloc, count, &mut text)?;
    is_written_as_read(alloc, text.as_bytes())
}

#[test]
fn regions_of_many_ranges_are_written(rt: HostRuntime) -> Result<(), Fail> {
    for count in [257, 1001, 65_280] {
        assert!(rt; ranges_are_written(rt.alloc(), count)?, "{count} ranges");
    }
    Ok(())
}
