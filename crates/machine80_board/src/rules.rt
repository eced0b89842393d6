//! What a run on a board goes by, and how far it has come.

use crate::cursor::Cursor;
use crate::indexed_lines::IndexedLines;
use crate::output::Output;
use image80::Regions;
use machine80::{Cpu, PagedBus};

/// What a run goes by.
#[derive(Drop)]
pub struct Rules<'a> {
    /// The lines of the board.
    pub lines: &'a IndexedLines<'a>,
    /// The regions of the image.
    pub regions: &'a Regions,
    /// The greatest number of outputs.
    pub outputs: usize,
}

/// How far a run has come.
#[derive(Drop)]
pub struct Running {
    /// The processor.
    pub cpu: Cpu,
    /// The memory.
    pub bus: PagedBus,
    /// How far the list of each place was given, by slots.
    pub cursors: Vec<Cursor>,
    /// The last byte at each place, by slots.
    pub last: Vec<Option<u8>>,
    /// What was put out.
    pub outputs: Vec<Output>,
}
