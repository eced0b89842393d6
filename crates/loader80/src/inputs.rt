//! The text that spells the inputs of a run.
ghost use Rattle.std.specs.Prelude.{◌≡◌, ◌+◌, ◌++◌, None, IfOk, IfErr, OnOk};
ghost use Rattle.std.specs.Option.{option_map};
ghost use Rattle.loader80.specs.InputsText.{InputsFaultHolds, bad_line, inputs_fault_code, inputs_of, line_input, pairs_of};

use crate::digits::bytes_of_digits;
use image80::lines::first_line;
use machine80::Inputs;
use std::alloc::{AllocError, Global};
use thiserror::Error;

/// Why a text spells no inputs.
#[derive(Clone, Copy, Debug, PartialEq, Eq, Error)]
pub enum InputsFault {
    /// The number of the first line, counted from 1, that isn't `pp hh..`, or that has no line
    /// feed at its end.
    #[error("BadLine {0}")]
    BadLine(usize),
    /// Out of memory for the inputs.
    #[error("Memory")]
    Memory,
}

impl InputsFault {
    /// The fault's number: 1 BadLine, 2 Memory.
    pub fn code(&self) -> u8
        ensures { result ≡ inputs_fault_code self.now }
    {
        match self {
            InputsFault::BadLine(_) => 1,
            InputsFault::Memory => 2,
        }
    }
}

impl From<AllocError> for InputsFault {
    ghost use Rattle.loader80.specs.declared.inputs.InputsFault.TheVariants.{Memory};

    ghost from_gives = { λ _ fault. fault ≡ Memory };

    /// The fault `Memory`.
    fn from(_: AllocError) -> InputsFault {
        InputsFault::Memory
    }
}

/// Reads the inputs of a run from lines `pp hh..`: a port in two hexadecimal digits, one space, and the bytes that
/// wait there, at least one, each in two digits. Digits are of either case. The bytes of one port wait in the order
/// of its lines, and an empty text means no input.
///
/// # Errors
/// `BadLine` with the number of the first line of another form, counted from 1; the last line too must end in LF.
/// `Memory` if memory runs out.
pub fn read_inputs(alloc: Global, bytes: &[u8]) -> Result<Inputs, InputsFault>
    ensures lines { OnOk result (bad_line bytes.now ≡ None) }
    ensures pairs { IfOk result (λ inputs. inputs.pairs.items ≡ inputs_of bytes.now) }
    ensures fault { IfErr result (InputsFaultHolds bytes.now) }
{
    let mut pairs = Vec::new(alloc);
    let mut rest = bytes;
    let mut number = 1;
    while let Some((line, others)) = first_line(rest) {
        let Some(input) = read_line(alloc, line)? else {
            return Err(InputsFault::BadLine(number));
        };
        input.append_to(&mut pairs)?;
        number += 1;
        rest = others;
    }
    if rest.is_empty() {
        Ok(Inputs { pairs })
    } else {
        Err(InputsFault::BadLine(number))
    }
}

/// A line of inputs: a port and the bytes that wait there.
#[derive(Drop)]
struct LineInput {
    /// The port.
    port: u8,
    /// The bytes, in the order in which they wait.
    bytes: Vec<u8>,
}

impl LineInput {
    /// Appends the port and the byte of each of the line's bytes to the list.
    fn append_to(&self, pairs: &mut Vec<(u8, u8)>) -> Result<(), AllocError>
        ensures { OnOk result (pairs.new.items ≡ pairs.old.items ++ pairs_of self.now.port self.now.bytes.items) }
    {
        for byte in &self.bytes {
            pairs.push((self.port, *byte))?;
        }
        Ok(())
    }
}

/// Reads a line of inputs, given without its line feed; `None` if it isn't `pp hh..`.
fn read_line(alloc: Global, line: &[u8]) -> Result<Option<LineInput>, AllocError>
    ensures { IfOk result (λ input. option_map (λ i. pairs_of i.port i.bytes.items) input ≡ line_input line.now) }
{
    if line.len() < 3 || line[2] != b' ' {
        return Ok(None);
    }
    let Some(port) = bytes_of_digits(alloc, &line[..2])? else {
        return Ok(None);
    };
    let Some(bytes) = bytes_of_digits(alloc, &line[3..])? else {
        return Ok(None);
    };
    if port.len() != 1 || bytes.is_empty() {
        return Ok(None);
    }
    let port = port[0];
    Ok(Some(LineInput { port, bytes }))
}
