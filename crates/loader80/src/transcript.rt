//! What is printed of a run, and of an image that is refused.
ghost use Rattle.std.specs.Prelude.{◌≡◌, ◌++◌, IfOk, OnOk, string_bytes};
ghost use Rattle.std.specs.List.{flat_map};
ghost use Rattle.text80.specs.Digits.{byte_text, word_text};
ghost use Rattle.loader80.specs.TranscriptText.{after_steps, end_line, output_line, refusal_line, stack_line, transcript};

use crate::digits::{ByteDigits, WordDigits};
use machine80::End;
use std::alloc::{AllocError, Global};
use std::fmt::Write;
use verify80::Refusal;

/// The transcript of a run: `STACK n` with the bytes of stack, a line `OUT pp bb` for each output, and a last line that
/// says how the run ended (`end`; `None` if its steps were used up) and after how many steps. After a halt it also has
/// the program counter (`at`), after other ends the port or the address that `end` has. For an end that a vouched image
/// never has there is no last line.
///
/// # Errors
/// `AllocError` only if memory runs out.
pub fn transcript_text(
    alloc: Global,
    stack_bytes: u64,
    outputs: &[(u8, u8)],
    end: Option<End>,
    at: u16,
    steps: u64,
) -> Result<String, AllocError>
    ensures { IfOk result (λ text. string_bytes text ≡ transcript stack_bytes outputs.now «end» at steps) }
{
    let mut text = front_text(alloc, stack_bytes, outputs)?;
    append_end(&mut text, end, at, steps)?;
    Ok(text)
}

/// The transcript of a run but for its last line: `STACK n` with the bytes of stack, and a line `OUT pp bb` for each
/// output.
///
/// # Errors
/// `AllocError` only if memory runs out.
pub fn front_text(
    alloc: Global,
    stack_bytes: u64,
    outputs: &[(u8, u8)],
) -> Result<String, AllocError>
    ensures { IfOk result (λ text. string_bytes text ≡ stack_line stack_bytes ++ flat_map output_line outputs.now) }
{
    let mut text = String::new(alloc);
    writeln!(text, "STACK {stack_bytes}")?;
    for output in outputs {
        append_output(&mut text, *output)?;
    }
    Ok(text)
}

/// The last line of a transcript: how the run ended, such as `HALT 3012 AFTER 11`, or `STEPS AFTER 11` if the steps
/// were used up. `at` is the program counter, and `steps` the number of steps that were made. The text is empty for
/// an end that a vouched image never has.
///
/// # Errors
/// `AllocError` only if memory runs out.
pub fn ending_text(
    alloc: Global,
    end: Option<End>,
    at: u16,
    steps: u64,
) -> Result<String, AllocError>
    ensures { IfOk result (λ text. string_bytes text ≡ end_line «end» at steps) }
{
    let mut text = String::new(alloc);
    append_end(&mut text, end, at, steps)?;
    Ok(text)
}

/// Appends the line of an output, a port and a byte, as `OUT 01 2A`.
fn append_output(text: &mut String, output: (u8, u8)) -> Result<(), AllocError>
    ensures { OnOk result (string_bytes text.new ≡ string_bytes text.old ++ output_line output) }
{
    let (port, byte) = output;
    writeln!(text, "OUT {} {}", ByteDigits(port), ByteDigits(byte))
}

/// Appends the last line of a transcript: how the run ended, with the program counter `at` and the number of steps;
/// nothing for an end that a vouched image never has.
fn append_end(text: &mut String, end: Option<End>, at: u16, steps: u64) -> Result<(), AllocError>
    ensures { OnOk result (string_bytes text.new ≡ string_bytes text.old ++ end_line «end» at steps) }
{
    match end {
        None => writeln!(text, "STEPS AFTER {steps}"),
        Some(End::Halt) => append_word(text, "HALT ", at, steps),
        Some(End::InputEnd(port)) => append_byte(text, "INPUT ", port, steps),
        Some(End::OutputRefused(port)) => append_byte(text, "OUTPUT ", port, steps),
        Some(End::StoreOutside(address)) => append_word(text, "STORE ", address, steps),
        Some(End::JumpOutside(address)) => append_word(text, "JUMP ", address, steps),
        Some(End::Fetch(_) | End::Stack(_) | End::Direct(_)) => Ok(()),
    }
}

/// Appends the line of an end: its name, a word in four hexadecimal digits, and `AFTER` with the number of steps.
fn append_word(text: &mut String, name: &str, word: u16, steps: u64) -> Result<(), AllocError>
    ensures { OnOk result (string_bytes text.new ≡ string_bytes text.old ++ (name.now ++ (word_text word ++ after_steps steps))) }
{
    writeln!(text, "{name}{} AFTER {steps}", WordDigits(word))
}

/// Appends the line of an end: its name, a byte in two hexadecimal digits, and `AFTER` with the number of steps.
fn append_byte(text: &mut String, name: &str, byte: u8, steps: u64) -> Result<(), AllocError>
    ensures { OnOk result (string_bytes text.new ≡ string_bytes text.old ++ (name.now ++ (byte_text byte ++ after_steps steps))) }
{
    writeln!(text, "{name}{} AFTER {steps}", ByteDigits(byte))
}

/// The line for an image that is refused, with the refusal's number and name: `REFUSED n Name AT aaaa` if it has an
/// address, `REFUSED n Name need has` for a stack that is too small, and otherwise `REFUSED n Name`.
///
/// # Errors
/// `AllocError` only if memory runs out.
pub fn refusal_text(alloc: Global, refusal: Refusal) -> Result<String, AllocError>
    ensures { IfOk result (λ text. string_bytes text ≡ refusal_line refusal) }
{
    let (code, name) = (refusal.code(), refusal.name());
    match (refusal.address(), refusal) {
        (Some(at), _) => format!(in alloc; "REFUSED {code} {name} AT {}\n", WordDigits(at)),
        (None, Refusal::StackTooSmall(need, has)) => {
            format!(in alloc; "REFUSED {code} {name} {need} {has}\n")
        }
        (None, _) => format!(in alloc; "REFUSED {code} {name}\n"),
    }
}
