//! What is wrong with a bundle, in words.

ghost use Rattle.std.specs.Prelude.{◌≡◌, ◌⊎◌, ◌&&◌, ℕ, nat_le, [], drop, length, slice_index, take};
ghost use Rattle.std.specs.Char.{is_ascii_hexdigit};

use loader80::SessionFault;
use loader80::digits::bytes_of_digits;
use loader80_text::BundleFault;
use plm80_console::{Console, FailureWords, are_digits};
use plm80_files::{
    FLAWS, FileRole, INPUTS_LINE, LineFlaw, explain_flaws, explain_image_as, explain_regions,
};
use std::io::ErrorKind;

/// The line between the regions and the inputs.
const INPUTS: &[u8] = b"INPUTS\n";

/// The words on a bundle whose image goes on behind its first line.
const SEVERAL_LINES: &str = "the hexadecimal is on several lines: write the image on one line";

/// The words on a bundle whose first line isn't of digits alone.
const NO_DIGITS: &str =
    "the first line is the image, in hexadecimal digits alone: xxd -p IMAGE | tr -d '\\n' writes it";

/// Says what is wrong with the bundle that was read and whose fault was reported; `output` is why writing its transcript failed last, if it
/// did.
pub fn explain_bundle<C: Console>(
    console: &C,
    fault: BundleFault,
    text: &[u8],
    output: Option<ErrorKind>,
) {
    match fault {
        BundleFault::Session(SessionFault::Write) => {
            console.explain_any(FailureWords::of_output(output));
        }
        BundleFault::Session(SessionFault::Regions(fault)) => {
            if begins_with_digits(after_line(text)) {
                console.explain(SEVERAL_LINES);
            }
            if after_line(text).starts_with(INPUTS) {
                console.explain("the regions stand between the image and the line INPUTS");
            } else {
                explain_regions(console, after_line(text), fault);
            }
        }
        BundleFault::Session(SessionFault::Inputs(number)) => {
            if !explain_flaws(console, after_inputs_line(text), number, FLAWS) {
                console.explain(INPUTS_LINE);
            }
        }
        BundleFault::BadBundle => explain_form(console, text),
        BundleFault::Session(SessionFault::Image(fault)) if console.explains() => {
            if let Ok(Some(bytes)) = bytes_of_digits(console.alloc(), first_line(text)) {
                explain_image_as(console, &bytes, fault, FileRole::ObjectFile);
            }
        }
        BundleFault::Session(_) => {}
    }
}

/// Says what is wrong with a text that isn't of a bundle's form.
fn explain_form<C: Console>(console: &C, text: &[u8]) {
    if text.is_empty() {
        console.explain("nothing was read: plm80 --help says what a bundle is");
        return;
    }
    let line = first_line(text);
    if are_digits(line.strip_suffix(b"\r").unwrap_or(line)) {
        explain_flaws(console, text, 1, FLAWS);
    } else {
        explain_flaws(console, text, 1, &[LineFlaw::NotAscii, LineFlaw::ControlZ]);
        console.explain(NO_DIGITS);
    }
    if after_inputs_line(text).is_empty() && !text.ends_with(INPUTS) {
        console.explain("there is no line INPUTS, which is that word alone, with LF behind it");
    }
}

/// The first line of a text, without its line feed.
fn first_line(text: &[u8]) -> &[u8]
    ensures { (result.now ≡ text.now) ⊎ ((place : ℕ) × (result.now ≡ take place text.now)) }
{
    match text.iter().position(|byte| *byte == b'\n') {
        Some(place) => &text[..place],
        None => text,
    }
}

/// What follows the first line of a text; empty if no line feed ends it.
fn after_line(text: &[u8]) -> &[u8]
    ensures { (result.now ≡ []) ⊎ ((place : ℕ) × (result.now ≡ drop place text.now)) }
{
    match text.iter().position(|byte| *byte == b'\n') {
        Some(place) => &text[place + 1..],
        None => b"",
    }
}

/// Whether the text begins with two hexadecimal digits.
fn begins_with_digits(text: &[u8]) -> bool
    ensures { result ≡ (nat_le 2 (length text.now) && is_ascii_hexdigit (slice_index text.now 0)
        && is_ascii_hexdigit (slice_index text.now 1)) }
{
    text.len() >= 2 && text[0].is_ascii_hexdigit() && text[1].is_ascii_hexdigit()
}

/// What follows the first line `INPUTS` of a text; empty if there is none.
fn after_inputs_line(text: &[u8]) -> &[u8]
    ensures { (result.now ≡ []) ⊎ ((place : ℕ) × (result.now ≡ drop place text.now)) }
{
    let mut place = 0usize;
    for line in text.split_inclusive(|byte| *byte == b'\n') {
        place = place.saturating_add(line.len());
        if line == INPUTS {
            return match text.get(place..) {
                Some(rest) => rest,
                None => b"",
            };
        }
    }
    b""
}
