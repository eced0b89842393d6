//! What is at the address of a refusal, in words.

ghost use Rattle.std.specs.Prelude.{◌≡◌, ℕ, List, [], true, false, not, find, option_copied, IfNone, IfOk, IfSome};
ghost use Rattle.place80_text.specs.ImagePublics.{HasPublics};
ghost use Rattle.decode80.specs.{Fetch.direct_bytes, Text.text as text_of};
ghost use Rattle.image80.specs.{Range.in_range, Regions.in_data};
ghost use Rattle.verify80.specs.Looking.{code_of};
ghost use Rattle.verify80_flow.specs.Faults.{Holds};
ghost use Rattle.plm80_names.specs.Places.{IsInNoRange, IsPlaceOf, ArePlaceWords, instr_at};

use decode80::{Instr, Pair, decode, direct_bytes, write_text};
use image80::{Image, Range, read_regions};
use image80_file::read_image;
use loader80::{Refusal, vouch};
use place80_text::read_publics;
use plm80_console::{Console, Reported};
use std::alloc::{AllocError, Global};
use std::fmt::{Display, Formatter};
use std::{fmt, str};

/// A range of an image's regions, and the word that begins its line.
#[derive(Clone, Copy)]
struct Place {
    word: &'static str,
    range: Range,
}

/// An address, and the range of an image's regions that has it; `None` if no range does.
#[derive(Clone, Copy)]
struct PlaceWords {
    address: u16,
    place: Option<Place>,
}

impl PlaceWords {
    /// The address, with the range of the image's regions that has it, if one does.
    fn of(image: &Image, address: u16) -> PlaceWords
        ensures { ArePlaceWords image.now.regions address result }
    {
        PlaceWords {
            address,
            place: place_of(image, address),
        }
    }
}

impl Display for PlaceWords {
    fn fmt<W: fmt::Write>(&self, formatter: &mut Formatter<W>) -> fmt::Result {
        let address = self.address;
        match self.place {
            Some(Place { word, range }) => {
                let (first, length) = (range.first, range.length);
                write!(
                    formatter,
                    "{address:04X} is in {word} {first:04X} {length:04X}"
                )
            }
            None => write!(formatter, "{address:04X} is in no range"),
        }
    }
}

/// Prints words on what a command has `given` of the program in the files of these paths, if faults are explained. Of a refusal: what is at
/// its address, and how to go on; `regions` is `None` if the command shows that itself. Then, if `names` are asked for and missing, that
/// they are. The files are read again; if they can't be, or memory runs out, less is said.
pub fn explain_given<C: Console>(
    console: &C,
    given: &Result<u8, Reported>,
    names: bool,
    image: &str,
    regions: Option<&str>,
) {
    if let (Ok(1), Some(regions)) = (given, regions)
        && let Some((image, refusal)) = refused_again(console, image, regions)
    {
        explain_place(console, &image, refusal);
        console.explain(
            "plm80 explain shows the way; docs/FAULTS.md says what to change ('Refusals of the verifier')",
        );
        if is_for_follow(refusal) {
            console.explain("plm80 follow may take the program: it knows each byte of the stack");
        }
    }
    if names && given.is_ok() && has_no_names(console, image) {
        console.explain(format_args!(
            "{image} has no names: locate --publics keeps them (bytes of a PROM have none)"
        ));
    }
}

/// Whether `follow` may take a program with this refusal: one of what it does with the stack, or of a PCHL.
fn is_for_follow(refusal: Refusal) -> bool {
    matches!(
        refusal,
        Refusal::Sphl(_)
            | Refusal::Pchl(_)
            | Refusal::StackByByte(_)
            | Refusal::SetsStack(_)
            | Refusal::ReturnNotOwn(_)
            | Refusal::ReturnFromMain(_)
            | Refusal::HeightsDiffer(_)
    )
}

/// Whether the file of this path is an image that has no names; `false` if that isn't known.
fn has_no_names<C: Console>(console: &C, path: &str) -> bool
    ensures { result ≡ true → (bytes : List ℕ) × HasPublics bytes [] }
{
    let Some(bytes) = console.text_to_explain(path) else {
        return false;
    };
    match read_publics(console.alloc(), &bytes) {
        Ok(publics) => publics.is_empty(),
        Err(_) => false,
    }
}

/// The image of the program in the files of these paths, with its refusal; `None` if it is accepted, or if it can't be read again.
fn refused_again<C: Console>(console: &C, image: &str, regions: &str) -> Option<(Image, Refusal)>
    ensures { IfSome result (λ refused. Holds (code_of refused.0) refused.1) }
{
    let image = image_again(console, image, regions)?;
    match vouch(console.alloc(), image) {
        Ok(_) => None,
        Err(refused) => Some(refused),
    }
}

/// The image in the files of these paths, with its regions; `None` if faults aren't explained, or if it can't be read again.
pub(crate) fn image_again<C: Console>(console: &C, image: &str, regions: &str) -> Option<Image> {
    let bytes = console.text_to_explain(image)?;
    let text = console.text_to_explain(regions)?;
    let regions = read_regions(console.alloc(), &text).ok()?;
    read_image(console.alloc(), &bytes, regions).ok()
}

/// Says what is at the address of this refusal of the image.
fn explain_place<C: Console>(console: &C, image: &Image, refusal: Refusal) {
    match refusal {
        Refusal::FetchOutside(at) if image.regions.in_code(at) => {
            console.explain(format_args!(
                "not all bytes of the instruction at {at:04X} are in CODE"
            ));
        }
        Refusal::FetchOutside(at) => {
            let words = PlaceWords::of(image, at);
            let is_nowhere = words.place.is_none();
            console.explain(words);
            if is_nowhere {
                console.explain("if code of another PROM is there, absolute --rom adds it");
            }
        }
        Refusal::UnusedOpcode(at) => {
            let byte = image.byte(at);
            console.explain(format_args!("{at:04X} has {byte:02X}, no instruction of the 8080"));
        }
        Refusal::StackTooSmall(need, _) => {
            console.explain(format_args!("give STACK so many: locate --stack-size {need:X}"));
        }
        _ => explain_instruction(console, image, refusal),
    }
}

/// Says which instruction is at the address of this refusal of the image, and what is wrong with it; nothing if there is none.
fn explain_instruction<C: Console>(console: &C, image: &Image, refusal: Refusal) {
    let Some(at) = refusal.address() else { return };
    let Some(instr) = instr_at(image, at) else {
        return;
    };
    let Ok(text) = text_of(console.alloc(), instr) else {
        return;
    };
    let Ok(text) = str::from_utf8(&text) else {
        return;
    };
    let top = image.regions.top();
    match refusal {
        Refusal::DirectStore(_) => {
            if let Some(address) = stored_outside(image, instr) {
                console.explain(format_args!("{text}: {}", PlaceWords::of(image, address)));
            }
        }
        Refusal::SetsStack(_) if instr == Instr::Lxi(Pair::Sp, top) => {
            console.explain(format_args!("{text} isn't in the main program"));
        }
        Refusal::SetsStack(_) => {
            console.explain(format_args!("{text}: STACK ends before {top:04X}"));
        }
        Refusal::EnablesInterrupts(_) => {
            console.explain(format_args!("{text}: no HLT in CODE follows it"));
            console.explain(
                "plm80 follow --handler takes programs to which interrupts come, with their handlers",
            );
            console.explain(
                "docs/FIRMWARE.md verifies the rest of such a program ('An EPROM that is refused')",
            );
        }
        Refusal::Pchl(_) => {
            console.explain(format_args!(
                "{text}: no CASE line has its targets; plm80 cases may see them"
            ));
        }
        _ => console.explain(format_args!("{text} is at {at:04X}")),
    }
}

/// The instruction that the image's bytes spell at an address; `None` if its opcode is unused.
fn instr_at(image: &Image, at: u16) -> Option<Instr>
    ensures { result ≡ instr_at image.now at }
{
    let bytes = [
        image.byte(at),
        image.byte(at.wrapping_add(1)),
        image.byte(at.wrapping_add(2)),
    ];
    let (instr, _) = decode(bytes)?;
    Some(instr)
}

/// The text of an instruction, as the assembler takes it. `AllocError` only if memory runs out.
fn text_of(alloc: Global, instr: Instr) -> Result<Vec<u8>, AllocError>
    ensures { IfOk result (λ made. made.items ≡ text_of instr) }
{
    let mut text = Vec::new(alloc);
    write_text(alloc, instr, &mut text)?;
    Ok(text)
}

/// The first address outside DATA that an instruction names to store to; `None` if it names none.
fn stored_outside(image: &Image, instr: Instr) -> Option<u16>
    ensures { result ≡ find (λ address. not (in_data image.now.regions address)) (direct_bytes instr) }
{
    let [first, second] = direct_bytes(instr);
    match first {
        Some(address) if !image.regions.in_data(address) => Some(address),
        _ => second.filter(|address| !image.regions.in_data(*address)),
    }
}

/// The range of the image's regions that has an address, with its word: of code, of data or the stack; `None` if none has it.
fn place_of(image: &Image, address: u16) -> Option<Place>
    ensures some { IfSome result (IsPlaceOf image.now.regions address) }
    ensures none { IfNone result (IsInNoRange image.now.regions address) }
{
    if let Some(range) = range_of(image.regions.code(), address) {
        return Some(Place {
            word: "CODE",
            range: *range,
        });
    }
    if let Some(range) = range_of(image.regions.data_ranges(), address) {
        return Some(Place {
            word: "DATA",
            range: *range,
        });
    }
    let range = image.regions.stack();
    if range.contains(address) {
        Some(Place {
            word: "STACK",
            range,
        })
    } else {
        None
    }
}

/// The first of these ranges that has an address; `None` if none has it.
fn range_of(ranges: &[Range], address: u16) -> Option<&Range>
    ensures { option_copied result ≡ find (λ range. in_range range address) ranges.now }
{
    ranges.iter().find(|range| range.contains(address))
}
