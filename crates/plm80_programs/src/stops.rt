//! Where a search for a table that follows a program stops: its line, and words on it.

ghost use Rattle.std.specs.Prelude.{◌≡◌, IfOk};
ghost use Rattle.plm80_programs.specs.Following.{reason_words, stopped_line};

use image80::Image;
use plm80_console::Console;
use std::alloc::{AllocError, Global};
use text80::word_digits;
use verify80_follow_search::{Stop, StopReason};

/// A stop at the image's start, to which no way is shown.
pub(crate) fn stop_at(alloc: Global, image: &Image, reason: StopReason) -> Stop {
    Stop {
        at: image.start,
        reason,
        way: Vec::new(alloc),
    }
}

/// The line of where a search stopped, and why.
pub(crate) fn stopped_text(alloc: Global, stop: &Stop) -> Result<Vec<u8>, AllocError>
    ensures { IfOk result (λ text. text.items ≡ stopped_line stop.now.at stop.now.reason) }
{
    let mut text = Vec::new(alloc);
    text.extend_from_slice(b"STOPPED ".as_slice())?;
    text.extend_from_slice(&word_digits(stop.at))?;
    text.push(b' ')?;
    text.extend_from_slice(reason_words(stop.reason))?;
    text.push(b'\n')?;
    Ok(text)
}

/// Why a search stopped, as its line says it.
fn reason_words(reason: StopReason) -> &'static [u8]
    ensures { result.now ≡ reason_words reason }
{
    match reason {
        StopReason::FetchOutside => b"FETCH OUTSIDE",
        StopReason::UnusedOpcode => b"UNUSED OPCODE",
        StopReason::EnablesInterrupts => b"INTERRUPTS ENABLED",
        StopReason::DirectStore => b"STORE OUTSIDE",
        StopReason::StackNotSet => b"SP NOT SET",
        StopReason::LeavesStack => b"STACK LEFT",
        StopReason::UnknownReturn => b"RETURN UNKNOWN",
        StopReason::UnknownJump => b"JUMP UNKNOWN",
        StopReason::UnknownPointer => b"SP UNKNOWN",
        StopReason::NotGivenBack => b"NOT GIVEN BACK",
        StopReason::EnablesEarly => b"ENABLED EARLY",
        StopReason::UsesPointer => b"SP USED",
        StopReason::StoresQuiet => b"QUIET STORED",
        StopReason::NoRoom => b"NO ROOM",
        StopReason::TooManyStates => b"TOO MANY STATES",
        StopReason::Unfit => b"UNFIT",
    }
}

/// Says of where a search stopped what that means, and names a way there, if it did and words are asked for.
pub(crate) fn explain_stop<C: Console>(console: &C, stop: &Option<Stop>) {
    if let Some(stop) = stop {
        console.explain(format_args!("{stop}"));
        console.explain(format_args!(
            "that is advice: it doesn't say that the program goes wrong there"
        ));
    }
}
