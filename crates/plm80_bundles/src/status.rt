//! The exit status of a run, and words on how it ended.

ghost use Rattle.std.specs.Prelude.{◌≡◌};
ghost use Rattle.plm80_bundles.specs.Status.{end_status, end_words};

use machine80::End;
use thiserror::Error;

/// The exit status of a run that ended in the way `end`; `None` means that its steps were used up.
pub fn status_of(end: Option<End>) -> u8
    ensures { result ≡ end_status «end» }
{
    match end {
        Some(End::Halt) => 0,
        Some(_) => 3,
        None => 4,
    }
}

/// Words on a run that ended otherwise than by HLT: the address of the instruction at a port, a store or a PCHL, which the run's last line
/// doesn't have; or how to take more steps.
#[derive(Clone, Copy, Debug, Error)]
pub enum EndWords {
    #[error("the IN at {at:04X} finds no byte at port {port:02X}: INPUTS has none left for it")]
    NoInput { at: u16, port: u8 },
    #[error("the OUT at {at:04X} to port {port:02X} is one more than --outputs allows")]
    OutputRefused { at: u16, port: u8 },
    #[error("the store at {at:04X} isn't to DATA: its pointer is wrong (run --last 5 shows the way), or a DATA line is missing")]
    StoreOutside { at: u16 },
    #[error("the PCHL at {at:04X} goes to no target of its CASE line: that lacks it, or the address is wrong")]
    JumpOutside { at: u16 },
    #[error("its steps are used up: plm80 run takes more with --steps, and shows the last ones with --last")]
    StepsUsed,
}

impl EndWords {
    /// Words on a run that ended in the way `end`; `None` if nothing is to be said of that. The program counter before the step that ended it was
    /// `at`.
    pub fn of(end: Option<End>, at: u16) -> Option<EndWords>
        ensures { result ≡ end_words «end» at }
    {
        match end {
            Some(End::InputEnd(port)) => Some(EndWords::NoInput { at, port }),
            Some(End::OutputRefused(port)) => Some(EndWords::OutputRefused { at, port }),
            Some(End::StoreOutside(_)) => Some(EndWords::StoreOutside { at }),
            Some(End::JumpOutside(_)) => Some(EndWords::JumpOutside { at }),
            Some(_) => None,
            None => Some(EndWords::StepsUsed),
        }
    }
}
