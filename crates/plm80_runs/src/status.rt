//! The exit status of a run on a board, and words on how it ended.

ghost use Rattle.std.specs.Prelude.{◌≡◌};
ghost use Rattle.plm80_runs.specs.Status.{board_end_status};

use machine80::End;
use machine80_board::BoardEnd;
use plm80_bundles::{EndWords, status_of};
use thiserror::Error;

/// The exit status of a run on a board that ended in the way `end`; `None` means that its steps were used up.
pub fn board_status_of(end: Option<BoardEnd>) -> u8
    ensures { result ≡ board_end_status «end» }
{
    match end {
        Some(BoardEnd::OfMachine(end)) => status_of(Some(end)),
        Some(BoardEnd::CellEmpty(_)) | Some(BoardEnd::CellRefused(_)) => 3,
        None => status_of(None),
    }
}

/// Words on a run on a board that ended otherwise than by HLT: what the board's text has left, or as `EndWords` has it.
#[derive(Clone, Copy, Debug, Error)]
pub enum BoardEndWords {
    #[error("the IN at {at:04X} finds no byte at port {port:02X}: its list on the board is at its end, or no PORT line is for it")]
    NoInput { at: u16, port: u8 },
    #[error("the load at {at:04X} finds no byte at {address:04X}: its list on the board is at its end")]
    NoByte { at: u16, address: u16 },
    #[error("the store at {at:04X} to {address:04X} is one more than --outputs allows")]
    StoreRefused { at: u16, address: u16 },
    #[error("the store at {at:04X} isn't to DATA: its pointer is wrong (trace --board shows the way), or a DATA line is missing")]
    StoreOutside { at: u16 },
    #[error("its steps are used up: --steps allows more")]
    StepsUsed,
    #[error("{0}")]
    AsElsewhere(EndWords),
}

impl BoardEndWords {
    /// Words on a run on a board that ended in the way `end`; `None` if nothing is to be said of that. The program counter before the step
    /// that ended it was `at`.
    pub fn of(end: Option<BoardEnd>, at: u16) -> Option<BoardEndWords> {
        match end {
            Some(BoardEnd::CellEmpty(address)) => Some(BoardEndWords::NoByte { at, address }),
            Some(BoardEnd::CellRefused(address)) => {
                Some(BoardEndWords::StoreRefused { at, address })
            }
            Some(BoardEnd::OfMachine(End::InputEnd(port))) => {
                Some(BoardEndWords::NoInput { at, port })
            }
            Some(BoardEnd::OfMachine(End::StoreOutside(_))) => {
                Some(BoardEndWords::StoreOutside { at })
            }
            Some(BoardEnd::OfMachine(end)) => {
                Some(BoardEndWords::AsElsewhere(EndWords::of(Some(end), at)?))
            }
            None => Some(BoardEndWords::StepsUsed),
        }
    }
}
