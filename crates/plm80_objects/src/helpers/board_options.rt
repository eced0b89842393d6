//! The memory of a board, as the options of `locate` or its text name it.

ghost use Rattle.std.specs.Prelude.{◌≡◌, IfOk};
ghost use Rattle.plm80_objects.specs.Locate.{names_board, unmapped_of};

use omf_module::Module;
use place80::{Options, layout};
use place80_text::{Board, Unmapped, first_unmapped};
use plm80_boards::BOARD;
use plm80_console::{Argument, Kind};
use std::alloc::{AllocError, Global};

/// The option `--rom-range` of `locate`: a range of the board's read-only memory.
pub const ROM_RANGE: Argument<'static> = Argument {
    name: "rom-range",
    kind: Kind::PathsAt("FIRST:LENGTH"),
    help: "ROM of the board, which only CODE may use",
};

/// The option `--ram-range` of `locate`: a range of the board's memory that can be written.
pub const RAM_RANGE: Argument<'static> = Argument {
    name: "ram-range",
    kind: Kind::PathsAt("FIRST:LENGTH"),
    help: "RAM of the board",
};

/// The option `--board` of `locate`: the text of the board.
pub const BOARD_TEXT: Argument<'static> = Argument {
    name: BOARD,
    kind: Kind::PathInPlaceOf(&["rom-range", "ram-range"]),
    help: "The board's text, in place of both",
};

/// The first address at which the board has no memory for `program`, which these options place. `None` if there is no such address, or if
/// the board has no range.
pub(crate) fn unmapped_of(
    alloc: Global,
    program: &Module,
    options: &Options,
    restart: bool,
    board: Board<'_>,
) -> Result<Option<Unmapped>, AllocError>
    ensures { IfOk result (λ found. found ≡ unmapped_of board.entry.rom.now board.entry.ram.now restart options.now program.now) }
{
    if !names_board(board) {
        return Ok(None);
    }
    match layout(alloc, program, options) {
        Ok(layout) => Ok(first_unmapped(program, &layout.segments, restart, board)),
        // It has no fault, since the program was located.
        Err(_) => Err(AllocError),
    }
}

/// Whether a board has a range, of ROM or of RAM.
fn names_board(board: Board<'_>) -> bool
    ensures { result ≡ names_board board.entry.rom.now board.entry.ram.now }
{
    !board.rom.is_empty() || !board.ram.is_empty()
}
