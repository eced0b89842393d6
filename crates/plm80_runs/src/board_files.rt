//! A board, an image and its regions: what commands that run a program among devices read.

ghost use Rattle.std.specs.Prelude.{◌≡◌, None, Some, IfErr, IfNone, IfOk, IfSome, codes};
ghost use Rattle.clap.specs.Matches.{first_value, found_of};
ghost use Rattle.plm80_boards.specs.Boards.{HaveNoBoard, IsBoardRead, board_paths};
ghost use Rattle.plm80_console.specs.Journal.{OnlyBlames};
ghost use Rattle.plm80_runs.specs.Arguments.{AreBoardFiles};
ghost use Rattle.plm80_runs.specs.OnBoards.{HaveNoBoardProgram, IsBoardProgramRead, board_program_paths};

use board80::Board;
use clap::ArgMatches;
use image80::Image;
use plm80_boards::{BOARD, board_of, board_path};
use plm80_console::{Argument, Console, Kind, Reported};
use plm80_names::{NamedFiles, Names};

/// The option `--board` of a command that else takes inputs.
pub const BOARD_FOR_INPUTS: Argument<'static> = Argument {
    name: BOARD,
    kind: Kind::PathInPlaceOf(&["INPUTS"]),
    help: "The board's text, whose devices answer in place of INPUTS",
};

/// The paths of a board's text, of an image and of its regions, and whether names are printed.
#[derive(Clone, Copy)]
pub struct BoardFiles<'a> {
    pub program: NamedFiles<'a>,
    /// The path of the board's text.
    pub board: &'a str,
}

/// A board, an image and its names that were read.
#[derive(Drop)]
pub struct BoardProgram {
    pub board: Board,
    pub image: Image,
    pub names: Names,
}

impl<'a> BoardFiles<'a> {
    /// Takes the paths, and whether names are asked for, from what clap has matched; `None` if no board is given.
    pub fn of(matches: &ArgMatches<'a>) -> Option<BoardFiles<'a>>
        ensures given { IfSome result (AreBoardFiles matches.now) }
        ensures none { IfNone result (first_value (found_of matches.now) (codes "board") ≡ None) }
    {
        let board = board_path(matches)?;
        Some(BoardFiles {
            program: NamedFiles::of(matches),
            board,
        })
    }

    /// Reads the board, then the image with its regions, and its names if they are asked for. The board is checked before the other files
    /// are read; a fault is reported.
    pub fn read<C: Console>(self, console: &mut C) -> Result<BoardProgram, Reported>
        ensures read { IfOk result (λ read. IsBoardProgramRead self.entry (C.journal console.old) (C.journal console.new)
            read.board read.image read.names) }
        ensures fault { IfErr result (λ _. OnlyBlames (HaveNoBoardProgram self.entry.program.names) (board_program_paths self.entry)
            (C.journal console.old) (C.journal console.new)) }
    {
        let board = self.read_board(console)?;
        let (image, names) = self.program.read(console)?;
        Ok(BoardProgram {
            board,
            image,
            names,
        })
    }

    /// Reads the file of the board. A fault is reported.
    fn read_board<C: Console>(self, console: &mut C) -> Result<Board, Reported>
        ensures read { IfOk result (λ board. IsBoardRead (Some self.entry.board) (C.journal console.old) (C.journal console.new) (Some board)) }
        ensures fault { IfErr result (λ _. OnlyBlames HaveNoBoard (board_paths (Some self.entry.board)) (C.journal console.old)
            (C.journal console.new)) }
    {
        let text = console.read(self.board)?;
        board_of(console, self.board, &text)
    }
}
