//! The board of a command, if `--board` names its file.

ghost use Rattle.std.specs.Prelude.{◌≡◌, ◌≢◌, List, map, IfErr, IfOk};
ghost use Rattle.board80.specs.Board.{Spells};
ghost use Rattle.board80.specs.declared.line.{Kind.TheVariants.Ram, Kind.TheVariants.Rom, Line.Line};
ghost use Rattle.plm80_console.specs.Journal.{Blames, OnlyBlames};
ghost use Rattle.plm80_boards.specs.Boards.{AreDataRangesIn, AreInterruptsIn, AreRangesIn, HaveNoBoard, IsBoardPath, IsBoardRead, board_paths, data_ranges_of, interrupts_in};

use crate::board_words::explain_board_text;
use board80::laws::text_of_board_is_read_as_itself;
use board80::{Board, BoardFault, Kind, read_board};
use clap::ArgMatches;
use image80::Range;
use plm80_console::{Console, Reported, ranges_of, words_of};
use std::alloc::{AllocError, Global};

/// The name of the option `--board`, for the file of a board.
pub const BOARD: &str = "board";

/// The path of the text of a board, if one is given.
pub fn board_path<'a>(matches: &ArgMatches<'a>) -> Option<&'a str>
    ensures { IsBoardPath matches.now result }
{
    matches.get_str("board")
}

/// The board of a command, if one is given.
#[derive(Drop)]
pub struct GivenBoard {
    pub board: Option<Board>,
}

impl GivenBoard {
    /// Reads the file of a board, if the path of one is given. A fault is reported.
    pub fn read<C: Console>(console: &mut C, path: Option<&str>) -> Result<GivenBoard, Reported>
        ensures read { IfOk result (λ given. IsBoardRead path.entry (C.journal console.old) (C.journal console.new) given.board) }
        ensures fault { IfErr result (λ _. OnlyBlames HaveNoBoard (board_paths path.entry) (C.journal console.old) (C.journal console.new)) }
    {
        match path {
            None => Ok(GivenBoard { board: None }),
            Some(path) => {
                let text = console.read(path)?;
                let board = board_of(console, path, &text)?;
                Ok(GivenBoard { board: Some(board) })
            }
        }
    }

    /// The ranges of ROM: the board's, or without a board those that the values of the option of this name write.
    pub fn rom<C: Console>(
        &self,
        console: &mut C,
        name: &str,
        values: &[&str],
    ) -> Result<Vec<Range>, Reported>
        ensures ranges { IfOk result (λ ranges. AreRangesIn Rom self.now.board (map (λ value. value.now) values.now) ranges.items) }
        ensures unchanged { IfOk result (λ _. C.journal console.new ≡ C.journal console.old) }
        ensures fault { let texts = map (λ value. value.now) values.now in
            IfErr result (λ _. Blames ((ranges : List Range) → AreRangesIn Rom self.now.board texts ranges → ⊥) (C.journal console.old) (C.journal console.new)) }
    {
        self.ranges(console, Kind::Rom, name, values)
    }

    /// The ranges of RAM: the board's, or without a board those that the values of the option of this name write.
    pub fn ram<C: Console>(
        &self,
        console: &mut C,
        name: &str,
        values: &[&str],
    ) -> Result<Vec<Range>, Reported>
        ensures ranges { IfOk result (λ ranges. AreRangesIn Ram self.now.board (map (λ value. value.now) values.now) ranges.items) }
        ensures unchanged { IfOk result (λ _. C.journal console.new ≡ C.journal console.old) }
        ensures fault { let texts = map (λ value. value.now) values.now in
            IfErr result (λ _. Blames ((ranges : List Range) → AreRangesIn Ram self.now.board texts ranges → ⊥) (C.journal console.old) (C.journal console.new)) }
    {
        self.ranges(console, Kind::Ram, name, values)
    }

    /// The ranges of RAM and of devices: the board's, or without a board those that the values of the option of this name write.
    pub fn data<C: Console>(
        &self,
        console: &mut C,
        name: &str,
        values: &[&str],
    ) -> Result<Vec<Range>, Reported>
        ensures ranges { IfOk result (λ ranges. AreDataRangesIn self.now.board (map (λ value. value.now) values.now) ranges.items) }
        ensures unchanged { IfOk result (λ _. C.journal console.new ≡ C.journal console.old) }
        ensures fault { let texts = map (λ value. value.now) values.now in
            IfErr result (λ _. Blames ((ranges : List Range) → AreDataRangesIn self.now.board texts ranges → ⊥) (C.journal console.old) (C.journal console.new)) }
    {
        match &self.board {
            None => ranges_of(console, name, values),
            Some(board) => match data_ranges_of(console.alloc(), board) {
                Ok(ranges) => Ok(ranges),
                Err(AllocError) => Err(console.report_memory()),
            },
        }
    }

    /// The addresses of interrupts' handlers: the board's, or without a board those that the values of the option of this name write.
    pub fn interrupts<C: Console>(
        &self,
        console: &mut C,
        name: &str,
        values: &[&str],
    ) -> Result<Vec<u16>, Reported>
        ensures addresses { IfOk result (λ addresses. addresses.items ≡ interrupts_in self.now.board values.now) }
        ensures unchanged { IfOk result (λ _. C.journal console.new ≡ C.journal console.old) }
        ensures written { IfOk result (λ _. AreInterruptsIn self.now.board values.now) }
        ensures fault { IfErr result (λ _. Blames (AreInterruptsIn self.now.board values.now → ⊥) (C.journal console.old) (C.journal console.new)) }
    {
        match &self.board {
            None => words_of(console, name, values),
            Some(board) => match board.interrupts(console.alloc()) {
                Ok(addresses) => Ok(addresses),
                Err(AllocError) => Err(console.report_memory()),
            },
        }
    }

    /// The ranges of one kind of memory: the board's, or without a board those that the values of the option of this name write.
    fn ranges<C: Console>(
        &self,
        console: &mut C,
        kind: Kind,
        name: &str,
        values: &[&str],
    ) -> Result<Vec<Range>, Reported>
        ensures ranges { IfOk result (λ ranges. AreRangesIn kind self.now.board (map (λ value. value.now) values.now) ranges.items) }
        ensures unchanged { IfOk result (λ _. C.journal console.new ≡ C.journal console.old) }
        ensures fault { let texts = map (λ value. value.now) values.now in
            IfErr result (λ _. Blames ((ranges : List Range) → AreRangesIn kind self.now.board texts ranges → ⊥) (C.journal console.old) (C.journal console.new)) }
    {
        match &self.board {
            None => ranges_of(console, name, values),
            Some(board) => match board.ranges(console.alloc(), kind) {
                Ok(ranges) => Ok(ranges),
                Err(AllocError) => Err(console.report_memory()),
            },
        }
    }
}

/// The board that the text of the file of this path spells. If it spells none, that is reported.
pub fn board_of<C: Console>(console: &mut C, path: &str, text: &[u8]) -> Result<Board, Reported>
    ensures board { IfOk result (Spells text.now) }
    ensures alone { IfOk result (λ board. (other : List Line) → Spells text.now other → other ≡ board) }
    ensures unchanged { IfOk result (λ _. C.journal console.new ≡ C.journal console.old) }
    ensures fault { IfErr result (λ _. Blames ((board : List Line) → Spells text.now board → ⊥) (C.journal console.old) (C.journal console.new)) }
{
    text_of_board_is_read_as_itself();
    match read_board(console.alloc(), text) {
        Ok(board) => Ok(board),
        Err(fault) => Err(report_board(console, path, text, fault)),
    }
}

/// Reports why the text of the file of this path spells no board, with words below it, or that memory ran out.
fn report_board<C: Console>(console: &mut C, path: &str, text: &[u8], fault: BoardFault) -> Reported
    ensures { Blames (fault ≢ BoardFault.Memory) (C.journal console.old) (C.journal console.new) }
{
    if let BoardFault::Memory = fault {
        return console.report_memory();
    }
    let reported = console.blame_file(path, fault);
    explain_board_text(console, text, fault);
    reported
}

/// The ranges of a board that hold data: those of its RAM, and those of its devices.
fn data_ranges_of(alloc: Global, board: &Board) -> Result<Vec<Range>, AllocError>
    ensures { IfOk result (λ ranges. ranges.items ≡ data_ranges_of board.now) }
{
    let mut ranges = board.ranges(alloc, Kind::Ram)?;
    let devices = board.ranges(alloc, Kind::Device)?;
    ranges.extend_from_slice(&devices)?;
    Ok(ranges)
}
