//! `plm80 locate`: an object file's one module at its places, as an image and its regions.

ghost use Rattle.std.specs.Prelude.{◌≡◌, ◌≢◌, ◌⊎◌, ◌∷◌, ◌++◌, None, Some, [], length, IfOk, IfErr, OnOk};
ghost use Rattle.image80.specs.RegionsText.{regions_text};
ghost use Rattle.place80.specs.declared.place_fault.PlaceFault.TheVariants.{Memory};
ghost use Rattle.plm80_console.specs.{Answer.Gives, Answer.GivesUp, Answer.writes_both, Journal.Blames, Journal.OnlyBlames, Journal.file_value};
ghost use Rattle.plm80_files.specs.{LinkFiles.AreModulesRead, Wrong.OfFirst};
ghost use Rattle.plm80_boards.specs.Boards.{WithBoard, board_paths};
ghost use Rattle.plm80_objects.specs.Locate.{IsImageOf, fault_of, image_file, unmapped_of};
ghost use Rattle.plm80_objects.specs.{Arguments.AreLocateArguments, Modules.LocatesFile, Modules.WritesLocated, Wrong.LocatesNone, Wrong.SpellsNoProgram};

use crate::helpers::board_options::{BOARD_TEXT, RAM_RANGE, ROM_RANGE, unmapped_of};
use crate::helpers::causes::{report_place_fault, report_unmapped};
use crate::helpers::empty_segments::explain_empty_segments;
use crate::helpers::locate_options::{
    CODE_BASE, COMMON_BASE, DATA_BASE, LocateTexts, MEMORY_BASE, MEMORY_SIZE, STACK_BASE,
    STACK_SIZE,
};
use clap::ArgMatches;
use image80::{Image, write_regions};
use image80_file::write_image;
use omf_core::segment_id::ABSOLUTE;
use omf_module::Module;
use omf_module::laws::one_file_reading;
use place80::{Options, PlaceFault, layout, locate, locate_with_restart};
use place80_text::{Board, write_image_with_publics};
use plm80_boards::{GivenBoard, board_path};
use plm80_console::{
    Answer, Argument, Console, Kind, RangeTexts, Reported, Syntax, WrittenFile, argument_text,
    argument_values, explain_board,
};
use plm80_files::{explain_unread, read_modules};
use std::alloc::{AllocError, Global};

/// The arguments of the command `locate`.
#[derive(Drop)]
pub struct LocateArguments<'a> {
    object: &'a str,
    image: &'a str,
    regions: &'a str,
    options: LocateTexts<'a>,
    /// Ranges of the board's ROM, each as `ffff:llll`: the first address and the length in hexadecimal.
    rom: Vec<&'a str>,
    /// Ranges of the board's RAM, each as `ffff:llll`: the first address and the length in hexadecimal.
    ram: Vec<&'a str>,
    /// The path of the board's text.
    board: Option<&'a str>,
    restart: bool,
    publics: bool,
}

const ABOUT: &str = "Places a module in memory: writes its image and its regions";

const AFTER_HELP: &str = "\
Bases are addresses, sizes are in bytes. Both are one to four hexadecimal digits
in either case, without h or 0x. The three paths must differ.

Segments are placed in the order CODE, STACK, named commons, unnamed common,
DATA, MEMORY. One with a base is placed there; any other begins where the one
before it ends, rounded up to a multiple of 100h if it is paged. Relocations add
the base of their segment; those to STACK add the address after its last byte.

--rom-range and --ram-range name the board's memory, as suggest takes them: CODE
must then lie in ROM or RAM, and every other segment in RAM. --board takes both
from the ROM and RAM lines of a text (docs/FORMATS.md, 'Boards').

--restart puts a JMP to the program's start at address 0, where the processor
begins; nothing else may occupy 0000 to 0002.

--publics keeps the module's public names in the image, each at its address, for
the commands that take --names.

Example: plm80 locate readings.obj readings.img readings.regions --data 4000

Faults and what to do: docs/FAULTS.md (installed: share/doc/plm80), man plm80.";

/// The command `locate`: its name, its help and its arguments.
pub const LOCATE: Syntax<'static> = Syntax {
    name: "locate",
    about: ABOUT,
    after_help: AFTER_HELP,
    arguments: &[
        Argument {
            name: "IN",
            kind: Kind::Path,
            help: "The object file to read, of one module with a start",
        },
        Argument {
            name: "IMAGE",
            kind: Kind::Written,
            help: "The file to write the image to, an absolute object file",
        },
        Argument {
            name: "REGIONS",
            kind: Kind::Written,
            help: "The file to write the regions to, a text of address ranges",
        },
        CODE_BASE,
        STACK_BASE,
        COMMON_BASE,
        DATA_BASE,
        MEMORY_BASE,
        STACK_SIZE,
        MEMORY_SIZE,
        ROM_RANGE,
        RAM_RANGE,
        BOARD_TEXT,
        Argument {
            name: "restart",
            kind: Kind::Flag,
            help: "Put a JMP to the start at address 0",
        },
        Argument {
            name: "publics",
            kind: Kind::Flag,
            help: "Keep the public names in the image",
        },
    ],
};

impl<'a> LocateArguments<'a> {
    /// Takes the arguments of `locate` from what clap has matched. `AllocError` if memory runs out.
    pub fn of(alloc: Global, matches: &ArgMatches<'a>) -> Result<LocateArguments<'a>, AllocError>
        ensures { IfOk result (AreLocateArguments matches.now) }
    {
        Ok(LocateArguments {
            object: argument_text(matches, "IN"),
            image: argument_text(matches, "IMAGE"),
            regions: argument_text(matches, "REGIONS"),
            options: LocateTexts::of(matches),
            rom: argument_values(alloc, matches, "rom-range")?,
            ram: argument_values(alloc, matches, "ram-range")?,
            board: board_path(matches),
            restart: matches.get_flag("restart"),
            publics: matches.get_flag("publics"),
        })
    }
}

/// Does `locate`: places the one module of the object file, writes its image and its regions, and returns the exit status. No file is
/// created or changed before every other fault is excluded.
pub fn locate_file<C: Console>(
    console: &mut C,
    arguments: &LocateArguments<'_>,
) -> Result<u8, Reported>
    ensures done { let asked = arguments.now in IfOk result (Gives (WithBoard asked.board (LocatesFile asked))
        (board_paths asked.board ++ asked.object.now ∷ []) (C.journal console.old) (C.journal console.new)) }
    ensures fault { let asked = arguments.now in IfErr result (λ _. GivesUp (WithBoard asked.board (LocatesFile asked))
        (board_paths asked.board ++ asked.object.now ∷ []) (C.journal console.old) (C.journal console.new)) }
{
    let given = GivenBoard::read(console, arguments.board)?;
    locate_on_board(console, arguments, &given)
}

/// Does `locate` on the board, if one is given.
fn locate_on_board<C: Console>(
    console: &mut C,
    arguments: &LocateArguments<'_>,
    given_board: &GivenBoard,
) -> Result<u8, Reported>
    ensures done { let asked = arguments.now in IfOk result (Gives (LocatesFile asked given_board.now.board) (asked.object.now ∷ [])
        (C.journal console.old) (C.journal console.new)) }
    ensures fault { let asked = arguments.now in IfErr result (λ _. GivesUp (LocatesFile asked given_board.now.board) (asked.object.now ∷ [])
        (C.journal console.old) (C.journal console.new)) }
{
    one_file_reading();
    let options = arguments.options.numbers(console)?;
    let rom = given_board.rom(console, ROM_RANGE.name, &arguments.rom)?;
    let ram = given_board.ram(console, RAM_RANGE.name, &arguments.ram)?;
    let board = Board {
        rom: &rom,
        ram: &ram,
    };
    let modules = read_program(console, arguments.object)?;
    let program = &modules[0];
    let answer = locate_program(console, arguments, program, &options, board)?;
    let given = console.give(answer);
    if given.is_ok() && console.explains() {
        explain_unread(console, arguments.object);
        explain_empty_segments(console, program, &options, arguments.options);
        explain_ranges(console, arguments);
    }
    given
}

/// Says which ranges of the board's memory may have been meant otherwise.
fn explain_ranges<C: Console>(console: &C, arguments: &LocateArguments<'_>) {
    let rom = RangeTexts {
        name: ROM_RANGE.name,
        values: &arguments.rom,
    };
    let ram = RangeTexts {
        name: RAM_RANGE.name,
        values: &arguments.ram,
    };
    explain_board(console, rom, ram);
}

/// What `locate` answers to `program`: the files of its image and its regions. Reports why it can't be located, or at which address the
/// board has no memory for it.
fn locate_program<'a, C: Console>(
    console: &mut C,
    arguments: &LocateArguments<'a>,
    program: &Module,
    options: &Options,
    board: Board<'_>,
) -> Result<Answer<'a>, Reported>
    ensures located { IfOk result (WritesLocated arguments.now options.now board.entry.rom.now board.entry.ram.now program.now) }
    ensures unchanged { IfOk result (λ _. C.journal console.new ≡ C.journal console.old) }
    ensures fault { IfErr result (λ _. Blames (LocatesNone arguments.now options.now board.entry.rom.now board.entry.ram.now program.now)
        (C.journal console.old) (C.journal console.new)) }
{
    match image_of(console.alloc(), arguments.restart, program, options) {
        Ok(image) => answer_on_board(console, arguments, program, options, board, &image),
        Err(fault) => {
            let reported = report_place_fault(console, program, options, &fault);
            if arguments.restart && matches!(fault, PlaceFault::Overlap(ABSOLUTE, _)) {
                console.explain("--restart puts a JMP at 0000 to 0002: give another base");
            }
            explain_unread(console, arguments.object);
            Err(reported)
        }
    }
}

/// What `locate` answers to `program`, of which it made `image`. Reports the address at which the board has no memory for it.
fn answer_on_board<'a, C: Console>(
    console: &mut C,
    arguments: &LocateArguments<'a>,
    program: &Module,
    options: &Options,
    board: Board<'_>,
    image: &Image,
) -> Result<Answer<'a>, Reported>
    ensures on_board { let asked = arguments.now in
        OnOk result (unmapped_of board.entry.rom.now board.entry.ram.now asked.restart options.now program.now ≡ None) }
    ensures answer { let asked = arguments.now in IfOk result (λ answer. answer ≡ writes_both
        (file_value asked.image.now (image_file asked.publics options.now program.now image.now))
        (file_value asked.regions.now (regions_text image.now.regions))) }
    ensures unchanged { IfOk result (λ _. C.journal console.new ≡ C.journal console.old) }
    ensures fault { let asked = arguments.now in IfErr result (λ _. Blames
        (unmapped_of board.entry.rom.now board.entry.ram.now asked.restart options.now program.now ≢ None)
        (C.journal console.old) (C.journal console.new)) }
{
    match unmapped_of(console.alloc(), program, options, arguments.restart, board) {
        Ok(None) => {}
        Ok(Some(found)) => {
            let reported = report_unmapped(console, program, options, found);
            explain_ranges(console, arguments);
            if let Some(path) = arguments.board {
                console.explain(format_args!("ranges of ROM and RAM are those of {path}"));
            }
            return Err(reported);
        }
        Err(AllocError) => return Err(console.report_memory()),
    }
    match answer(console.alloc(), arguments, program, options, image) {
        Ok(answer) => Ok(answer),
        Err(AllocError) => Err(console.report_memory()),
    }
}

/// The files that `locate` writes: of `image`, with the publics of `program` if they are asked for, and of its regions.
fn answer<'a>(
    alloc: Global,
    arguments: &LocateArguments<'a>,
    program: &Module,
    options: &Options,
    image: &Image,
) -> Result<Answer<'a>, AllocError>
    ensures { let asked = arguments.now in IfOk result (λ answer. answer ≡ writes_both
        (file_value asked.image.now (image_file asked.publics options.now program.now image.now))
        (file_value asked.regions.now (regions_text image.now.regions))) }
{
    let bytes = file_of(alloc, arguments.publics, image, program, options)?;
    let mut text = Vec::new(alloc);
    write_regions(alloc, &image.regions, &mut text)?;
    let file = WrittenFile {
        path: arguments.image,
        bytes,
    };
    let regions = WrittenFile {
        path: arguments.regions,
        bytes: text,
    };
    Ok(Answer::writes_both(alloc, file, regions))
}

/// The image of `program`, placed by these options; with `restart` it has a jump to its start at address 0. The fault says why it can't be
/// placed.
fn image_of(
    alloc: Global,
    restart: bool,
    program: &Module,
    options: &Options,
) -> Result<Image, PlaceFault>
    ensures image { IfOk result (IsImageOf restart options.now program.now) }
    ensures none { OnOk result (fault_of restart options.now program.now ≡ None) }
    ensures fault { IfErr result (λ fault. (fault ≡ Memory) ⊎ (fault_of restart options.now program.now ≡ Some fault)) }
{
    if restart {
        locate_with_restart(alloc, program, options)
    } else {
        locate(alloc, program, options)
    }
}

/// The object file of `image`; with `publics` it has the public names of `program` at their addresses.
fn file_of(
    alloc: Global,
    publics: bool,
    image: &Image,
    program: &Module,
    options: &Options,
) -> Result<Vec<u8>, AllocError>
    ensures { IfOk result (λ bytes. bytes.items ≡ image_file publics options.now program.now image.now) }
{
    let mut bytes = Vec::new(alloc);
    if publics {
        // It has no fault, since the program was located.
        let Ok(layout) = layout(alloc, program, options) else {
            return Err(AllocError);
        };
        let names = program.publics();
        write_image_with_publics(alloc, image, names, &layout.segments, &mut bytes)?;
    } else {
        write_image(alloc, image, &mut bytes)?;
    }
    Ok(bytes)
}

/// Reads the object file of this path and returns its modules, of which there is exactly one. Reports any fault of the file, among them
/// another number of modules.
pub fn read_program<C: Console>(console: &mut C, path: &str) -> Result<Vec<Module>, Reported>
    ensures one { IfOk result (λ modules. length modules.items ≡ 1) }
    ensures read { IfOk result (λ modules. AreModulesRead path.now (C.journal console.old) (C.journal console.new) modules.items) }
    ensures fault { IfErr result (λ _. OnlyBlames (OfFirst SpellsNoProgram) (path.now ∷ []) (C.journal console.old) (C.journal console.new)) }
{
    one_file_reading();
    let modules = read_modules(console, path)?;
    if modules.len() == 1 {
        Ok(modules)
    } else {
        let reported = console.blame_file(path, "NotOneModule");
        console.explain("plm80 link makes one module of its modules");
        Err(reported)
    }
}
