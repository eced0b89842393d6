//! `plm80 cases`: the CASE lines that the tables of an image suggest.

ghost use Rattle.std.specs.Prelude.{◌≡◌, ◌<◌, ◌++◌, ◌∷◌, [], ℕ, List, None, Some, length, option_map, IfErr, IfOk};
ghost use Rattle.std.specs.Prelude.{IsErrOf, OnErr, OnOk};
ghost use Rattle.std.specs.{Io.KnownBytes.Appends, List.cons_option, List.list_any};
ghost use Rattle.image80.specs.{Case.DeclaredCase, RegionsText.cases_text};
ghost use Rattle.stream80.specs.WholeText.{text_limit};
ghost use Rattle.verify80_cases.specs.Suggested.{IsSearched, case_of};
ghost use Rattle.plm80_console.specs.Journal.{and_reported};
ghost use Rattle.plm80_console.specs.Answer.{Gives, GivesUp, IsAnswered, IsGivenUp};
ghost use Rattle.loader80_trace.specs.Traces.{AppendsFront};
ghost use Rattle.plm80_regions.specs.Cases.{AnswersCases, AnswersCasesInPart, BeginsCases, FindsCases, HasLongCases, IsFoundAt, PrintsCases, PrintsCasesInPart};
ghost use Rattle.plm80_names.specs.Fronts.{LeavesFront};
ghost use Rattle.plm80_regions.specs.Arguments.{AreCasesArguments, cases_path};
ghost use Rattle.plm80_regions.specs.Cases.{lacks_table, notes_status};

use clap::ArgMatches;
use image80::{Case, Image, case_lines};
use loader80::TEXT_LIMIT;
use loader80_text::LengthFault;
use loader80_trace::TraceFault;
use plm80_console::laws::faults_follow_reading;
use plm80_console::{Answer, Argument, Console, Kind, Lack, Reported, Syntax, argument_text};
use plm80_files::{IMAGE, REGIONS};
use plm80_names::{NamedFiles, report_lines};
use std::alloc::{AllocError, Global};
use stream80::{Sink, write_all};
use verify80::ImageCode;
use verify80_cases::laws::found_cases_can_be_added;
use verify80_cases::{Note, Search, SuggestedCase, regions_with_cases};

/// The arguments of the command `cases`.
#[derive(Clone, Copy)]
pub struct CasesArguments<'a> {
    image: &'a str,
    regions: &'a str,
    out: Option<&'a str>,
}

const AFTER_HELP: &str = "\
Each PCHL that the program may reach and that no CASE line names has a line CASE
aaaa tttt ..: its address, and its targets. They are the addresses in the table
from which its target is loaded, as PL/M compiles DO CASE, those of the JMPs in
the table to which it goes, or those beside the keys of a table in which a loop
looks a key up. The lines are advice: with --out NEW the regions are written to
NEW, too, with the lines added, as a text of version 2; NEW may be REGIONS
itself. Then check the image. If no table is seen for a PCHL, or it returns, a
line on standard error says so, and the status is 1. A table whose end is guessed
also gets a line; the status stays 0.

Example: plm80 cases adder.img adder.regions --out adder.regions

Faults and what to do: docs/FAULTS.md (installed: share/doc/plm80), man plm80.";

/// The command `cases`: its name, its help and its arguments.
pub const CASES: Syntax<'static> = Syntax {
    name: "cases",
    about: "Prints the CASE lines that an image's jump tables suggest",
    after_help: AFTER_HELP,
    arguments: &[
        IMAGE,
        REGIONS,
        Argument {
            name: "out",
            kind: Kind::Replaced {
                value: "NEW",
                old: "REGIONS",
            },
            help: "The file to write the regions to, with the lines added",
        },
    ],
};

impl<'a> CasesArguments<'a> {
    /// Takes the arguments of `cases` from what clap has matched.
    pub fn of(matches: &ArgMatches<'a>) -> CasesArguments<'a>
        ensures { AreCasesArguments matches.now result }
    {
        CasesArguments {
            image: argument_text(matches, "IMAGE"),
            regions: argument_text(matches, "REGIONS"),
            out: matches.get_str("out"),
        }
    }
}

/// Does `cases`: prints the CASE lines that the image's tables suggest, writes the regions with them if a file is named, says what there is
/// to say of the PCHLs, and returns the exit status, 1 if no table is seen for one of them.
pub fn suggest_for_files<C: Console>(
    console: &mut C,
    arguments: CasesArguments<'_>,
) -> Result<u8, Reported>
    ensures done { let asked = arguments.entry in IfOk result (Gives (AnswersCases (cases_path asked)) (asked.image.now ∷ asked.regions.now ∷ [])
        (C.journal console.old) (C.journal console.new)) }
    ensures fault { let asked = arguments.entry in IfErr result (λ _. GivesUp (AnswersCasesInPart (cases_path asked))
        (asked.image.now ∷ asked.regions.now ∷ []) (C.journal console.old) (C.journal console.new)) }
{
    faults_follow_reading();
    let files = NamedFiles {
        image: arguments.image,
        regions: arguments.regions,
        names: false,
    };
    let (image, _) = files.read(console)?;
    suggest(console, arguments.out, &image)
}

/// Prints the CASE lines that the tables of `image` suggest, writes its regions with them to the file `out` if one is named, and returns
/// the exit status.
fn suggest<C: Console>(console: &mut C, out: Option<&str>, image: &Image) -> Result<u8, Reported>
    ensures done { IfOk result (IsAnswered (PrintsCases (option_map (λ path. path.now) out.entry) image.now)
        (C.journal console.old) (C.journal console.new)) }
    ensures fault { IfErr result (λ _. IsGivenUp (PrintsCasesInPart (option_map (λ path. path.now) out.entry) image.now)
        (C.journal console.old) (C.journal console.new)) }
{
    match out {
        Some(path) => add_cases(console, path, image),
        None => print_cases(console, image),
    }
}

/// Prints the line of each case of `image` as it is found, and returns the exit status.
fn print_cases<C: Console>(console: &mut C, image: &Image) -> Result<u8, Reported>
    ensures done { IfOk result (IsAnswered (PrintsCases None image.now) (C.journal console.old) (C.journal console.new)) }
    ensures fault { IfErr result (λ _. IsGivenUp (PrintsCasesInPart None image.now) (C.journal console.old) (C.journal console.new)) }
{
    let mut output = console.output();
    let written = write_cases(console.alloc(), image, &mut output);
    let failure = console.take_back(output);
    match written {
        Ok(notes) => {
            remark_notes(console, &notes);
            Ok(notes_status(&notes))
        }
        Err(fault) => Err(report_lines(console, fault, failure)),
    }
}

/// Writes the line of each case of `image` as it is found, and returns what there is to say of its PCHLs. No case is kept: together they
/// may have thousands of times as many targets as the image has bytes.
fn write_cases<K: Sink>(alloc: Global, image: &Image, out: &mut K) -> Result<Vec<Note>, TraceFault>
    requires { K.failed out.old < u64.MAX }
    ensures found { IfOk result (λ notes. (cases : List DeclaredCase) × FindsCases image.now [] cases notes.items
        × Appends (K.written out.old) (K.written out.new) (cases_text cases)) }
    ensures front { OnErr result (LeavesFront (BeginsCases image.now) (K.written out.old) (K.written out.new)) }
{
    let code = ImageCode::new(alloc, image)?;
    let search = Search::of(alloc, &code, &[])?;
    write_searched(alloc, image, &code, &search, out)
}

/// Writes the line of each case that a search of `image` finds, and returns what there is to say of its PCHLs.
fn write_searched<K: Sink>(
    alloc: Global,
    image: &Image,
    code: &ImageCode<'_>,
    search: &Search,
    out: &mut K,
) -> Result<Vec<Note>, TraceFault>
    requires code { code.now ≡ image.now }
    requires searched { IsSearched image.now [] search.now.reached search.now.taken }
    requires countable { K.failed out.old < u64.MAX }
    ensures found { IfOk result (λ notes. (cases : List DeclaredCase) × FindsCases image.now [] cases notes.items
        × Appends (K.written out.old) (K.written out.new) (cases_text cases)) }
    ensures front { OnErr result (LeavesFront (BeginsCases image.now) (K.written out.old) (K.written out.new)) }
{
    let mut notes = Vec::new(alloc);
    for address in 0..65_536_u32 {
        let found = found_at(alloc, image, code, search, address as u16)?;
        write_found(alloc, found, &mut notes, out)?;
    }
    Ok(notes)
}

/// Writes the line of the case that is found of a PCHL, if there is one, and appends what there is to say of the PCHL to `notes`.
fn write_found<K: Sink>(
    alloc: Global,
    found: FoundCase,
    notes: &mut Vec<Note>,
    out: &mut K,
) -> Result<(), TraceFault>
    requires { K.failed out.old < u64.MAX }
    ensures written { OnOk result (Appends (K.written out.old) (K.written out.new) (cases_text (cons_option found.case []))) }
    ensures front { OnErr result (AppendsFront (K.written out.old) (K.written out.new) (cases_text (cons_option found.case []))) }
    ensures notes { OnOk result (notes.new.items ≡ notes.old.items ++ cons_option found.note []) }
    ensures failures { OnOk result (K.failed out.new ≡ K.failed out.old) }
{
    let line = line_of(alloc, &found.case)?;
    write_all(out, &line)?;
    push_given(notes, found.note)?;
    Ok(())
}

/// The line of a case; no bytes if there is none.
fn line_of(alloc: Global, case: &Option<Case>) -> Result<Vec<u8>, AllocError>
    ensures { IfOk result (λ line. line.items ≡ cases_text (cons_option case.now [])) }
{
    match case {
        Some(case) => case_lines(alloc, std::slice::from_ref(case)),
        None => Ok(Vec::new(alloc)),
    }
}

/// Writes the regions of `image` with its cases to the file `path`, prints the line of each case, and returns the exit status.
fn add_cases<C: Console>(console: &mut C, path: &str, image: &Image) -> Result<u8, Reported>
    ensures done { IfOk result (IsAnswered (PrintsCases (Some path.now) image.now) (C.journal console.old) (C.journal console.new)) }
    ensures fault { IfErr result (λ _. IsGivenUp (PrintsCasesInPart (Some path.now) image.now) (C.journal console.old) (C.journal console.new)) }
{
    match added_cases(console.alloc(), path, image) {
        Ok(AddedCases { answer, notes }) => {
            let given = console.give(answer);
            if given.is_ok() {
                remark_notes(console, &notes);
            }
            given
        }
        Err(fault) => Err(report_length_fault(console, path, fault)),
    }
}

/// What is done of cases that are added to regions: the answer with the file and the lines, and what there is to say of the PCHLs.
#[derive(Drop)]
struct AddedCases<'a> {
    answer: Answer<'a>,
    notes: Vec<Note>,
}

/// The cases of `image`, added to its regions, whose text goes to the file `path`; the lines of the cases; and what there is to say of the
/// PCHLs. `TooLong` if the text has more bytes than a text of regions may have.
fn added_cases<'a>(
    alloc: Global,
    path: &'a str,
    image: &Image,
) -> Result<AddedCases<'a>, LengthFault>
    ensures { IfOk result (λ added. PrintsCases (Some path.now) image.now added.answer) }
{
    found_cases_can_be_added();
    let kept = kept_cases(alloc, image, &[])?;
    let text = regions_with_cases(alloc, &image.regions, &kept.cases)?;
    if text.len() > TEXT_LIMIT {
        return Err(LengthFault::TooLong);
    }
    let status = notes_status(&kept.notes);
    Ok(AddedCases {
        answer: Answer::prints(kept.lines, status).behind_file(path, text),
        notes: kept.notes,
    })
}

/// Reports why cases aren't added to the regions that were to go to the file `path`. Out of memory is reported without the path.
fn report_length_fault<C: Console>(console: &mut C, path: &str, fault: LengthFault) -> Reported
    ensures { C.journal console.new ≡ and_reported (C.journal console.old) }
{
    match fault {
        LengthFault::TooLong => console.report_file(path, Lack::TooLong),
        LengthFault::Memory => console.report_memory(),
    }
}

/// Cases with their lines, which have no more bytes than a text of regions may have, and what there is to say of the PCHLs.
#[derive(Drop)]
pub(crate) struct KeptCases {
    cases: Vec<Case>,
    lines: Vec<u8>,
    notes: Vec<Note>,
}

/// All cases that the tables of `image` suggest, gone through from its start and from `entries`, with their lines. `TooLong` if the lines
/// have more bytes than a text of regions may have.
pub(crate) fn kept_cases(
    alloc: Global,
    image: &Image,
    entries: &[u16],
) -> Result<KeptCases, LengthFault>
    ensures found { IfOk result (λ kept. FindsCases image.now entries.now kept.cases.items kept.notes.items) }
    ensures lines { IfOk result (λ kept. kept.lines.items ≡ cases_text kept.cases.items) }
    ensures too_long { IsErrOf result LengthFault.TooLong → HasLongCases image.now entries.now }
{
    let code = ImageCode::new(alloc, image)?;
    let search = Search::of(alloc, &code, entries)?;
    keep_searched(alloc, image, &code, &search)
}

/// All cases that a search of `image` finds, with their lines. `TooLong` if the lines have more bytes than a text of regions may have.
fn keep_searched(
    alloc: Global,
    image: &Image,
    code: &ImageCode<'_>,
    search: &Search,
) -> Result<KeptCases, LengthFault>
    requires code { code.now ≡ image.now }
    ensures found { (entries : List ℕ) → IsSearched image.now entries search.now.reached search.now.taken
        → IfOk result (λ kept. FindsCases image.now entries kept.cases.items kept.notes.items) }
    ensures lines { IfOk result (λ kept. kept.lines.items ≡ cases_text kept.cases.items) }
    ensures too_long { (entries : List ℕ) → IsSearched image.now entries search.now.reached search.now.taken
        → IsErrOf result LengthFault.TooLong → HasLongCases image.now entries }
{
    let mut kept = KeptCases {
        cases: Vec::new(alloc),
        lines: Vec::new(alloc),
        notes: Vec::new(alloc),
    };
    for address in 0..65_536_u32 {
        let found = found_at(alloc, image, code, search, address as u16)?;
        kept.add(alloc, found)?;
    }
    Ok(kept)
}

impl KeptCases {
    /// Appends the case that is found of a PCHL, its line, and what there is to say of the PCHL. `TooLong` if the lines would then have
    /// more bytes than a text of regions may have.
    fn add(&mut self, alloc: Global, found: FoundCase) -> Result<(), LengthFault>
        ensures cases { OnOk result (self.new.cases.items ≡ self.old.cases.items ++ cons_option found.case []) }
        ensures lines { OnOk result (self.new.lines.items ≡ self.old.lines.items ++ cases_text (cons_option found.case [])) }
        ensures notes { OnOk result (self.new.notes.items ≡ self.old.notes.items ++ cons_option found.note []) }
        ensures too_long { IsErrOf result LengthFault.TooLong
            → text_limit < length (self.old.lines.items ++ cases_text (cons_option found.case [])) }
    {
        add_line(alloc, &mut self.lines, &found.case)?;
        push_given(&mut self.notes, found.note)?;
        push_given(&mut self.cases, found.case)?;
        Ok(())
    }
}

/// Appends the line of a case, if there is one. `TooLong` if the lines would then have more bytes than a text of regions may have.
fn add_line(alloc: Global, lines: &mut Vec<u8>, case: &Option<Case>) -> Result<(), LengthFault>
    ensures added { OnOk result (lines.new.items ≡ lines.old.items ++ cases_text (cons_option case.now [])) }
    ensures too_long { IsErrOf result LengthFault.TooLong → text_limit < length (lines.old.items ++ cases_text (cons_option case.now [])) }
{
    let line = line_of(alloc, case)?;
    if line.len() > TEXT_LIMIT.saturating_sub(lines.len()) {
        return Err(LengthFault::TooLong);
    }
    lines.extend_from_slice(&line)?;
    Ok(())
}

/// What is found at an address: of a PCHL that is reached and has no declared targets its case, if a table is seen for it, and what there is
/// to say of it; else nothing.
#[derive(Drop)]
struct FoundCase {
    case: Option<Case>,
    note: Option<Note>,
}

/// What is found of the PCHL at the address `at`; nothing if no PCHL is there, if it isn't reached, or if its targets are declared.
fn found_at(
    alloc: Global,
    image: &Image,
    code: &ImageCode<'_>,
    search: &Search,
    at: u16,
) -> Result<FoundCase, AllocError>
    requires { code.now ≡ image.now }
    ensures { IfOk result (IsFoundAt image.now search.now.reached search.now.taken at) }
{
    if !search.is_open(image, code, at) {
        return Ok(FoundCase {
            case: None,
            note: None,
        });
    }
    let found = search.suggest(alloc, image, code, at)?;
    let note = search.note(code, at, &found);
    Ok(FoundCase {
        case: case_of(found),
        note,
    })
}

/// The case that a search suggests for a PCHL; `None` if it suggests none.
fn case_of(found: Option<SuggestedCase>) -> Option<Case>
    ensures { result ≡ case_of found }
{
    match found {
        Some(found) => Some(found.case),
        None => None,
    }
}

/// Appends `item` to `items` if there is one.
fn push_given<T: Drop>(items: &mut Vec<T>, item: Option<T>) -> Result<(), AllocError>
    ensures { OnOk result (items.new.items ≡ items.old.items ++ cons_option item []) }
{
    if let Some(item) = item {
        items.push(item)?;
    }
    Ok(())
}

/// The exit status of `cases` and `suggest`: 1 if one of `notes` is of a PCHL for which no table is seen, else 0.
pub(crate) fn notes_status(notes: &[Note]) -> u8
    ensures { result ≡ notes_status notes.now }
{
    if some_lacks_table(notes) { 1 } else { 0 }
}

/// Whether a note in `notes` is of a PCHL for which no table is seen.
fn some_lacks_table(notes: &[Note]) -> bool
    ensures { result ≡ list_any lacks_table notes.now }
{
    notes.iter().any(|note| lacks_table(note))
}

/// Whether `note` is of a PCHL for which no table is seen, be it that it returns.
fn lacks_table(note: &Note) -> bool
    ensures { result ≡ lacks_table note.now }
{
    match note {
        Note::MayEnd { .. } => false,
        Note::Tableless(_) | Note::Returns(_) => true,
    }
}

/// Prints what there is to say of PCHLs on standard error, a line for each note, and what to do, if words are asked for.
pub(crate) fn remark_notes<C: Console>(console: &C, notes: &[Note]) {
    for note in notes {
        match *note {
            Note::MayEnd { table, end } => {
                console.remark(format_args!("the table at {table:04X} may end at {end:04X}"))
            }
            Note::Tableless(at) => {
                console.remark(format_args!("no table is seen for the PCHL at {at:04X}"));
                console.explain("write its CASE line by hand: docs/USING.md, 'A DO CASE'");
            }
            Note::Returns(at) => {
                console.remark(format_args!("the PCHL at {at:04X} returns"));
                console.explain("end its procedure with RET in place of POP H and PCHL");
            }
        }
    }
}
