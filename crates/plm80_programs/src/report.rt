//! `plm80 report`: what is known of a located program, on one page for a browser.

ghost use Rattle.std.specs.Prelude.{◌≡◌, ◌++◌, true, IfErr, IfOk};
ghost use Rattle.page80.specs.Reading.{shown_in};
ghost use Rattle.report80.specs.PageText.{image_text, program_text, refused_text};
ghost use Rattle.verify80_calls.specs.ListText.{list_text};
ghost use Rattle.verify80_explain_text.specs.Reaching.{reach_text};
ghost use Rattle.plm80_console.specs.Answer.{Gives, GivesUp};
ghost use Rattle.plm80_names.specs.{Arguments.program_paths, Verdict.AnswersProgram};
ghost use Rattle.plm80_programs.specs.{Arguments.AreReportArguments, Pages.AnswersPage, Pages.IsPageOf, Pages.IsRefusedPage, Reached.head_lines};

use crate::reached::Unproved;
use crate::stores::stores_lines;
use clap::ArgMatches;
use image80::Image;
use loader80::{Refusal, Vouched, vouch};
use plm80_console::laws::faults_follow_reading;
use plm80_console::{Answer, Argument, Console, Kind, Reported, Syntax, argument_text};
use plm80_files::{IMAGE, REGIONS};
use plm80_names::{NamedFiles, Names, named_report};
use report80::{Findings, RefusedFindings, program_page, refused_page};
use std::alloc::{AllocError, Global};
use verify80_calls::CallGraph;
use verify80_explain_text::reach_text;
use verify80_stores::find_stores;

/// The arguments of the command `report`.
#[derive(Clone, Copy)]
pub struct ReportArguments<'a> {
    files: NamedFiles<'a>,
    out: &'a str,
}

const AFTER_HELP: &str = "\
OUT gets one page of HTML with nothing from outside it, for a browser or for
paper: the verdict and the report of check, the memory as a picture and as
regions, the sum of each range of CODE as ROM with FF and with 00 where the
image has no byte, the stack that each procedure needs as a chart, the chain of
calls that needs most, the calls as a drawing of at most 60 procedures and as
calls prints them, the lines of stores, and the image's names for addresses.

Of an image that is refused the page has the memory and the sums, and the
refusals, conditions and calls as calls prints them: nothing of that is proved.
The lines above the calls are printed, too, and the exit status is 1.

Example: plm80 report readings.img readings.regions readings.html

Faults and what to do: docs/FAULTS.md (installed: share/doc/plm80), man plm80.";

/// The command `report`: its name, its help and its arguments.
pub const REPORT: Syntax<'static> = Syntax {
    name: "report",
    about: "Verifies an image, and writes a page of what is known of it",
    after_help: AFTER_HELP,
    arguments: &[
        IMAGE,
        REGIONS,
        Argument {
            name: "OUT",
            kind: Kind::Written,
            help: "The file to write the page to",
        },
    ],
};

impl<'a> ReportArguments<'a> {
    /// Takes the arguments of `report` from what clap has matched.
    pub fn of(matches: &ArgMatches<'a>) -> ReportArguments<'a>
        ensures { AreReportArguments matches.now result }
    {
        let files = NamedFiles {
            image: argument_text(matches, "IMAGE"),
            regions: argument_text(matches, "REGIONS"),
            names: true,
        };
        ReportArguments {
            files,
            out: argument_text(matches, "OUT"),
        }
    }
}

/// Does `report`: writes the page of the image, and of one that is refused prints the refusals; returns the exit status, 1 for a refusal. No
/// file is created or changed before every other fault is excluded.
pub fn report_files<C: Console>(
    console: &mut C,
    arguments: ReportArguments<'_>,
) -> Result<u8, Reported>
    ensures done { let asked = arguments.entry in IfOk result (Gives (AnswersProgram (AnswersPage asked.out.now) asked.files.names)
        (program_paths asked.files) (C.journal console.old) (C.journal console.new)) }
    ensures fault { let asked = arguments.entry in IfErr result (λ _. GivesUp (AnswersProgram (AnswersPage asked.out.now) asked.files.names)
        (program_paths asked.files) (C.journal console.old) (C.journal console.new)) }
{
    faults_follow_reading();
    let ReportArguments { files, out } = arguments;
    let (image, names) = files.read(console)?;
    let answer = paged(console.alloc(), image, out, &names);
    console.give_if_made(answer)
}

/// What `report` answers: the page of `image` goes to the file `out`; if the verifier refuses it, its refusals are printed.
fn paged<'a>(
    alloc: Global,
    image: Image,
    out: &'a str,
    names: &Names,
) -> Result<Answer<'a>, AllocError>
    ensures { IfOk result (AnswersPage out.now image names.now) }
{
    match vouch(alloc, image) {
        Ok(vouched) => {
            let html = page_of(alloc, &vouched, names)?;
            Ok(Answer::writes(out, html, Vec::new(alloc)))
        }
        Err((image, refusal)) => {
            if let Refusal::Memory = refusal {
                return Err(AllocError);
            }
            let unproved = Unproved::of(alloc, &image, refusal)?;
            let lines = unproved.head(alloc, &image, names)?;
            let html = page_of_refused(alloc, &image, &unproved, &lines, names)?;
            Ok(Answer::prints(lines, 1).behind_file(out, html))
        }
    }
}

/// The page of a program that the verifier accepts.
fn page_of(alloc: Global, vouched: &Vouched, names: &Names) -> Result<Vec<u8>, AllocError>
    ensures { IfOk result (λ html. IsPageOf names.now vouched.now html.items) }
{
    let graph = CallGraph::of(alloc, vouched)?;
    let image = vouched.image();
    let verdict = named_report(alloc, vouched, names)?;
    let stores = find_stores(alloc, vouched, &[])?;
    let stores = stores_lines(alloc, image, names, &[], &stores)?;
    let findings = Findings {
        verdict: &verdict,
        graph: &graph,
        publics: names.publics(),
        stores: &stores,
    };
    program_page(alloc, image, findings)
}

/// The page of an image that the verifier refuses, with these lines as the verdict.
fn page_of_refused(
    alloc: Global,
    image: &Image,
    unproved: &Unproved,
    verdict: &[u8],
    names: &Names,
) -> Result<Vec<u8>, AllocError>
    ensures { IfOk result (λ html. shown_in html.items
        ≡ image_text image.now verdict.now ++ refused_text names.now (reach_text image.now names.now unproved.now.reach.points.items)) }
{
    let points = unproved.reach.points.as_slice();
    let calls = reach_text(alloc, image, names.publics(), points)?;
    let findings = RefusedFindings {
        verdict,
        calls: &calls,
        publics: names.publics(),
    };
    refused_page(alloc, image, findings)
}
