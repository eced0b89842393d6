//! `plm80 inputs`: the text of a run's inputs, from words.

ghost use Rattle.std.specs.Prelude.{◌≡◌, ◌≢◌, ◌≤◌, [], All, length, map, IfOk, IfErr, OnOk};
ghost use Rattle.stream80.specs.WholeText.{text_limit};
ghost use Rattle.loader80_text.specs.Text.{text_of};
ghost use Rattle.plm80_console.specs.{Answer.Gives, Answer.GivesUp, Answer.writes, Journal.Blames};
ghost use Rattle.plm80_runs.specs.InputWords.{AnswersWords, AreInputsArguments, FaultsFile, FaultsWords, IsGoodWord, inputs_named};

use clap::ArgMatches;
use loader80_text::{LengthFault, WordFault, WordInputs};
use plm80_console::{
    Answer, Argument, Console, Kind, Reported, Syntax, argument_text, argument_values,
};
use std::alloc::{AllocError, Global};

/// The arguments of the command `inputs`.
#[derive(Drop)]
pub struct InputsArguments<'a> {
    out: &'a str,
    words: Vec<&'a str>,
}

const AFTER_HELP: &str = "\
A WORD is a port, an equals sign and items separated by commas: 02=3*2A,00.
Ports and bytes are two hexadecimal digits. An item is a byte, or a decimal
count, a star and the byte. The bytes of several words for one port follow one
another. OUT is replaced only if every word can be read.

Example: plm80 inputs polled.inputs 02=3*2A,00 10=5000*00

Faults and what to do: docs/FAULTS.md (installed: share/doc/plm80), man plm80.";

/// The command `inputs`: its name, its help and its arguments.
pub const INPUTS: Syntax<'static> = Syntax {
    name: "inputs",
    about: "Writes an inputs text from words, with repetitions",
    after_help: AFTER_HELP,
    arguments: &[
        Argument {
            name: "OUT",
            kind: Kind::Written,
            help: "The file to write the inputs text to; it is replaced",
        },
        Argument {
            name: "WORD",
            kind: Kind::Words,
            help: "A port and the bytes that wait there",
        },
    ],
};

impl<'a> InputsArguments<'a> {
    /// Takes the arguments of `inputs` from what clap has matched. `AllocError` if memory runs out.
    pub fn of(alloc: Global, matches: &ArgMatches<'a>) -> Result<InputsArguments<'a>, AllocError>
        ensures { IfOk result (AreInputsArguments matches.now) }
    {
        Ok(InputsArguments {
            out: argument_text(matches, "OUT"),
            words: argument_values(alloc, matches, "WORD")?,
        })
    }
}

/// Does `inputs`: writes the text of the inputs that the words name to the file, and returns the exit status. No file is created or changed
/// before every other fault is excluded.
pub fn write_inputs_file<C: Console>(
    console: &mut C,
    arguments: &InputsArguments<'_>,
) -> Result<u8, Reported>
    ensures done { IfOk result (Gives (AnswersWords arguments.now) [] (C.journal console.old) (C.journal console.new)) }
    ensures fault { IfErr result (λ _. GivesUp (AnswersWords arguments.now) [] (C.journal console.old) (C.journal console.new)) }
{
    match inputs_file(console.alloc(), arguments.out, &arguments.words) {
        Ok(answer) => console.give(answer),
        Err(fault) => Err(report_inputs(console, arguments.out, fault)),
    }
}

/// Why words give no file of inputs.
#[derive(Clone, Copy)]
enum InputsFileFault<'a> {
    /// The first word that names no inputs.
    BadInput(&'a str),
    /// The text of the inputs has more bytes than a loader reads.
    TooLong,
    /// Memory ran out.
    Memory,
}

/// What `inputs` answers: the text of the inputs that the words name goes to the file `out`. The fault is the first word that names none, a
/// text of more bytes than a loader reads, or out of memory.
fn inputs_file<'a, 'b>(
    alloc: Global,
    out: &'b str,
    words: &[&'a str],
) -> Result<Answer<'b>, InputsFileFault<'a>>
    ensures text { let named = inputs_named (map (λ word. word.now) words.now) in
        IfOk result (λ answer. answer ≡ writes out.now (text_of named) []) }
    ensures within { let named = inputs_named (map (λ word. word.now) words.now) in
        OnOk result (length (text_of named) ≤ text_limit) }
    ensures good { OnOk result (All IsGoodWord (map (λ word. word.now) words.now)) }
    ensures fault { IfErr result (FaultsFile (map (λ word. word.now) words.now)) }
{
    let inputs = inputs_of(alloc, words)?;
    match inputs.text(alloc) {
        Ok(text) => Ok(Answer::writes(out, text.into_bytes(), Vec::new(alloc))),
        Err(LengthFault::TooLong) => Err(InputsFileFault::TooLong),
        Err(LengthFault::Memory) => Err(InputsFileFault::Memory),
    }
}

/// The inputs that the words name, in order. `BadInput` with the first word that names none.
fn inputs_of<'a>(alloc: Global, words: &[&'a str]) -> Result<WordInputs, InputsFileFault<'a>>
    ensures inputs { IfOk result (λ inputs. inputs ≡ inputs_named (map (λ word. word.now) words.now)) }
    ensures good { OnOk result (All IsGoodWord (map (λ word. word.now) words.now)) }
    ensures fault { IfErr result (FaultsWords (map (λ word. word.now) words.now)) }
{
    let mut inputs = WordInputs::new(alloc);
    for word in words {
        match inputs.add(alloc, word.as_bytes()) {
            Ok(()) => {}
            Err(WordFault::BadInput) => return Err(InputsFileFault::BadInput(*word)),
            Err(WordFault::Memory) => return Err(InputsFileFault::Memory),
        }
    }
    Ok(inputs)
}

/// Reports why words give no file of inputs: the word that names none, with what such a word is like, if words are asked for; or the path
/// of the file that would be too long.
fn report_inputs<C: Console>(console: &mut C, path: &str, fault: InputsFileFault<'_>) -> Reported
    ensures { Blames (fault.entry ≢ InputsFileFault.Memory) (C.journal console.old) (C.journal console.new) }
{
    match fault {
        InputsFileFault::BadInput(word) => {
            let reported = console.blame(format_args!("{} {word}", WordFault::BadInput));
            console.explain(
                "a word is a port, an equals sign and bytes, without blanks, as in 02=3*2A,00",
            );
            reported
        }
        InputsFileFault::TooLong => {
            let reported = console.blame_file(path, LengthFault::TooLong);
            console.explain("a text of inputs has at most 1048576 bytes");
            reported
        }
        InputsFileFault::Memory => console.report_memory(),
    }
}
