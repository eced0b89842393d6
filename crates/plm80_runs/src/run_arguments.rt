//! The image, its regions and the inputs of its run, and how far it runs: what several commands that run it take.

ghost use Rattle.std.specs.Prelude.{◌≡◌, ◌≢◌, None, IfErr, IfOk, OnErr, OnOk};
ghost use Rattle.loader80.specs.InputsText.{bad_line, inputs_of};
ghost use Rattle.plm80_console.specs.Journal.{Blames, OnlyBlames, OnlyReports, and_blamed, and_read_files};
ghost use Rattle.plm80_runs.specs.Running.{AreLimitsOf, HaveNoLimits, HaveNoRun, HaveNoSpan, IsRunRead, IsSpanOf, run_files};
ghost use Rattle.plm80_runs.specs.Arguments.{AreLimitTexts, AreRunFiles, AreSpanTexts, run_paths};

use clap::ArgMatches;
use image80::Image;
use loader80::{InputsFault, SessionFault, read_inputs};
use loader80_trace::{Limits, Span};
use machine80::Inputs;
use plm80_console::{Argument, Console, Kind, OptionText, ReadFile, Reported, argument_text};
use plm80_files::explain_inputs;
use plm80_names::{NamedFiles, Names, ProgramTexts};

/// The paths of an image, of its regions and of the inputs of its run, and whether names are printed.
#[derive(Clone, Copy)]
pub struct RunFiles<'a> {
    pub program: NamedFiles<'a>,
    inputs: &'a str,
}

/// The argument INPUTS: the path of the inputs of a run.
pub const INPUTS: Argument<'static> = Argument {
    name: "INPUTS",
    kind: Kind::Path,
    help: "The text of the bytes that it reads from ports",
};

/// The option `--steps`: how many steps a run makes at most.
pub const STEPS: Argument<'static> = Argument {
    name: "steps",
    kind: Kind::Count("1000000"),
    help: "Steps at most; a step is one instruction",
};

/// The option `--outputs`: how many outputs a run makes at most.
pub const OUTPUTS: Argument<'static> = Argument {
    name: "outputs",
    kind: Kind::Count("65536"),
    help: "Outputs at most; the next one is refused",
};

/// The option `--from`: how many steps come before the first line of a trace.
pub const FROM: Argument<'static> = Argument {
    name: "from",
    kind: Kind::Count("0"),
    help: "Steps before the first line",
};

/// The option `--count`: how many lines a trace has at most.
pub const COUNT: Argument<'static> = Argument {
    name: "count",
    kind: Kind::Count("100"),
    help: "Lines at most",
};

/// The bytes of an image's file, the text of its regions and the text of the inputs of its run, each with its path.
#[derive(Drop)]
pub struct RunTexts<'a> {
    pub program: ProgramTexts<'a>,
    pub inputs: ReadFile<'a>,
}

/// An image that was read, its names if they are asked for, and the inputs of its run.
#[derive(Drop)]
pub struct RunProgram {
    pub image: Image,
    pub names: Names,
    pub inputs: Inputs,
}

impl<'a> RunFiles<'a> {
    /// Takes the paths of the files of a run, and whether names are asked for, from what clap has matched.
    pub fn of(matches: &ArgMatches<'a>) -> RunFiles<'a>
        ensures { AreRunFiles matches.now result }
    {
        RunFiles {
            program: NamedFiles::of(matches),
            inputs: argument_text(matches, "INPUTS"),
        }
    }

    /// Reads an image with its regions, its names if they are asked for, and the inputs of its run. All three files are read before one is
    /// checked, and they are checked in the order of `run`; the first fault is reported.
    pub fn read<C: Console>(self, console: &mut C) -> Result<RunProgram, Reported>
        ensures read { IfOk result (λ read. IsRunRead self.entry (C.journal console.old) (C.journal console.new)
            read.image read.names read.inputs.pairs.items) }
        ensures fault { IfErr result (λ _. OnlyBlames (HaveNoRun self.entry.program.names) (run_paths self.entry)
            (C.journal console.old) (C.journal console.new)) }
    {
        let texts = self.texts(console)?;
        let (image, names) = texts.program.program(console, self.program.names)?;
        let inputs = self.inputs_of(console, &texts.inputs.bytes)?;
        Ok(RunProgram {
            image,
            names,
            inputs,
        })
    }

    /// Reads the three files of a run whole: the image, its regions, then its inputs.
    pub fn texts<C: Console>(self, console: &mut C) -> Result<RunTexts<'a>, Reported>
        ensures image { IfOk result (λ texts. texts.program.image.path.now ≡ self.entry.program.image.now) }
        ensures regions { IfOk result (λ texts. texts.program.regions.path.now ≡ self.entry.program.regions.now) }
        ensures inputs { IfOk result (λ texts. texts.inputs.path.now ≡ self.entry.inputs.now) }
        ensures read { IfOk result (λ texts. C.journal console.new ≡ and_read_files (C.journal console.old) (run_files self.entry texts)) }
        ensures fault { IfErr result (λ _. OnlyReports (run_paths self.entry) (C.journal console.old) (C.journal console.new)) }
    {
        let program = ProgramTexts::read(console, self.program.image, self.program.regions)?;
        let inputs = console.read_file(self.inputs)?;
        Ok(RunTexts { program, inputs })
    }

    /// The inputs that `text` spells. Reports its first bad line, with the path of the inputs.
    pub fn inputs_of<C: Console>(self, console: &mut C, text: &[u8]) -> Result<Inputs, Reported>
        ensures good { OnOk result (bad_line text.now ≡ None) }
        ensures inputs { IfOk result (λ inputs. inputs.pairs.items ≡ inputs_of text.now) }
        ensures unchanged { IfOk result (λ _. C.journal console.new ≡ C.journal console.old) }
        ensures fault { IfErr result (λ _. Blames (bad_line text.now ≢ None) (C.journal console.old) (C.journal console.new)) }
    {
        match read_inputs(console.alloc(), text) {
            Ok(inputs) => Ok(inputs),
            Err(InputsFault::BadLine(number)) => {
                let reported = console.blame_file(self.inputs, SessionFault::Inputs(number));
                explain_inputs(console, text, number);
                Err(reported)
            }
            Err(InputsFault::Memory) => Err(console.report_memory()),
        }
    }
}

/// The texts of the options that say how long a run may last.
#[derive(Clone, Copy)]
pub struct LimitTexts<'a> {
    steps: OptionText<'a>,
    outputs: OptionText<'a>,
}

impl<'a> LimitTexts<'a> {
    /// Takes the options that say how long a run may last from what clap has matched.
    pub fn of(matches: &ArgMatches<'a>) -> LimitTexts<'a>
        ensures { AreLimitTexts matches.now result }
    {
        LimitTexts {
            steps: OptionText::of(matches, "steps"),
            outputs: OptionText::of(matches, "outputs"),
        }
    }

    /// The numbers of the options that say how long a run may last. Reports the first text that is no number.
    pub fn numbers<C: Console>(self, console: &mut C) -> Result<Limits, Reported>
        ensures limits { IfOk result (AreLimitsOf self.entry) }
        ensures unchanged { IfOk result (λ _. C.journal console.new ≡ C.journal console.old) }
        ensures wrong { OnErr result (HaveNoLimits self.entry) }
        ensures failed { IfErr result (λ _. C.journal console.new ≡ and_blamed (C.journal console.old)) }
    {
        let steps = self.steps.count(console)?;
        let outputs = self.outputs.count(console)? as usize;
        Ok(Limits { steps, outputs })
    }
}

/// The texts of the options that say which instructions of a run are shown.
#[derive(Clone, Copy)]
pub struct SpanTexts<'a> {
    from: OptionText<'a>,
    count: OptionText<'a>,
}

impl<'a> SpanTexts<'a> {
    /// Takes the options that say which instructions are shown from what clap has matched.
    pub fn of(matches: &ArgMatches<'a>) -> SpanTexts<'a>
        ensures { AreSpanTexts matches.now result }
    {
        SpanTexts {
            from: OptionText::of(matches, "from"),
            count: OptionText::of(matches, "count"),
        }
    }

    /// The instructions of a run that `--from` and `--count` ask for. Reports the first text that is no number.
    pub fn numbers<C: Console>(self, console: &mut C) -> Result<Span, Reported>
        ensures span { IfOk result (IsSpanOf self.entry) }
        ensures unchanged { IfOk result (λ _. C.journal console.new ≡ C.journal console.old) }
        ensures wrong { OnErr result (HaveNoSpan self.entry) }
        ensures failed { IfErr result (λ _. C.journal console.new ≡ and_blamed (C.journal console.old)) }
    {
        let from = self.from.count(console)?;
        let count = self.count.count(console)?;
        Ok(Span { from, count })
    }
}
