//! The options of LOCATE, which `locate` and `map` take.

ghost use Rattle.std.specs.Prelude.{◌≡◌, ◌∷◌, None, Some, [], IfErr, IfOk, OnErr};
ghost use Rattle.plm80_console.specs.Journal.{and_blamed};
ghost use Rattle.plm80_objects.specs.Arguments.{AreLocateTexts, AreNumbersOf, WriteNoNumbers};

use clap::ArgMatches;
use omf_core::segment_id::{CODE, DATA, MEMORY, STACK, UNNAMED_COMMON};
use place80::Options;
use plm80_console::{Argument, Console, Kind, OptionText, Reported};

/// The option `--code`: the base of CODE.
pub const CODE_BASE: Argument<'static> = Argument {
    name: "code",
    kind: Kind::Number("BASE"),
    help: "Base of CODE [default: 3000]",
};

/// The option `--stack`: the base of STACK.
pub const STACK_BASE: Argument<'static> = Argument {
    name: "stack",
    kind: Kind::Number("BASE"),
    help: "Base of STACK, its lowest address",
};

/// The option `--common`: the base of the unnamed common.
pub const COMMON_BASE: Argument<'static> = Argument {
    name: "common",
    kind: Kind::Number("BASE"),
    help: "Base of the unnamed common",
};

/// The option `--data`: the base of DATA.
pub const DATA_BASE: Argument<'static> = Argument {
    name: "data",
    kind: Kind::Number("BASE"),
    help: "Base of DATA",
};

/// The option `--memory`: the base of MEMORY.
pub const MEMORY_BASE: Argument<'static> = Argument {
    name: "memory",
    kind: Kind::Number("BASE"),
    help: "Base of MEMORY",
};

/// The option `--stack-size`: the length of STACK.
pub const STACK_SIZE: Argument<'static> = Argument {
    name: "stack-size",
    kind: Kind::Number("SIZE"),
    help: "Length of STACK, in place of the module's",
};

/// The option `--memory-size`: the length of MEMORY.
pub const MEMORY_SIZE: Argument<'static> = Argument {
    name: "memory-size",
    kind: Kind::Number("SIZE"),
    help: "Length of MEMORY, in place of the module's",
};

/// The texts of the options of LOCATE, `None` for each that isn't given.
#[derive(Clone, Copy)]
pub struct LocateTexts<'a> {
    code: Option<OptionText<'a>>,
    stack: Option<OptionText<'a>>,
    common: Option<OptionText<'a>>,
    data_base: Option<OptionText<'a>>,
    memory: Option<OptionText<'a>>,
    stack_size: Option<OptionText<'a>>,
    memory_size: Option<OptionText<'a>>,
}

impl<'a> LocateTexts<'a> {
    /// Takes the options of LOCATE from what clap has matched.
    pub fn of(matches: &ArgMatches<'a>) -> LocateTexts<'a>
        ensures { AreLocateTexts matches.now result }
    {
        LocateTexts {
            code: OptionText::given(matches, CODE_BASE.name),
            stack: OptionText::given(matches, STACK_BASE.name),
            common: OptionText::given(matches, COMMON_BASE.name),
            data_base: OptionText::given(matches, DATA_BASE.name),
            memory: OptionText::given(matches, MEMORY_BASE.name),
            stack_size: OptionText::given(matches, STACK_SIZE.name),
            memory_size: OptionText::given(matches, MEMORY_SIZE.name),
        }
    }

    /// The texts of the options of LOCATE, `None` for each that isn't given; that of a base behind the id of its segment.
    pub fn all(self) -> [(Option<u8>, Option<OptionText<'a>>); 7]
        ensures { let texts = self.entry in result ≡ (Some CODE, texts.code) ∷ (Some STACK, texts.stack)
            ∷ (Some UNNAMED_COMMON, texts.common) ∷ (Some DATA, texts.data_base) ∷ (Some MEMORY, texts.memory)
            ∷ (None, texts.stack_size) ∷ (None, texts.memory_size) ∷ [] }
    {
        [
            (Some(CODE), self.code),
            (Some(STACK), self.stack),
            (Some(UNNAMED_COMMON), self.common),
            (Some(DATA), self.data_base),
            (Some(MEMORY), self.memory),
            (None, self.stack_size),
            (None, self.memory_size),
        ]
    }

    /// The numbers that the options of LOCATE write, `None` for each that isn't given. Reports the first text that is no number.
    pub fn numbers<C: Console>(self, console: &mut C) -> Result<Options, Reported>
        ensures numbers { IfOk result (AreNumbersOf self.entry) }
        ensures unchanged { IfOk result (λ _. C.journal console.new ≡ C.journal console.old) }
        ensures wrong { OnErr result (WriteNoNumbers self.entry) }
        ensures failed { IfErr result (λ _. C.journal console.new ≡ and_blamed (C.journal console.old)) }
    {
        Ok(Options {
            code: OptionText::word_if_given(self.code, console)?,
            stack: OptionText::word_if_given(self.stack, console)?,
            common: OptionText::word_if_given(self.common, console)?,
            data_base: OptionText::word_if_given(self.data_base, console)?,
            memory: OptionText::word_if_given(self.memory, console)?,
            stack_size: OptionText::word_if_given(self.stack_size, console)?,
            memory_size: OptionText::word_if_given(self.memory_size, console)?,
        })
    }
}
