//! The values of options: numbers and names.

ghost use Rattle.std.specs.Prelude.{◌≡◌, false, map, unwrap_or, option_map, All, IfErr, IfOk, IfSome, IsSomeAnd, IsTrue, OnErr};
ghost use Rattle.clap.specs.Matches.{first_value, found_of};
ghost use Rattle.omf_core.specs.Name.{is_name};
ghost use Rattle.plm80_console.specs.NumberText.{IsByteText, IsCountText, IsLengthText, IsWordText, count_value, word_value};
ghost use Rattle.plm80_console.specs.{Arguments.argument_text, Journal.Blames, Journal.and_blamed};

use crate::argument_texts::argument_text;
use crate::console::Console;
use crate::number_text::{byte_of_digits, count_of_digits, length_of_digits, word_of_digits};
use crate::reported::Reported;
use clap::ArgMatches;
use omf_core::{Name, NameFault};

/// The fault of a value that writes no number.
const BAD_NUMBER: &str = "BadNumber";

/// The form of a word.
const WORD_DIGITS: &str = "one to four hexadecimal digits";

/// An option that has a value: its name, without the two hyphens, and the text of its value.
#[derive(Clone, Copy)]
pub struct OptionText<'a> {
    pub name: &'a str,
    pub text: &'a str,
}

impl<'a> OptionText<'a> {
    /// The option of this name with this text as its value.
    pub fn new(name: &'a str, text: &'a str) -> OptionText<'a>
        ensures name { result.name.now ≡ name.now }
        ensures text { result.text.now ≡ text.now }
    {
        OptionText { name, text }
    }

    /// The option of this name with its value; `None` if it isn't given and has no default.
    pub fn given(matches: &ArgMatches<'a>, name: &'a str) -> Option<OptionText<'a>>
        ensures name { IfSome result (λ option. option.name.now ≡ name.now) }
        ensures text { option_map (λ option. option.text.now) result ≡ first_value (found_of matches.now) name.now }
    {
        Some(OptionText::new(name, matches.get_str(name)?))
    }

    /// The option of this name with its value, which clap requires or which has a default; empty if there is none.
    pub fn of(matches: &ArgMatches<'a>, name: &'a str) -> OptionText<'a>
        ensures name { result.name.now ≡ name.now }
        ensures text { result.text.now ≡ argument_text matches.now name.now }
    {
        OptionText::new(name, argument_text(matches, name))
    }

    /// The option of this name with its value, or with `default` if it isn't given.
    pub fn or(matches: &ArgMatches<'a>, name: &'a str, default: &'a str) -> OptionText<'a>
        ensures name { result.name.now ≡ name.now }
        ensures text { result.text.now ≡ unwrap_or (first_value (found_of matches.now) name.now) default.now }
    {
        match matches.get_str(name) {
            Some(text) => OptionText::new(name, text),
            None => OptionText::new(name, default),
        }
    }

    /// The name of the option, without the two hyphens.
    pub fn name(self) -> &'a str
        ensures { result.now ≡ self.entry.name.now }
    {
        self.name
    }

    /// The text of the option's value.
    pub fn text(self) -> &'a str
        ensures { result.now ≡ self.entry.text.now }
    {
        self.text
    }

    /// The word that the option's value writes, of one to four hexadecimal digits. For any other text `BadNumber` is reported.
    pub fn word<C: Console>(self, console: &mut C) -> Result<u16, Reported>
        ensures word { let text = self.entry.text.now in IfOk result (λ word. IsWordText text × (word ≡ word_value text)) }
        ensures fault { OnErr result (IsWordText self.entry.text.now → ⊥) }
        ensures unchanged { IfOk result (λ _. C.journal console.new ≡ C.journal console.old) }
        ensures failed { IfErr result (λ _. C.journal console.new ≡ and_blamed (C.journal console.old)) }
    {
        match word_of_digits(self.text) {
            Some(word) => Ok(word),
            None => Err(self.blame_number(console, WORD_DIGITS)),
        }
    }

    /// The word that the option's value writes, as `word` reads it; `Ok(None)` if the option isn't given.
    pub fn word_if_given<C: Console>(
        option: Option<OptionText<'_>>,
        console: &mut C,
    ) -> Result<Option<u16>, Reported>
        ensures word { IfOk result (λ word. word ≡ option_map (λ given. word_value given.text.now) option.entry) }
        ensures text { IfOk result (λ word. IfSome option.entry (λ given. IsWordText given.text.now)) }
        ensures fault { OnErr result (IsSomeAnd option.entry (λ given. IsWordText given.text.now → ⊥)) }
        ensures unchanged { IfOk result (λ _. C.journal console.new ≡ C.journal console.old) }
        ensures failed { IfErr result (λ _. C.journal console.new ≡ and_blamed (C.journal console.old)) }
    {
        match option {
            Some(option) => Ok(Some(option.word(console)?)),
            None => Ok(None),
        }
    }

    /// The number that the option's value writes, of one to five hexadecimal digits. For any other text `BadNumber` is reported.
    pub fn length<C: Console>(self, console: &mut C) -> Result<u32, Reported>
        ensures length { let text = self.entry.text.now in IfOk result (λ length. IsLengthText text × (length ≡ word_value text)) }
        ensures fault { OnErr result (IsLengthText self.entry.text.now → ⊥) }
        ensures unchanged { IfOk result (λ _. C.journal console.new ≡ C.journal console.old) }
        ensures failed { IfErr result (λ _. C.journal console.new ≡ and_blamed (C.journal console.old)) }
    {
        match length_of_digits(self.text) {
            Some(length) => Ok(length),
            None => Err(self.blame_number(console, "one to five hexadecimal digits")),
        }
    }

    /// The byte that the option's value writes, of two hexadecimal digits. For any other text `BadNumber` is reported.
    pub fn byte<C: Console>(self, console: &mut C) -> Result<u8, Reported>
        ensures byte { let text = self.entry.text.now in IfOk result (λ byte. IsByteText text × (byte ≡ word_value text)) }
        ensures fault { OnErr result (IsByteText self.entry.text.now → ⊥) }
        ensures unchanged { IfOk result (λ _. C.journal console.new ≡ C.journal console.old) }
        ensures failed { IfErr result (λ _. C.journal console.new ≡ and_blamed (C.journal console.old)) }
    {
        match byte_of_digits(self.text) {
            Some(byte) => Ok(byte),
            None => Err(self.blame_number(console, "two hexadecimal digits")),
        }
    }

    /// The number that the option's value writes in decimal, up to 64 bits. For any other text `BadNumber` is reported.
    pub fn count<C: Console>(self, console: &mut C) -> Result<u64, Reported>
        ensures count { let text = self.entry.text.now in IfOk result (λ count. IsCountText text × (count ≡ count_value text)) }
        ensures fault { OnErr result (IsCountText self.entry.text.now → ⊥) }
        ensures unchanged { IfOk result (λ _. C.journal console.new ≡ C.journal console.old) }
        ensures failed { IfErr result (λ _. C.journal console.new ≡ and_blamed (C.journal console.old)) }
    {
        match count_of_digits(self.text) {
            Some(count) => Ok(count),
            None => {
                let wanted = "decimal digits, a number up to 18446744073709551615";
                Err(self.blame_number(console, wanted))
            }
        }
    }

    /// The option's value as the name of a module. `BadName` is reported if it can't be one, and `Memory` if memory runs out.
    pub fn module_name<C: Console>(self, console: &mut C) -> Result<Name, Reported>
        ensures name { IfOk result (λ name. name ≡ self.entry.text.now) }
        ensures taken { IfOk result (λ _. IsTrue (is_name self.entry.text.now)) }
        ensures unchanged { IfOk result (λ _. C.journal console.new ≡ C.journal console.old) }
        ensures failed { let text = self.entry.text.now in
            IfErr result (λ _. Blames (is_name text ≡ false) (C.journal console.old) (C.journal console.new)) }
    {
        match Name::new(console.alloc(), self.text.as_bytes()) {
            Ok(name) => Ok(name),
            Err(NameFault::BadName) => {
                let wanted = "1 to 255 characters, 21 to 7E, without a blank";
                let reported = console.blame("BadName");
                self.explain(console, wanted);
                Err(reported)
            }
            Err(NameFault::Memory) => Err(console.report_memory()),
        }
    }

    /// Reports the fault `BadNumber` of the option's value, which writes nothing of the form that is `wanted`.
    pub fn blame_number<C: Console>(self, console: &mut C, wanted: &str) -> Reported
        ensures { C.journal console.new ≡ and_blamed (C.journal console.old) }
    {
        let reported = console.blame(BAD_NUMBER);
        self.explain(console, wanted);
        reported
    }

    /// Says which option has which value, and what is wanted.
    fn explain<C: Console>(self, console: &C, wanted: &str) {
        let (name, text) = (self.name, self.text);
        console.explain(format_args!("--{name} {text}: {wanted}"));
    }
}

/// The words that an option's values write, of one to four hexadecimal digits each. `BadNumber` is reported of the first that writes none.
pub fn words_of<C: Console>(
    console: &mut C,
    name: &str,
    values: &[&str],
) -> Result<Vec<u16>, Reported>
    ensures words { IfOk result (λ words. words.items ≡ map (λ value. word_value value.now) values.now) }
    ensures written { IfOk result (λ _. All (λ value. IsWordText value.now) values.now) }
    ensures unchanged { IfOk result (λ _. C.journal console.new ≡ C.journal console.old) }
    ensures fault { IfErr result (λ _. Blames (All (λ value. IsWordText value.now) values.now → ⊥) (C.journal console.old)
        (C.journal console.new)) }
{
    let mut words = Vec::new(console.alloc());
    for value in values {
        let Some(word) = word_of_digits(value) else {
            return Err(OptionText::new(name, value).blame_number(console, WORD_DIGITS));
        };
        if words.push(word).is_err() {
            return Err(console.report_memory());
        }
    }
    Ok(words)
}
