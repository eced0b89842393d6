//! The names of an image's addresses, as commands print them.

ghost use Rattle.std.specs.Prelude.{◌≡◌, ◌≢◌, [], IfErr, IfOk};
ghost use Rattle.image80_text.specs.NameText.{labelled_text, named_text};
ghost use Rattle.plm80_console.specs.Journal.{Blames, and_reported};
ghost use Rattle.plm80_names.specs.Printed.{named_end, AreNamesOf, HasNoNames};

use image80::Range;
use image80_text::laws::texts_without_names_are_as_before;
use image80_text::{PublicTable, label_lines, name_line, name_lines};
use omf_module::laws::one_file_reading;
use omf_module::{Cause, ModuleFault, Public};
use place80_text::read_publics;
use plm80_console::{Console, Reported};
use std::alloc::{AllocError, Global};
use std::marker::Model;

/// The publics of an image, by which its addresses are named; none if names aren't printed. Publics are looked up by address, in
/// tables that are made once. A contract sees their list.
#[derive(Drop)]
pub struct Names {
    publics: PublicTable,
}

impl Model for Names {
    ghost use Rattle.std.specs.Prelude.{List};
    ghost use Rattle.omf_model.specs.declared.symbols.Public.{Public};

    ghost Value = { List Public };

    ghost view = { λ n. n.publics };
}

impl Names {
    /// The names that the image's file of this path has in its bytes, if they are `asked` for, else none. A fault is reported.
    pub fn of<C: Console>(
        console: &mut C,
        asked: bool,
        path: &str,
        bytes: &[u8],
    ) -> Result<Names, Reported>
        ensures names { IfOk result (AreNamesOf asked bytes.now) }
        ensures unchanged { IfOk result (λ _. C.journal console.new ≡ C.journal console.old) }
        ensures fault { IfErr result (λ _. Blames (HasNoNames asked bytes.now) (C.journal console.old) (C.journal console.new)) }
    {
        one_file_reading();
        if !asked {
            return Ok(Names {
                publics: PublicTable::none(console.alloc()),
            });
        }
        match read_publics(console.alloc(), bytes) {
            Ok(publics) => names_of(console, publics),
            Err(fault) => Err(report_publics(console, path, fault)),
        }
    }

    /// The publics by which addresses are named.
    pub fn publics(&self) -> &PublicTable
        ensures { result.now ≡ self.now }
    {
        &self.publics
    }

    /// A text of instructions, one a line, with a line before each whose address has a name; the lines of a trace are `numbered`. Without
    /// names it is the text as it was.
    ///
    /// # Errors
    /// `AllocError` only if memory runs out.
    pub fn label(&self, alloc: Global, numbered: bool, text: Vec<u8>) -> Result<Vec<u8>, AllocError>
        ensures labelled { IfOk result (λ labelled. labelled.items ≡ labelled_text self.now numbered text.items) }
        ensures without { IfOk result (λ labelled. self.now ≡ [] → labelled.items ≡ text.items) }
    {
        texts_without_names_are_as_before();
        if self.publics.is_empty() {
            return Ok(text);
        }
        label_lines(alloc, &self.publics, numbered, &text)
    }

    /// A text, with a name behind each of its lines that begins with this word and an address. Without names it is the text as it
    /// was.
    ///
    /// # Errors
    /// `AllocError` only if memory runs out.
    pub fn name(
        &self,
        alloc: Global,
        code: &[Range],
        word: &[u8],
        text: Vec<u8>,
    ) -> Result<Vec<u8>, AllocError>
        ensures named { IfOk result (λ named. named.items ≡ named_text code.now self.now word.now text.items) }
        ensures without { IfOk result (λ named. self.now ≡ [] → named.items ≡ text.items) }
    {
        texts_without_names_are_as_before();
        if self.publics.is_empty() {
            return Ok(text);
        }
        name_lines(alloc, &self.publics, code, word, &text)
    }

    /// The text of one line, with the name of an address behind it, if it has one.
    ///
    /// # Errors
    /// `AllocError` only if memory runs out.
    pub(crate) fn name_end(
        &self,
        alloc: Global,
        code: &[Range],
        address: u16,
        text: Vec<u8>,
    ) -> Result<Vec<u8>, AllocError>
        ensures { IfOk result (λ named. named.items ≡ named_end code.now self.now address text.items) }
    {
        match text.strip_suffix(b"\n") {
            Some(line) => name_line(alloc, &self.publics, code, address, line),
            None => Ok(text),
        }
    }
}

/// Reports why the bytes of the file of this path are no object file, or that memory ran out.
fn report_publics<C: Console>(console: &mut C, path: &str, fault: ModuleFault) -> Reported
    ensures { Blames (fault.cause ≢ Cause.Memory) (C.journal console.old) (C.journal console.new) }
{
    if let Cause::Memory = fault.cause {
        return console.report_memory();
    }
    console.blame_file(path, fault)
}

/// Makes names of publics. `Memory` is reported if memory runs out.
fn names_of<C: Console>(console: &mut C, publics: Vec<Public>) -> Result<Names, Reported>
    ensures names { IfOk result (λ names. names ≡ publics.items) }
    ensures unchanged { IfOk result (λ _. C.journal console.new ≡ C.journal console.old) }
    ensures fault { IfErr result (λ _. C.journal console.new ≡ and_reported (C.journal console.old)) }
{
    match PublicTable::new(console.alloc(), publics) {
        Ok(publics) => Ok(Names { publics }),
        Err(_) => Err(console.report_memory()),
    }
}
