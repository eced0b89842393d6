//! The cases that an image suggests.

ghost use Rattle.std.specs.Prelude.{◌≡◌, ◌++◌, [], IfOk, OnOk};
ghost use Rattle.std.specs.List.{cons_option};
ghost use Rattle.verify80_cases.specs.Added.{CanBeAdded};
ghost use Rattle.verify80_cases.specs.Suggested.{AreSuggested};

use crate::search::{Note, Search};
use image80::{Case, Image};
use std::alloc::{AllocError, Global};
use verify80::ImageCode;

/// What is suggested for the PCHLs of an image that are reached and have no declared targets, each
/// list by address.
#[derive(Drop)]
pub struct Suggestions {
    /// The cases that their tables suggest.
    pub cases: Vec<Case>,
    /// The addresses of the PCHLs for which no table is seen.
    pub tableless: Vec<u16>,
    /// The remarks on either, in the order of the PCHLs.
    pub notes: Vec<Note>,
}

/// For each PCHL that no case names and that the program may reach, the case that its table
/// suggests. The table's address is that of an LXI. It is a table of words if a word is loaded
/// through HL to which the pair was added, and exchanged: its words are those from there on, as
/// long as both bytes are code and belong to no instruction that is reached, and an instruction in
/// the code begins at the word. A table is one of JMPs if the PCHL goes to the address to which the
/// pair was added, and these are its targets. A comparison with a number of entries ends it too.
///
/// What is reached begins at the start and at `entries`, follows each branch, goes on after each CALL whether it returns or not, and goes
/// to the suggested targets: more than the verifier's walks do. Nothing rests on it, for a run that jumps elsewhere ends there.
///
/// [`regions_with_cases`](crate::regions_with_cases) takes these cases and the image's regions.
///
/// # Errors
/// `AllocError` only if memory runs out.
pub fn suggest_cases(
    alloc: Global,
    image: &Image,
    entries: &[u16],
) -> Result<Suggestions, AllocError>
    ensures suggested { IfOk result (λ found. AreSuggested image.now entries.now found.cases.items found.tableless.items found.notes.items) }
    ensures can_be_added { IfOk result (λ found. CanBeAdded image.now.regions found.cases.items) }
{
    let code = ImageCode::new(alloc, image)?;
    let search = Search::of(alloc, &code, entries)?;
    let mut found = Suggestions {
        cases: Vec::new(alloc),
        tableless: Vec::new(alloc),
        notes: Vec::new(alloc),
    };
    for address in 0..65_536_u32 {
        found.add(alloc, image, &code, &search, address as u16)?;
    }
    Ok(found)
}

impl Suggestions {
    ghost use Rattle.std.specs.Prelude.{◌+◌};
    ghost use Rattle.verify80_cases.specs.Suggested.{AreNotesBelow, AreSuggestedBelow};

    /// Appends what is suggested for the PCHL at `at`, if there is one that is reached and has no
    /// declared targets. All that is suggested for the addresses below `at` must be here before,
    /// and nothing else: addresses come in ascending order. `code` must be that of `image`.
    /// `AllocError` if memory runs out.
    fn add(
        &mut self,
        alloc: Global,
        image: &Image,
        code: &ImageCode<'_>,
        search: &Search,
        at: u16,
    ) -> Result<(), AllocError>
        requires seen { code.now ≡ image.now }
        requires before { AreSuggestedBelow image.now search.now.reached search.now.taken at self.old.cases.items self.old.tableless.items }
        requires notes { AreNotesBelow image.now search.now.reached search.now.taken at self.old.cases.items self.old.tableless.items self.old.notes.items }
        ensures cases { OnOk result (AreSuggestedBelow image.now search.now.reached search.now.taken (at + 1) self.new.cases.items self.new.tableless.items) }
        ensures notes { OnOk result (AreNotesBelow image.now search.now.reached search.now.taken (at + 1)
            self.new.cases.items self.new.tableless.items self.new.notes.items) }
    {
        if !search.is_open(image, code, at) {
            return Ok(());
        }
        let suggested = search.suggest(alloc, image, code, at)?;
        push_given(&mut self.notes, search.note(code, at, &suggested))?;
        match suggested {
            Some(found) => self.cases.push(found.case)?,
            None => self.tableless.push(at)?,
        }
        Ok(())
    }
}

/// Appends a remark, if there is one. `AllocError` if memory runs out.
fn push_given(notes: &mut Vec<Note>, note: Option<Note>) -> Result<(), AllocError>
    ensures { OnOk result (notes.new.items ≡ notes.old.items ++ cons_option note []) }
{
    if let Some(note) = note {
        notes.push(note)?;
    }
    Ok(())
}
