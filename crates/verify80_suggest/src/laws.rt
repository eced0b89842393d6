//! What holds of the regions that are suggested.

ghost use Rattle.std.specs.Prelude.{◌≡◌, ℕ, Contains, Err, List, Option, true};
ghost use Rattle.decode80.specs.declared.fetching.FetchFault.TheVariants.{Outside};
ghost use Rattle.image80.specs.Case.{DeclaredCase};
ghost use Rattle.image80.specs.Image.{Located, memory_of};
ghost use Rattle.image80.specs.Regions.{in_code};
ghost use Rattle.frames80.specs.declared.procedure.Procedure.{Procedure};
ghost use Rattle.verify80_cases.specs.Marks.{marked};
ghost use Rattle.verify80_cases.specs.declared.search.Note.{Note};
ghost use Rattle.verify80_flow.specs.Faults.{Holds};
ghost use Rattle.verify80_flow.specs.Walks.{Walk};
ghost use Rattle.verify80_flow.specs.declared.refusal.Refusal.TheVariants.{FetchOutside};
ghost use Rattle.frames80.specs.StackFrame.{StackFrame};
ghost use Rattle.verify80_suggest.specs.Bytes.{may_be_code};
ghost use Rattle.verify80_suggest.specs.Lacking.{LacksByte};
ghost use Rattle.verify80_suggest.specs.Suggestion.{IsSuggestion};
ghost use Rattle.verify80_suggest.specs.declared.known.Known.{Known};
ghost use Rattle.verify80_suggest.specs.declared.setters.Setter.{Setter};
ghost use Rattle.verify80.specs.Looking.{code_of};
ghost use Rattle.verify80.specs.LookLaws.{fetch_at};

use decode80::spelling_laws;
use verify80::looks_are_exact;

/// A law of suggested regions: their code lies where the image has bytes, and in the ranges of
/// ROM, if there are any.
pub fn suggested_code_lies_in_the_image()
    ensures { (image : Located) (known : Known) (first second : Option Setter) (tableless : List ℕ) (notes : List Note) (new : Located) →
        IsSuggestion image known first second tableless notes new →
        (address : ℕ) → in_code new.regions address ≡ true → may_be_code image.chunks known.rom.now address ≡ true }
{}

/// A law of suggested regions: the verifier's walks over them come only to addresses that are
/// reached (`walks`). So `verify` and `measure` answer `FetchOutside` only at an address whose
/// instruction lacks a byte: the image has none there, or it lies outside the ranges of ROM, if
/// there are any (`outside`).
pub fn fetches_outside_lack_bytes()
    ensures walks { (image : Located) (known : Known) (first second : Option Setter) (tableless : List ℕ) (notes : List Note) (new : Located) →
        (is : IsSuggestion image known first second tableless notes new) →
        (p : Procedure) (at : ℕ) (f : StackFrame) → Walk (code_of new) p at f → marked is.found.reached at ≡ true }
    ensures outside { (image : Located) (known : Known) (first second : Option Setter) (tableless : List ℕ) (notes : List Note) (new : Located) →
        IsSuggestion image known first second tableless notes new →
        (at : ℕ) → Holds (code_of new) (FetchOutside at) → LacksByte image known.rom.now at }
{
    spelling_laws();
    looks_are_exact();
}

/// A law of suggested regions: at each entry that is known the whole instruction is in CODE, unless it lacks a byte: the image has
/// none there, or it lies outside the ranges of ROM, if there are any.
pub fn entries_are_code()
    ensures { (image : Located) (known : Known) (first second : Option Setter) (tableless : List ℕ) (notes : List Note) (new : Located) →
        IsSuggestion image known first second tableless notes new →
        (at : ℕ) → Contains known.entries.now at → fetch_at new.regions (memory_of image.chunks) at ≡ Err Outside → LacksByte image known.rom.now at }
{
    spelling_laws();
}

/// A law of suggested regions: each case that is known is one of theirs.
pub fn known_cases_stand()
    ensures { (image : Located) (known : Known) (first second : Option Setter) (tableless : List ℕ) (notes : List Note) (new : Located) →
        IsSuggestion image known first second tableless notes new →
        (case : DeclaredCase) → Contains known.cases.now case → Contains new.regions.cases case }
{}
