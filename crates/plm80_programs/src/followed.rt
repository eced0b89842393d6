//! Commands that print the code of an image that the verifier refuses but a table of states follows.

ghost use Rattle.std.specs.Prelude.{◌≡◌, ◌++◌, ℕ, List, IfOk, IfSome, OnOk};
ghost use Rattle.image80.specs.Image.{Located};
ghost use Rattle.omf_model.specs.declared.symbols.Public.{Public};
ghost use Rattle.plm80_programs.specs.Followed.{AnswersFollowed, IsFollowedCode, SaysRefused, followed_words};
ghost use Rattle.plm80_programs.specs.Printed.{PrintsText};

use crate::finding::{Followed, find_table};
use crate::printing::Printing;
use crate::reached::{Reaching, answer_of_reach};
use decode80::Fetched;
use image80::Image;
use loader80::{Refusal, vouch};
use plm80_console::Answer;
use plm80_names::Names;
use std::alloc::{AllocError, Global};
use verify80_follow::{Table, followed_instructions, places_of};
use verify80_follow_search::Budget;

/// The code that a table follows of an image that the verifier refuses.
#[derive(Drop)]
pub struct FollowedCode {
    pub table: Table,
    /// By address the instructions at which its states stand.
    pub reached: Vec<Option<Fetched>>,
}

/// What a command prints of an image that is followed.
pub trait Following {
    ghost use Rattle.plm80_programs.specs.declared.followed.FollowedCode.{FollowedCode};

    // What the text says of an image with these names and of its code that is followed.
    ghost lists: { Self → Located → List Public → FollowedCode → List ℕ → Type 0 };

    /// The text of the code that is followed. `AllocError` only if memory runs out.
    fn followed_text(
        &self,
        alloc: Global,
        image: &Image,
        names: &Names,
        code: &FollowedCode,
    ) -> Result<Vec<u8>, AllocError>
        ensures { IfOk result (λ text. lists self.now image.now names.now code.now text.items) };
}

/// What a command answers of `image`: the text of its program, with status 0; if the verifier refuses it, that of the code that is followed,
/// with status 0, or that of what walks reach, with status 1.
pub fn answer_or_follow<P: Printing + Reaching + Following + Drop>(
    alloc: Global,
    image: Image,
    names: &Names,
    printing: P,
) -> Result<Answer<'static>, AllocError>
    ensures { IfOk result (AnswersFollowed (λ program. PrintsText (P.says printing names.now program)) (P.shows printing image names.now)
        (P.lists printing image names.now) image) }
{
    match vouch(alloc, image) {
        Ok(vouched) => {
            let text = printing.text(alloc, &vouched, names)?;
            Ok(Answer::prints(text, 0))
        }
        Err((image, refusal)) => answer_of_refused(alloc, &image, refusal, names, &printing),
    }
}

/// What a command answers of an image with this refusal. `AllocError` if memory runs out, and if that is the refusal.
fn answer_of_refused<P: Reaching + Following>(
    alloc: Global,
    image: &Image,
    refusal: Refusal,
    names: &Names,
    printing: &P,
) -> Result<Answer<'static>, AllocError>
    ensures { IfOk result (SaysRefused (P.shows printing.now image.now names.now) (P.lists printing.now image.now names.now) image.now refusal) }
{
    if let Refusal::Memory = refusal {
        return Err(AllocError);
    }
    match code_that_is_followed(alloc, image)? {
        Some(code) => {
            let text = printing.followed_text(alloc, image, names, &code)?;
            Ok(Answer::prints(text, 0))
        }
        None => answer_of_reach(alloc, image, refusal, names, printing),
    }
}

/// The code of a table that follows the program of `image`; `None` if none is found.
fn code_that_is_followed(alloc: Global, image: &Image) -> Result<Option<FollowedCode>, AllocError>
    ensures { IfOk result (λ found. IfSome found (IsFollowedCode image.now)) }
{
    let mut budget = Budget::ALL;
    match find_table(alloc, image, &[], false, &[], &mut budget)? {
        Followed::By(table, _) => {
            let places = places_of(alloc, &table, &[])?;
            let reached = followed_instructions(alloc, image, &places)?;
            Ok(Some(FollowedCode { table, reached }))
        }
        Followed::Stopped(_) => Ok(None),
    }
}

/// Appends that a table follows the program, and how many states it has.
pub fn append_followed(
    alloc: Global,
    text: &mut Vec<u8>,
    code: &FollowedCode,
) -> Result<(), AllocError>
    ensures { OnOk result (text.new.items ≡ text.old.items ++ followed_words code.now) }
{
    let states = code.table.states.len();
    let line = format!(in alloc; "FOLLOWED {states} STATES\n")?;
    text.extend_from_slice(line.as_bytes())
}
