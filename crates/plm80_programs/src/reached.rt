//! Commands that print what walks reach of an image that the verifier refuses.

ghost use Rattle.std.specs.Prelude.{◌≡◌, ◌++◌, ℕ, List, IfOk, OnOk, length, replicate, true, false, slice_index_or};
ghost use Rattle.std.specs.List.{filter_map, flat_map, list_any};
ghost use Rattle.decode80.specs.declared.fetching.Fetched.{Fetched};
ghost use Rattle.image80.specs.Image.{Located};
ghost use Rattle.omf_model.specs.declared.symbols.Public.{Public};
ghost use Rattle.verify80.specs.Looking.{code_of};
ghost use Rattle.verify80_flow.specs.Refusal.{refusal_address};
ghost use Rattle.verify80_follow.specs.Reaching.{AreFollowed};
ghost use Rattle.plm80_names.specs.Printed.{named_refusal_line};
ghost use Rattle.plm80_programs.specs.{Explanations.is_same_refusal, Printed.PrintsText};
ghost use Rattle.plm80_programs.specs.Reached.{AnswersReach, AreMarksOf, IsUnproved, ShowsRefusals, count_words, head_lines, is_place, places_of as places_in, with_own};

use crate::all_refusals::{append_limit, is_same};
use crate::explain::LIMIT;
use crate::printing::Printing;
use decode80::Fetched;
use image80::Image;
use loader80::{Refusal, vouch};
use plm80_console::Answer;
use plm80_names::{Names, named_refusal};
use std::alloc::{AllocError, Global};
use verify80_explain::{Reach, ReachedPoint, reach_all, refusals_of};
use verify80_explain_text::append_reach_conditions;
use verify80_follow::followed_instructions;

/// What walks reach of an image that the verifier refuses.
#[derive(Drop)]
pub struct Unproved {
    /// The refusals, the verifier's own among them: those of points by address, and last the verifier's if it is none of these.
    pub refusals: Vec<Refusal>,
    /// Where walks stand, and on which conditions.
    pub reach: Reach,
}

/// What a command prints of an image that the verifier refuses.
pub trait Reaching {
    ghost use Rattle.plm80_programs.specs.declared.reached.Unproved.{Unproved};

    // What the text says of an image with these names and what walks reach of it.
    ghost shows: { Self → Located → List Public → Unproved → List ℕ → Type 0 };

    /// The text of what walks reach. `AllocError` only if memory runs out.
    fn reached_text(
        &self,
        alloc: Global,
        image: &Image,
        names: &Names,
        unproved: &Unproved,
    ) -> Result<Vec<u8>, AllocError>
        ensures { IfOk result (λ text. shows self.now image.now names.now unproved.now text.items) };
}

/// What a command answers of `image`: the text of its program, with status 0; if the verifier refuses it, that of what walks reach, with
/// status 1.
pub fn answer_or_reach<P: Printing + Reaching + Drop>(
    alloc: Global,
    image: Image,
    names: &Names,
    printing: P,
) -> Result<Answer<'static>, AllocError>
    ensures { IfOk result (AnswersReach (λ program. PrintsText (P.says printing names.now program)) (P.shows printing image names.now) image) }
{
    match vouch(alloc, image) {
        Ok(vouched) => {
            let text = printing.text(alloc, &vouched, names)?;
            Ok(Answer::prints(text, 0))
        }
        Err((image, refusal)) => answer_of_reach(alloc, &image, refusal, names, &printing),
    }
}

/// What a command answers of an image with this refusal: the text of what walks reach. `AllocError` if memory runs out, and if that is the
/// refusal.
pub fn answer_of_reach<P: Reaching>(
    alloc: Global,
    image: &Image,
    refusal: Refusal,
    names: &Names,
    printing: &P,
) -> Result<Answer<'static>, AllocError>
    ensures { IfOk result (ShowsRefusals (P.shows printing.now image.now names.now) image.now refusal) }
{
    if let Refusal::Memory = refusal {
        return Err(AllocError);
    }
    let unproved = Unproved::of(alloc, image, refusal)?;
    let text = printing.reached_text(alloc, image, names, &unproved)?;
    Ok(Answer::prints(text, 1))
}

impl Unproved {
    /// What walks reach of an image with this refusal.
    pub fn of(alloc: Global, image: &Image, refusal: Refusal) -> Result<Unproved, AllocError>
        ensures { IfOk result (IsUnproved image.now refusal) }
    {
        let reach = reach_all(alloc, image, LIMIT)?;
        let mut refusals = refusals_of(alloc, &reach.points)?;
        add_unless_among(&mut refusals, refusal)?;
        Ok(Unproved { refusals, reach })
    }

    /// How many refusals there are.
    pub fn count(&self) -> usize
        ensures { result ≡ length self.now.refusals.items }
    {
        self.refusals.len()
    }

    /// The lines before what walks reach: that nothing is proved, the refusals, and the conditions.
    pub fn head(&self, alloc: Global, image: &Image, names: &Names) -> Result<Vec<u8>, AllocError>
        ensures { IfOk result (λ text. text.items ≡ head_lines image.now names.now self.now) }
    {
        let mut text = Vec::new(alloc);
        self.append_count(alloc, &mut text)?;
        append_refusals(alloc, &mut text, image, names, &self.refusals)?;
        append_limit(&mut text, self.reach.is_whole)?;
        append_reach_conditions(alloc, &mut text, image, names.publics(), &self.reach)?;
        Ok(text)
    }

    /// Appends that nothing is proved, and how many refusals there are.
    pub fn append_count(&self, alloc: Global, text: &mut Vec<u8>) -> Result<(), AllocError>
        ensures { OnOk result (text.new.items ≡ text.old.items ++ count_words self.now) }
    {
        let count = self.count();
        let line = format!(in alloc; "NOT PROVED REFUSALS {count}\n")?;
        text.extend_from_slice(line.as_bytes())
    }

    /// By address the instructions at which walks stand.
    pub fn instructions(
        &self,
        alloc: Global,
        image: &Image,
    ) -> Result<Vec<Option<Fetched>>, AllocError>
        ensures { IfOk result (λ table. AreFollowed image.now (places_in self.now.reach.points.items) table.items) }
    {
        let places = places_of(alloc, &self.reach.points)?;
        followed_instructions(alloc, image, &places)
    }

    /// For each address whether a refusal names it.
    pub fn marks(&self, alloc: Global) -> Result<Vec<bool>, AllocError>
        ensures { IfOk result (λ marks. AreMarksOf self.now.refusals.items marks.items) }
    {
        let places = named_places(alloc, &self.refusals)?;
        let mut marks = vec![in alloc; false; 65_536]?;
        set_marks(&mut marks, &places);
        Ok(marks)
    }
}

/// Adds a refusal, unless one with its number and its address is there.
fn add_unless_among(refusals: &mut Vec<Refusal>, refusal: Refusal) -> Result<(), AllocError>
    ensures { OnOk result (refusals.new.items ≡ with_own refusal refusals.old.items) }
{
    if is_among(refusals, refusal) {
        return Ok(());
    }
    refusals.push(refusal)?;
    Ok(())
}

/// Whether a refusal of a list has the number and the address of `own`.
fn is_among(refusals: &[Refusal], own: Refusal) -> bool
    ensures { result ≡ list_any (is_same_refusal own) refusals.now }
{
    refusals.iter().any(|one| is_same(own, *one))
}

/// Appends the line of each refusal, with the name of its address.
fn append_refusals(
    alloc: Global,
    text: &mut Vec<u8>,
    image: &Image,
    names: &Names,
    refusals: &[Refusal],
) -> Result<(), AllocError>
    ensures { OnOk result (text.new.items ≡ text.old.items ++ flat_map (named_refusal_line image.now.regions.code names.now) refusals.now) }
{
    for refusal in refusals {
        append_named(alloc, text, image, names, *refusal)?;
    }
    Ok(())
}

/// Appends the line of a refusal, with the name of its address.
fn append_named(
    alloc: Global,
    text: &mut Vec<u8>,
    image: &Image,
    names: &Names,
    refusal: Refusal,
) -> Result<(), AllocError>
    ensures { OnOk result (text.new.items ≡ text.old.items ++ named_refusal_line image.now.regions.code names.now refusal) }
{
    let line = named_refusal(alloc, image, refusal, names)?;
    text.extend_from_slice(&line)
}

/// The addresses of points.
fn places_of(alloc: Global, points: &[ReachedPoint]) -> Result<Vec<u16>, AllocError>
    ensures { IfOk result (λ places. places.items ≡ places_in points.now) }
{
    points.iter().map(|point| point.standing.at).collect(alloc)
}

/// The addresses that refusals name.
fn named_places(alloc: Global, refusals: &[Refusal]) -> Result<Vec<u16>, AllocError>
    ensures { IfOk result (λ places. places.items ≡ filter_map refusal_address refusals.now) }
{
    refusals
        .iter()
        .filter_map(|refusal| refusal.address())
        .collect(alloc)
}

/// Sets the mark of each of these addresses. `marks` must have an entry for each address, none of them set.
fn set_marks(marks: &mut Vec<bool>, places: &[u16])
    requires { marks.old.items ≡ replicate 65536 false }
    ensures { (at : ℕ) → slice_index_or marks.new.items at false ≡ list_any (is_place at) places.now }
{
    for place in places {
        marks[usize::from(*place)] = true;
    }
}
