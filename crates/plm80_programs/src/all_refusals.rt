//! All refusals of an image, for `explain --all`.

ghost use Rattle.std.specs.Prelude.{◌≡◌, ◌≢◌, ◌+◌, ◌++◌, All, IfOk, OnOk};
ghost use Rattle.std.specs.List.{flat_map, list_any};
ghost use Rattle.verify80_flow.specs.declared.refusal.Refusal.TheVariants.{Memory};
ghost use Rattle.verify80.specs.Looking.{code_of};
ghost use Rattle.verify80_explain.specs.Conditions.{AreShownIf};
ghost use Rattle.verify80_explain.specs.Order.{AreShownInOrder};
ghost use Rattle.verify80_explain.specs.Shows.{IsShown};
ghost use Rattle.plm80_programs.specs.Explanations.{ShowsAll, ShowsRest, conditional_lines, count_line, further_count};
ghost use Rattle.plm80_programs.specs.Explanations.{further_count_line, further_lines, is_of, is_same_refusal, limit_line, shown_lines};

use crate::explain::{LIMIT, refused};
use image80::Image;
use loader80::Refusal;
use plm80_names::{Names, named_refusal};
use std::alloc::{AllocError, Global};
use verify80_explain::{Conditions, FurtherRefusals, ShownRefusal, ShownRefusals, explain_all};
use verify80_explain_text::{append_conditions, explanation_text};

/// The text of all refusals of points that are found of `image`, each with what shows it; behind them the verifier's own, `refusal`, if it
/// is none of these; how many there are; and then those that are reached on conditions, with these. `AllocError` if memory runs out, and if `refusal` is that it did.
pub(crate) fn all_refused(
    alloc: Global,
    image: &Image,
    refusal: Refusal,
    names: &Names,
) -> Result<Vec<u8>, AllocError>
    ensures shows { IfOk result (λ text. ShowsAll image.now names.now refusal text.items) }
    ensures no_memory { OnOk result (refusal ≢ Memory) }
{
    if let Refusal::Memory = refusal {
        return Err(AllocError);
    }
    let all = explain_all(alloc, image, LIMIT)?;
    text_of_all(alloc, image, refusal, names, &all)
}

/// The text of refusals of points, each with what shows it; behind them the verifier's own, `refusal`, if it is none of these; how many
/// there are; and then those that are reached on conditions, with these.
fn text_of_all(
    alloc: Global,
    image: &Image,
    refusal: Refusal,
    names: &Names,
    all: &ShownRefusals,
) -> Result<Vec<u8>, AllocError>
    requires shown { All (IsShown (code_of image.now)) all.now.shown.items }
    requires in_order { AreShownInOrder all.now.shown.items }
    requires further { All (AreShownIf (code_of image.now)) all.now.further.items }
    ensures { IfOk result (λ text. ShowsAll image.now names.now refusal text.items) }
{
    let mut text = shown_text(alloc, image, &all.shown, names)?;
    append_limit(&mut text, all.are_all)?;
    let own = append_rest(alloc, &mut text, image, refusal, names, &all.shown)?;
    append_count(alloc, &mut text, all.shown.len(), own)?;
    append_further(alloc, &mut text, image, &all.further, names)?;
    append_limit(&mut text, all.are_all_further)?;
    append_further_count(alloc, &mut text, &all.further)?;
    Ok(text)
}

/// The lines of these refusals, in order, each followed by what shows it.
fn shown_text(
    alloc: Global,
    image: &Image,
    shown: &[ShownRefusal],
    names: &Names,
) -> Result<Vec<u8>, AllocError>
    ensures { IfOk result (λ text. text.items ≡ flat_map (shown_lines image.now names.now) shown.now) }
{
    let mut text = Vec::new(alloc);
    for one in shown {
        append_shown(alloc, &mut text, image, one, names)?;
    }
    Ok(text)
}

/// Appends the line of a refusal, followed by what shows it.
fn append_shown(
    alloc: Global,
    text: &mut Vec<u8>,
    image: &Image,
    one: &ShownRefusal,
    names: &Names,
) -> Result<(), AllocError>
    ensures { OnOk result (text.new.items ≡ text.old.items ++ shown_lines image.now names.now one.now) }
{
    let line = named_refusal(alloc, image, one.refusal, names)?;
    text.extend_from_slice(&line)?;
    let ways = explanation_text(alloc, image, names.publics(), one.refusal, &one.explanation)?;
    text.extend_from_slice(&ways)
}

/// Appends the line that there are more refusals to show, unless `are_all`.
pub(crate) fn append_limit(text: &mut Vec<u8>, are_all: bool) -> Result<(), AllocError>
    ensures { OnOk result (text.new.items ≡ text.old.items ++ limit_line are_all) }
{
    if are_all {
        return Ok(());
    }
    text.extend_from_slice(b"TOO MANY WAYS TO SHOW\n".as_slice())
}

/// Appends the verifier's `refusal`, followed by what shows it, unless one of `shown` has its number and its address. Returns how many
/// refusals were appended, 0 or 1.
fn append_rest(
    alloc: Global,
    text: &mut Vec<u8>,
    image: &Image,
    refusal: Refusal,
    names: &Names,
    shown: &[ShownRefusal],
) -> Result<usize, AllocError>
    ensures { IfOk result (λ further. ShowsRest image.now names.now refusal shown.now further text.old.items text.new.items) }
{
    if is_among(shown, refusal) {
        return Ok(0);
    }
    let rest = refused(alloc, image, refusal, names)?;
    text.extend_from_slice(&rest)?;
    Ok(1)
}

/// Whether a refusal in `shown` has the number and the address of `refusal`.
fn is_among(shown: &[ShownRefusal], refusal: Refusal) -> bool
    ensures { result ≡ list_any (is_of refusal) shown.now }
{
    shown.iter().any(|one| is_of(one, refusal))
}

/// Whether `one` shows `refusal`.
fn is_of(one: &ShownRefusal, refusal: Refusal) -> bool
    ensures { result ≡ is_of refusal one.now }
{
    is_same(refusal, one.refusal)
}

/// Whether `one` has the number and the address of `refusal`.
pub(crate) fn is_same(refusal: Refusal, one: Refusal) -> bool
    ensures { result ≡ is_same_refusal refusal one }
{
    one.code() == refusal.code() && one.address() == refusal.address()
}

/// Appends the lines of refusals that are reached on conditions, each with these and what shows it.
fn append_further(
    alloc: Global,
    text: &mut Vec<u8>,
    image: &Image,
    further: &[FurtherRefusals],
    names: &Names,
) -> Result<(), AllocError>
    ensures { OnOk result (text.new.items ≡ text.old.items ++ flat_map (further_lines image.now names.now) further.now) }
{
    for group in further {
        append_group(alloc, text, image, group, names)?;
    }
    Ok(())
}

/// Appends the lines of the refusals that are reached on the same conditions.
fn append_group(
    alloc: Global,
    text: &mut Vec<u8>,
    image: &Image,
    group: &FurtherRefusals,
    names: &Names,
) -> Result<(), AllocError>
    ensures { OnOk result (text.new.items ≡ text.old.items ++ further_lines image.now names.now group.now) }
{
    for one in &group.shown {
        append_conditional(alloc, text, image, one, &group.conditions, names)?;
    }
    Ok(())
}

/// Appends the line of a refusal, the conditions on which it is reached, and what shows it.
fn append_conditional(
    alloc: Global,
    text: &mut Vec<u8>,
    image: &Image,
    one: &ShownRefusal,
    conditions: &Conditions,
    names: &Names,
) -> Result<(), AllocError>
    ensures { OnOk result (text.new.items ≡ text.old.items ++ conditional_lines image.now names.now conditions.now one.now) }
{
    let line = named_refusal(alloc, image, one.refusal, names)?;
    text.extend_from_slice(&line)?;
    append_conditions(alloc, text, image, names.publics(), conditions)?;
    let ways = explanation_text(alloc, image, names.publics(), one.refusal, &one.explanation)?;
    text.extend_from_slice(&ways)
}

/// Appends the line of how many refusals there are, `shown` and `further` together.
fn append_count(
    alloc: Global,
    text: &mut Vec<u8>,
    shown: usize,
    further: usize,
) -> Result<(), AllocError>
    ensures { OnOk result (text.new.items ≡ text.old.items ++ count_line (shown + further)) }
{
    let Some(count) = shown.checked_add(further) else {
        return Err(AllocError);
    };
    let line = format!(in alloc; "REFUSALS {count}\n")?;
    text.extend_from_slice(line.as_bytes())
}

/// Appends the line of how many refusals are reached on conditions, if there are any.
fn append_further_count(
    alloc: Global,
    text: &mut Vec<u8>,
    further: &[FurtherRefusals],
) -> Result<(), AllocError>
    ensures { OnOk result (text.new.items ≡ text.old.items ++ further_count_line (further_count further.now)) }
{
    let mut count: usize = 0;
    for group in further {
        let Some(more) = count.checked_add(group.shown.len()) else {
            return Err(AllocError);
        };
        count = more;
    }
    if count == 0 {
        return Ok(());
    }
    let line = format!(in alloc; "ON CONDITIONS {count}\n")?;
    text.extend_from_slice(line.as_bytes())
}
