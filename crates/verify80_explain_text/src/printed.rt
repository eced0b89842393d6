//! What is printed below a refusal or a report.

ghost use Rattle.std.specs.Prelude.{◌≡◌, ◌++◌, OnOk};
ghost use Rattle.verify80_explain_text.specs.Explained.{chain_text, explanation_text};
ghost use Rattle.verify80_explain_text.specs.Printed.{GoesOnWithChain, GoesOnWithWays, too_many};

use crate::chain::chain_text;
use crate::explanation::explanation_text;
use image80::Image;
use image80_text::PublicTable;
use std::alloc::{AllocError, Global};
use verify80_explain::{Chain, Explanation, explain, find_chain};
use verify80_flow::Refusal;
use verify80_walks::Unexplained;

/// Appends what shows a refusal, as [`explanation_text`] has it; or the line `TOO MANY WAYS TO
/// SHOW`, if nothing is found within the limit, which is that of [`explain`]; or nothing, if no
/// ways show the refusal.
///
/// # Errors
/// `AllocError` only if memory runs out; the text may then have a part.
pub fn append_explanation(
    alloc: Global,
    text: &mut Vec<u8>,
    image: &Image,
    publics: &PublicTable,
    refusal: Refusal,
    limit: usize,
) -> Result<(), AllocError>
    ensures { OnOk result (GoesOnWithWays image.now publics.now refusal text.old.items text.new.items) }
{
    match explain(alloc, image, refusal, limit) {
        Ok(explanation) => append_ways(alloc, text, image, publics, refusal, &explanation),
        Err(Unexplained::Limit) => append_too_many(text),
        Err(Unexplained::NotShown) => Ok(()),
        Err(Unexplained::Memory) => Err(AllocError),
    }
}

/// Appends the chain of calls that adds up to `bytes` bytes of stack, as [`chain_text`] has it; or
/// the line `TOO MANY WAYS TO SHOW`, if it isn't found within the limit, which is that of
/// [`explain`]; or nothing, if there is none, as when the main program's bound is another number.
///
/// # Errors
/// `AllocError` only if memory runs out; the text may then have a part.
pub fn append_chain(
    alloc: Global,
    text: &mut Vec<u8>,
    image: &Image,
    publics: &PublicTable,
    bytes: u64,
    limit: usize,
) -> Result<(), AllocError>
    ensures { OnOk result (GoesOnWithChain image.now publics.now bytes text.old.items text.new.items) }
{
    match find_chain(alloc, image, bytes, limit) {
        Ok(chain) => append_calls(alloc, text, image, publics, &chain),
        Err(Unexplained::Limit) => append_too_many(text),
        Err(Unexplained::NotShown) => Ok(()),
        Err(Unexplained::Memory) => Err(AllocError),
    }
}

/// Appends the text of an explanation.
fn append_ways(
    alloc: Global,
    text: &mut Vec<u8>,
    image: &Image,
    publics: &PublicTable,
    refusal: Refusal,
    explanation: &Explanation,
) -> Result<(), AllocError>
    ensures { OnOk result
        (text.new.items ≡ text.old.items ++ explanation_text image.now publics.now refusal explanation.now) }
{
    let shown = explanation_text(alloc, image, publics, refusal, explanation)?;
    text.extend_from_slice(&shown)
}

/// Appends the text of a chain.
fn append_calls(
    alloc: Global,
    text: &mut Vec<u8>,
    image: &Image,
    publics: &PublicTable,
    chain: &Chain,
) -> Result<(), AllocError>
    ensures { OnOk result (text.new.items ≡ text.old.items ++ chain_text image.now publics.now chain.now) }
{
    let shown = chain_text(alloc, image, publics, chain)?;
    text.extend_from_slice(&shown)
}

/// Appends the line `TOO MANY WAYS TO SHOW`.
fn append_too_many(text: &mut Vec<u8>) -> Result<(), AllocError>
    ensures { OnOk result (text.new.items ≡ text.old.items ++ too_many) }
{
    text.extend_from_slice(b"TOO MANY WAYS TO SHOW\n".as_slice())
}
