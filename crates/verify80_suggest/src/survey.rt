//! What is found of an image as it is gone through.

ghost use Rattle.std.specs.Prelude.{IfOk};
ghost use Rattle.verify80_suggest.specs.Suggestion.{IsFound};

use crate::bytes::find_bytes;
use crate::known::Known;
use crate::names::find_named;
use crate::setters::{Setter, find_setters};
use crate::tables::{find_code, find_tables};
use image80::Image;
use std::alloc::{AllocError, Global};
use std::marker::Model;
use verify80::ImageCode;
use verify80_cases::{find_covered, find_reachable};

/// What is found of an image by following its code from the start and from the entries that are known.
#[derive(Drop)]
pub(crate) struct Survey {
    /// For each address whether the image has a byte there.
    pub(crate) bytes: Vec<bool>,
    /// For each address whether the program may reach it.
    pub(crate) reached: Vec<bool>,
    /// For each address whether it is to be code: a byte of an instruction at a reached address, or
    /// of a table outside the RAM.
    pub(crate) code: Vec<bool>,
    /// For each address whether an instruction at a reached address names it.
    pub(crate) named: Vec<bool>,
    /// The first LXI SP at a reached address.
    pub(crate) first: Option<Setter>,
    /// The second LXI SP at a reached address.
    pub(crate) second: Option<Setter>,
}

impl Model for Survey {
    ghost use Rattle.verify80_suggest.specs.Suggestion.{Found};

    ghost Value = { Found };

    ghost view = { λ s. record {
      bytes = s.bytes.items;
      reached = s.reached.items;
      code = s.code.items;
      named = s.named.items;
      first = s.first;
      second = s.second;
    } };
}

/// Follows the code of an image from its start and from the entries that are known, by its regions,
/// and notes what is found at each address, with the ranges that are known to be RAM.
///
/// # Errors
/// `AllocError` only if memory runs out.
pub(crate) fn survey_of(
    alloc: Global,
    image: &Image,
    known: Known<'_>,
) -> Result<Survey, AllocError>
    ensures { IfOk result (λ survey. IsFound image.now known.entry.entries.now known.entry.ram.now survey) }
{
    let bytes = find_bytes(alloc, &image.chunks)?;
    let code = ImageCode::new(alloc, image)?;
    let reached = find_reachable(alloc, &code, known.entries)?;
    let covered = find_covered(alloc, &code, &reached)?;
    let tables = find_tables(alloc, &code, &reached, &covered)?;
    let is_code = find_code(alloc, &covered, &tables, known.ram)?;
    let named = find_named(alloc, &code, &reached)?;
    let setters = find_setters(&code, &reached);
    Ok(Survey {
        bytes,
        reached,
        code: is_code,
        named,
        first: setters.first,
        second: setters.second,
    })
}
