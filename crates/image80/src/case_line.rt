//! The CASE lines of a regions text.

ghost use Rattle.std.specs.Prelude.{◌≡◌, ◌≢◌, ◌<◌, ℕ, List, [], ◌∷◌, ◌++◌, length, All, IsTrue, IfOk, IfSome, IfNone};
ghost use Rattle.text80.specs.Digits.{word_text};
ghost use Rattle.image80.specs.Case.{DeclaredCase};
ghost use Rattle.image80.specs.CaseLine.{IsCaseLine};
ghost use Rattle.image80.specs.Reading.{IsCaseOf};
ghost use Rattle.image80.specs.RegionsText.{case_text, targets_text};

use crate::case::Case;
use std::alloc::{AllocError, Global};
use std::marker::Model;
use text80::word_of_digits;

/// A CASE line as it is read: the address of a PCHL and at least one target, in the line's order, duplicates included.
#[derive(Drop)]
pub(crate) struct CaseLine {
    /// The address of the PCHL.
    pub at: u16,
    /// The targets, at least one, in the line's order.
    pub targets: Vec<u16>,
}

impl Model for CaseLine {
    ghost use Rattle.image80.specs.Case.{DeclaredCase};
    ghost use Rattle.image80.specs.CaseLine.{IsCaseLine};

    ghost Value = { DeclaredCase };

    ghost view = { λ c. record { at = c.at; targets = c.targets.items } };

    ghost invariant = { λ c. IsCaseLine (record { at = c.at; targets = c.targets.items }) };
}

/// The case that a CASE line declares: its targets sorted, without duplicates.
pub(crate) fn case_of(alloc: Global, line: &CaseLine) -> Result<Case, AllocError>
    ensures { IfOk result (IsCaseOf line.now) }
{
    let mut targets = Vec::from_slice(alloc, &line.targets)?;
    targets.sort_unstable();
    targets.dedup();
    Ok(Case {
        at: line.at,
        targets,
    })
}

/// Reads a CASE line from behind its `CASE `: an address and at least one target, each target after a space. `None`
/// if the text has another form.
pub(crate) fn read_case(alloc: Global, text: &[u8]) -> Result<Option<CaseLine>, AllocError>
    ensures spelled { IfOk result (λ read. IfSome read (λ case. text.now ≡ case_text case)) }
    ensures proper { IfOk result (λ read. IfSome read (λ case. IsCaseLine case)) }
    ensures none { IfOk result (λ read. IfNone read ((case : DeclaredCase) → IsCaseLine case → text.now ≢ case_text case)) }
{
    let Some((at, after)) = read_word(text) else {
        return Ok(None);
    };
    let mut targets = Vec::new(alloc);
    let whole = put_targets(after, &mut targets)?;
    if !whole || targets.is_empty() {
        return Ok(None);
    }
    Ok(Some(CaseLine { at, targets }))
}

/// Fills a list, which must be empty, with the targets at the beginning of the text, and returns whether the text ends
/// with the last of them.
fn put_targets(text: &[u8], targets: &mut Vec<u16>) -> Result<bool, AllocError>
    requires { targets.old.items ≡ [] }
    ensures spelled { IfOk result (λ whole. IsTrue whole → text.now ≡ targets_text targets.new.items) }
    ensures words { IfOk result (λ _. All (λ target. target < 65536) targets.new.items) }
    ensures whole { IfOk result (λ whole. (others : List ℕ) → All (λ target. target < 65536) others →
        text.now ≡ targets_text others → IsTrue whole) }
{
    let mut rest = text;
    while let Some((target, after)) = read_target(rest) {
        targets.push(target)?;
        rest = after;
    }
    Ok(rest.is_empty())
}

/// Reads a space and a target, four upper-case hexadecimal digits, at the beginning of the text, and returns the
/// target and the text after it; `None` if the text begins with anything else.
fn read_target(text: &[u8]) -> Option<(u16, &[u8])>
    ensures found { IfSome result (λ (target, rest). text.now ≡ 32 ∷ (word_text target ++ rest.now)) }
    ensures shorter { IfSome result (λ (_, rest). length rest.now < length text.now) }
    ensures none { IfNone result ((target : ℕ) (rest : List ℕ) → target < 65536 → text.now ≢ 32 ∷ (word_text target ++ rest)) }
{
    read_word(text.strip_prefix(b" ")?)
}

/// Reads a word, four upper-case hexadecimal digits, at the beginning of the text, and returns it and the text after
/// it; `None` if the text begins with anything else.
fn read_word(text: &[u8]) -> Option<(u16, &[u8])>
    ensures found { IfSome result (λ (word, rest). text.now ≡ word_text word ++ rest.now) }
    ensures none { IfNone result ((word : ℕ) (rest : List ℕ) → word < 65536 → text.now ≢ word_text word ++ rest) }
{
    if text.len() < 4 {
        return None;
    }
    let word = word_of_digits([text[0], text[1], text[2], text[3]])?;
    Some((word, &text[4..]))
}
