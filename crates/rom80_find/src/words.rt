//! The words that a dump leaves for the values of a module's targets if the module lies at an address.

ghost use Rattle.std.specs.Prelude.{◌≡◌, ℕ, ◌<◌, ◌≤◌, ◌+◌, ◌&&◌, ◌==◌, ◌||◌, List, [], length, true, IfOk, OnOk, IfSome, IfNone, slice_index_or};
ghost use Rattle.std.specs.List.{AllByRecursion};
ghost use Rattle.rom80_find.specs.Dump.{dump_of};
ghost use Rattle.rom80_pattern.specs.CodeBytes.{number_of};
ghost use Rattle.rom80_find.specs.declared.candidates.Candidates.TheVariants.{Any};
ghost use Rattle.rom80_find.specs.Places.{AreBelow, LiesAt, IsClearBut};
ghost use Rattle.rom80_find.specs.Words.{AreOnlyWords, AreAscending, AreAscendingBelow, AreSingle, IsOfATarget, has_word, is_single};

use crate::candidates::Candidates;
use crate::dump::Dump;
use crate::solving::solve;
use omf_model::Target;
use rom80_pattern::table::table;
use rom80_pattern::{CodeByte, target_of};
use std::alloc::{AllocError, Global};

/// A target with its word: the base of a segment, the top of STACK, or what an external stands for.
#[derive(Clone, Copy)]
pub(crate) struct Word {
    /// The segment or the external.
    pub target: Target,
    /// The value of the target.
    pub word: u16,
}

/// Returns each target whose bytes in the dump, with CODE at `address`, leave only one word as its value, with that word, by ascending
/// numbers; `None` exactly if the code doesn't lie there. A target without a byte in the code has more than one. The targets have numbers
/// below `count`, and the first two, absolute 0 and CODE, aren't listed.
///
/// # Errors
/// `AllocError` only if memory ran out.
pub(crate) fn words_at(
    alloc: Global,
    dump: Dump<'_>,
    code: &[CodeByte],
    count: usize,
    address: u16,
) -> Result<Option<Vec<Word>>, AllocError>
    requires two { 2 ≤ count }
    requires few { count ≤ 65792 }
    requires below { AreBelow count code.now }
    ensures some { IfOk result (λ found. IfSome found (λ words. AreOnlyWords (dump_of dump.entry) code.now address count words.items)) }
    ensures ascending { IfOk result (λ found. IfSome found (λ words. AreAscending words.items)) }
    ensures targets { IfOk result (λ found. IfSome found (λ words. AllByRecursion IsOfATarget words.items)) }
    ensures none { IfOk result (λ found. IfNone found (LiesAt (dump_of dump.entry) code.now address → ⊥)) }
{
    let mut table = table(alloc, Candidates::Any, count)?;
    if solve(dump, address, code, &mut table) < code.len() {
        return Ok(None);
    }
    let words = single_words(alloc, &table)?;
    Ok(Some(words))
}

/// Returns the targets with only one candidate in the table, but for absolute 0 and CODE, each with that word.
fn single_words(alloc: Global, table: &[Candidates]) -> Result<Vec<Word>, AllocError>
    requires { length table.now ≤ 65792 }
    ensures single { IfOk result (λ words. AreSingle table.now (length table.now) words.items) }
    ensures ascending { IfOk result (λ words. AreAscending words.items) }
    ensures targets { IfOk result (λ words. AllByRecursion IsOfATarget words.items) }
{
    let mut words = Vec::new(alloc);
    for number in 2..table.len() {
        push_single(&mut words, number, table[number])?;
    }
    Ok(words)
}

/// Appends the target with this number and its word, if it has only one candidate.
fn push_single(
    words: &mut Vec<Word>,
    number: usize,
    candidates: Candidates,
) -> Result<(), AllocError>
    requires number { number < 65792 }
    requires order { AreAscendingBelow number words.old.items }
    requires targets { AllByRecursion IsOfATarget words.old.items }
    ensures order { OnOk result (AreAscendingBelow (number + 1) words.new.items) }
    ensures targets { OnOk result (AllByRecursion IsOfATarget words.new.items) }
    ensures words { OnOk result ((n word : ℕ) → has_word words.new.items n word ≡ (has_word words.old.items n word || (number == n && is_single candidates word))) }
{
    if let Candidates::Window(word, 0) = candidates {
        let target = target_of(number);
        words.push(Word { target, word })?;
    }
    Ok(())
}
