//! Cases as the option `--case` writes them.

ghost use Rattle.std.specs.Prelude.{◌≡◌, ◌<◌, ℕ, List, All, map, IfErr, IfNone, IfOk, IfSome};
ghost use Rattle.image80.specs.Case.{DeclaredCase};
ghost use Rattle.plm80_console.specs.Journal.{Blames};
ghost use Rattle.plm80_regions.specs.CaseTexts.{AreCaseTexts, AreCasesWritten, AreTargetTexts, IsCaseText};

use image80::Case;
use plm80_console::{Console, OptionText, Reported, word_of_digits};
use std::alloc::{AllocError, Global};
use thiserror::Error;
use verify80_suggest::sort_cases;

/// Two cases have this address.
#[derive(Clone, Copy, Debug, Error)]
#[error("CaseTwice {0:04X}")]
struct CaseTwice(u16);

/// The cases that the values of the option of this name write, by address: each the address of a PCHL, an equals sign, and targets with
/// commas between them. `BadNumber` is reported of the first that writes none, `CaseTwice` if two have one address, and `Memory` if memory
/// runs out.
pub(crate) fn cases_of<C: Console>(
    console: &mut C,
    name: &str,
    values: &[&str],
) -> Result<Vec<Case>, Reported>
    ensures cases { IfOk result (λ cases. AreCasesWritten (map (λ value. value.now) values.now) cases.items) }
    ensures unchanged { IfOk result (λ _. C.journal console.new ≡ C.journal console.old) }
    ensures fault { let texts = map (λ value. value.now) values.now in IfErr result (λ _. Blames ((cases : List DeclaredCase) →
        AreCasesWritten texts cases → ⊥) (C.journal console.old) (C.journal console.new)) }
{
    let mut cases = written_cases(console, name, values)?;
    match sort_cases(&mut cases) {
        None => Ok(cases),
        Some(at) => {
            let reported = console.blame(CaseTwice(at));
            console.explain(format_args!(
                "name all targets of a PCHL in one --{name}, with commas between them"
            ));
            Err(reported)
        }
    }
}

/// The cases that the values of the option of this name write, in order. `BadNumber` is reported of the first that writes none, and
/// `Memory` if memory runs out.
fn written_cases<C: Console>(
    console: &mut C,
    name: &str,
    values: &[&str],
) -> Result<Vec<Case>, Reported>
    ensures cases { IfOk result (λ cases. AreCaseTexts (map (λ value. value.now) values.now) cases.items) }
    ensures unchanged { IfOk result (λ _. C.journal console.new ≡ C.journal console.old) }
    ensures fault { let texts = map (λ value. value.now) values.now in IfErr result (λ _. Blames ((cases : List DeclaredCase) →
        AreCaseTexts texts cases → ⊥) (C.journal console.old) (C.journal console.new)) }
{
    let mut cases = Vec::new(console.alloc());
    for value in values {
        let Ok(written) = case_of(console.alloc(), value) else {
            return Err(console.report_memory());
        };
        let Some(case) = written else {
            let wanted =
                "an address, an equals sign and targets with commas between them, of one to four hexadecimal digits each";
            return Err(OptionText::new(name, value).blame_number(console, wanted));
        };
        if cases.push(case).is_err() {
            return Err(console.report_memory());
        }
    }
    Ok(cases)
}

/// The case that a text writes as an address, an equals sign, and targets; `None` exactly for any other text. `AllocError` if memory runs out.
fn case_of(alloc: Global, text: &str) -> Result<Option<Case>, AllocError>
    ensures case { IfOk result (λ case. IfSome case (IsCaseText text.now)) }
    ensures none { IfOk result (λ case. IfNone case ((other : DeclaredCase) → IsCaseText text.now other → ⊥)) }
{
    let Some((first, behind)) = text.split_once('=') else {
        return Ok(None);
    };
    let Some(at) = word_of_digits(first) else {
        return Ok(None);
    };
    let Some(mut targets) = targets_of(alloc, behind)? else {
        return Ok(None);
    };
    targets.sort_unstable();
    targets.dedup();
    Ok(Some(Case { at, targets }))
}

/// The targets that a text writes, at least one, with commas between them, in order; `None` exactly for any other text. `AllocError` if memory
/// runs out.
fn targets_of(alloc: Global, text: &str) -> Result<Option<Vec<u16>>, AllocError>
    ensures texts { IfOk result (λ targets. IfSome targets (λ targets. AreTargetTexts text.now targets.items)) }
    ensures none { IfOk result (λ targets. IfNone targets ((others : List ℕ) → AreTargetTexts text.now others → ⊥)) }
    ensures words { IfOk result (λ targets. IfSome targets (λ targets. All (λ target. target < 65536) targets.items)) }
{
    let mut targets = Vec::new(alloc);
    let mut rest = text;
    while let Some((first, behind)) = rest.split_once(',') {
        let Some(target) = word_of_digits(first) else {
            return Ok(None);
        };
        targets.push(target)?;
        rest = behind;
    }
    let Some(target) = word_of_digits(rest) else {
        return Ok(None);
    };
    targets.push(target)?;
    Ok(Some(targets))
}
