//! The bytes that instructions name.

ghost use Rattle.std.specs.Prelude.{◌≡◌, ◌++◌, length, IfOk};
ghost use Rattle.verify80_cases.specs.Reach.{given};
ghost use Rattle.verify80_suggest.specs.Names.{AreNamed, Marks, first_name, names_at, second_name};

use decode80::{Instr, ahead, fetch};
use frames80::table;
use std::alloc::{AllocError, Global};
use verify80::ImageCode;

/// For each address whether STA, LDA, SHLD or LHLD at a marked address of `reached` names it; SHLD
/// and LHLD name two. `reached` must have an entry for each address.
///
/// # Errors
/// `AllocError` only if memory runs out.
pub(crate) fn find_named(
    alloc: Global,
    code: &ImageCode<'_>,
    reached: &[bool],
) -> Result<Vec<bool>, AllocError>
    requires { length reached.now ≡ 65536 }
    ensures { IfOk result (λ named. AreNamed code.now reached.now named.items) }
{
    let mut named = table(alloc, false, 65_536)?;
    for address in 0..65_536_u32 {
        mark_names(&mut named, code, reached, address as u16);
    }
    Ok(named)
}

/// Marks the addresses that the instruction at `at` names, if `at` is marked in `reached`. `named`
/// and `reached` must have an entry for each address.
#[tactic(auto, unfolding(crate::specs::Names::names_at))]
fn mark_names(named: &mut Vec<bool>, code: &ImageCode<'_>, reached: &[bool], at: u16)
    requires named { length named.old.items ≡ 65536 }
    requires reached { length reached.now ≡ 65536 }
    ensures { Marks named.old.items (names_at code.now reached.now at) named.new.items }
{
    if !reached[usize::from(at)] {
        return;
    }
    let Ok(found) = fetch(at, code) else {
        return;
    };
    mark_given(named, first_name(found.instr));
    mark_given(named, second_name(found.instr));
}

/// Marks an address, if there is one. `named` must have an entry for each address.
pub(crate) fn mark_given(named: &mut Vec<bool>, address: Option<u16>)
    requires { length named.old.items ≡ 65536 }
    ensures { Marks named.old.items (given address) named.new.items }
{
    if let Some(address) = address {
        named[usize::from(address)] = true;
    }
}

/// The address that an instruction names: that of STA, LDA, SHLD or LHLD; else `None`.
fn first_name(instr: Instr) -> Option<u16>
    ensures { result ≡ first_name instr }
{
    match instr {
        Instr::Sta(address) | Instr::Lda(address) | Instr::Shld(address) | Instr::Lhld(address) =>
            Some(address),
        _ => None,
    }
}

/// The address after the one that SHLD or LHLD names; `None` for other instructions.
fn second_name(instr: Instr) -> Option<u16>
    ensures { result ≡ second_name instr }
{
    match instr {
        Instr::Shld(address) | Instr::Lhld(address) => Some(ahead(address, 1)),
        _ => None,
    }
}
