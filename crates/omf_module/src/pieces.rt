//! A module whose last bytes are still to come, read as far as they go: what the readers of files and libraries in pieces stand
//! on.

ghost use Rattle.std.specs.Prelude.{◌≡◌, ◌≤◌, [], None, Ok, length, IfOk, IfErr, IfSome};
ghost use Rattle.omf_module.specs.declared.fault.ModuleFault.{ModuleFault as ModuleFaultValue};
ghost use Rattle.omf_module.specs.Spelled.{SpellsModule};
ghost use Rattle.omf_module.specs.Reading.{OrNoMemory};
ghost use Rattle.omf_module.specs.Pieces.{LastingModuleFault, BegunModule, WholeModule, IsCutOff, ReadsModule, WaitsModule};

use crate::fault::{Cause, ModuleFault};
use crate::laws::one_reading;
use crate::reading::module_at;
use crate::record_reading::{header_at, next_body};
use omf_body::Body;
use omf_core::is_cut_off;
use omf_core::laws::{other_faults_stay, records_stay, truncated_can_be_spoilt};
use omf_model::{Common, Module};
use std::alloc::Global;

/// How far a module is read whose last bytes are still to come.
#[derive(Debug, Drop)]
pub struct UnfinishedModule {
    /// The place where the module begins.
    pub begin: usize,
    /// The place up to which its records are checked; `begin` if not even its header is.
    pub here: usize,
    /// The named commons that the checked records declare.
    pub commons: Vec<Common>,
}

/// The place after the header of the module that begins at a place, or `None` if that record is cut
/// off. A fault is one that the module has whatever bytes follow. It takes no memory.
fn after_header(bytes: &[u8], begin: usize) -> Result<Option<usize>, ModuleFault>
    ensures begun { IfOk result (λ after. IfSome after (λ first. BegunModule bytes.now begin first [])) }
    ensures waits { result ≡ Ok None → IsCutOff bytes.now begin }
    ensures fault { IfErr result (OrNoMemory (LastingModuleFault bytes.now begin)) }
{
    records_stay();
    other_faults_stay();
    if is_cut_off(bytes, begin) {
        return Ok(None);
    }
    match header_at(bytes, begin) {
        Ok((_, first)) => Ok(Some(first)),
        Err(why) => Err(why.at(begin)),
    }
}

/// Checks the records of a module from place `from` on, and appends the commons that they declare.
/// Returns the place of the record that is cut off, or `None` if the module's end record is
/// reached. A fault is one that the module has whatever bytes follow, or `Memory`. The module's
/// header and whole records must stand from `begin` to `from`, and `commons` be what they declare.
fn walk_on(
    alloc: Global,
    bytes: &[u8],
    begin: usize,
    from: usize,
    commons: &mut Vec<Common>,
) -> Result<Option<usize>, ModuleFault>
    requires { BegunModule bytes.now begin from commons.old.items }
    ensures waits { IfOk result (λ rest. IfSome rest (λ here. BegunModule bytes.now begin here commons.new.items
        × IsCutOff bytes.now here)) }
    ensures ends { result ≡ Ok None → WholeModule bytes.now begin }
    ensures fault { IfErr result (OrNoMemory (LastingModuleFault bytes.now begin)) }
{
    records_stay();
    other_faults_stay();
    let mut here = from;
    while !is_cut_off(bytes, here) {
        let (body, next) = match next_body(alloc, bytes, here, commons) {
            Ok(read) => read,
            Err(why) => return Err(why.at(here)),
        };
        if let Body::ModuleEnd(_) = body {
            return Ok(None);
        }
        here = next;
    }
    Ok(Some(here))
}

/// The place from which the records of an unfinished module are still to be checked, or `None` if
/// its header is cut off. A fault is one that the module has whatever bytes follow. It takes no
/// memory. `bytes` must begin with those read before.
fn unchecked_from(bytes: &[u8], unfinished: &UnfinishedModule) -> Result<Option<usize>, ModuleFault>
    requires { ReadsModule bytes.now unfinished.now.begin unfinished.now.here unfinished.now.commons.items }
    ensures begun { IfOk result (λ from. IfSome from (λ here.
        BegunModule bytes.now unfinished.now.begin here unfinished.now.commons.items)) }
    ensures waits { result ≡ Ok None → IsCutOff bytes.now unfinished.now.begin }
    ensures unchecked { result ≡ Ok None → unfinished.now.here ≡ unfinished.now.begin }
    ensures fault { IfErr result (OrNoMemory (LastingModuleFault bytes.now unfinished.now.begin)) }
{
    if unfinished.here != unfinished.begin {
        return Ok(Some(unfinished.here));
    }
    after_header(bytes, unfinished.begin)
}

/// The module that begins at `unfinished.begin`, with the place after its end, or `None` if more
/// bytes are needed; `unfinished` then says how far its records are checked. Each record is checked
/// once, whatever the pieces in which the bytes come, and read again when the module is whole.
/// `bytes` are all that has come so far, from the first byte of the file; they must begin with
/// those read before and not end before `unfinished.begin`, which stays as it is.
///
/// # Errors
/// The first fault that the module has whatever bytes follow, or `Memory` at place 0.
pub fn next_module(
    alloc: Global,
    bytes: &[u8],
    unfinished: &mut UnfinishedModule,
) -> Result<Option<(Module, usize)>, ModuleFault>
    requires reads { ReadsModule bytes.now unfinished.old.begin unfinished.old.here unfinished.old.commons.items }
    requires inside { unfinished.old.begin ≤ length bytes.now }
    ensures module { IfOk result (λ next. IfSome next (λ r. SpellsModule bytes.now unfinished.old.begin r.1 r.0)) }
    ensures begin { unfinished.new.begin ≡ unfinished.old.begin }
    ensures reads { result ≡ Ok None
        → ReadsModule bytes.now unfinished.old.begin unfinished.new.here unfinished.new.commons.items }
    ensures waits { result ≡ Ok None → WaitsModule bytes.now unfinished.old.begin }
    ensures cut_off { result ≡ Ok None → IsCutOff bytes.now unfinished.new.here }

    // A fault lasts whatever bytes follow; if more bytes are needed, none does.
    ensures fault { IfErr result (OrNoMemory (LastingModuleFault bytes.now unfinished.old.begin)) }
    ensures none_lasts { result ≡ Ok None → (fault : ModuleFaultValue) → LastingModuleFault bytes.now unfinished.old.begin fault
        → ⊥ }
{
    records_stay();
    other_faults_stay();
    truncated_can_be_spoilt();
    one_reading();
    let begin = unfinished.begin;
    let Some(from) = unchecked_from(bytes, unfinished)? else {
        return Ok(None);
    };
    match walk_on(alloc, bytes, begin, from, &mut unfinished.commons)? {
        Some(here) => {
            unfinished.here = here;
            Ok(None)
        }
        None => match module_at(alloc, bytes, begin) {
            Ok(next) => Ok(Some(next)),
            Err(fault) => Err(fault),
        },
    }
}
