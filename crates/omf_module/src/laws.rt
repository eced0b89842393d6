//! What holds of all modules that are read or written, whatever calls are made. Each law is ensured by a function that does
//! nothing: a layer above that calls it has the law in its proof.

ghost use Rattle.omf_module.specs.ReadingLaws.{OneModule, OneFault, NeverBoth, OneHeaderFault, SoundHeader, OneFile, OneFileFault, NeverBothFile};
ghost use Rattle.omf_module.specs.StayLaws.{ModulesStay, ModulesStand};
ghost use Rattle.omf_module.specs.FileFeedLaws.{OneModuleCount, LastingFileFaultsLast};
ghost use Rattle.omf_module.specs.GatheredLaws.{ContentsHaveTheFixupsUpToTheNext};
ghost use Rattle.omf_module.specs.UseLaws.{NoFaultExactlyWhereUsesAreThere};
ghost use Rattle.omf_module.specs.FirstUseLaws.{BodiesFaultIsTheFirst, UseFaultIsTheFirst};
ghost use Rattle.omf_module.specs.WritingLaws.{WrittenModuleIsSpelled, WrittenFileIsSpelled};

use omf_body::laws::{one_body, one_fault};
use omf_core::laws::{
    no_fault_exactly_at_records, one_record_at_each_place, other_faults_stay, records_stay,
    written_is_spelled,
};
pub use omf_model::laws::segments_are_kept;

/// A law: at a place, bytes spell at most one module and have at most one first fault, and never
/// both. So, too, of the header alone: where one should stand there is at most one fault, and none
/// where one stands.
pub fn one_reading()
    ensures module { OneModule }
    ensures fault { OneFault }
    ensures never_both { NeverBoth }
    ensures header_fault { OneHeaderFault }
    ensures sound_header { SoundHeader }
{
    one_record_at_each_place();
    no_fault_exactly_at_records();
    one_body();
    one_fault();
}

/// A law: bytes spell at most one list of modules as a file, or have one first fault, and never
/// both.
pub fn one_file_reading()
    ensures file { OneFile }
    ensures fault { OneFileFault }
    ensures never_both { NeverBothFile }
{
    one_record_at_each_place();
    no_fault_exactly_at_records();
    one_body();
    one_fault();
}

/// A law: a module that bytes spell at a place is spelled there whatever bytes follow; it ends
/// after the place where it begins, inside the bytes.
pub fn modules_stay()
    ensures stay { ModulesStay }
    ensures stand { ModulesStand }
{
    records_stay();
    other_faults_stay();
}

/// A law: the bytes of a file have one number of whole modules.
pub fn one_module_count()
    ensures { OneModuleCount }
{
    one_reading();
}

/// A law: a fault that a file has whatever bytes follow is one that it has with any bytes after it.
#[tactic(auto, using(crate::proofs::FileFeedLemmas::lasting_file_faults_last))]
pub fn lasting_file_faults_last()
    ensures { LastingFileFaultsLast }
{}

/// A law: each content record gives one content, with the fixups of the records after it up to the
/// next one.
#[tactic(auto, using(crate::proofs::GatheredLemmas::contents_have_the_fixups_up_to_the_next))]
pub fn contents_have_the_fixups_up_to_the_next()
    ensures { ContentsHaveTheFixupsUpToTheNext }
{}

/// A law: the uses in a module's records have no fault exactly if what the records say keeps the
/// rules of modules, each segment that they name exists, and each fixup record comes after a
/// content record.
pub fn records_without_fault_keep_the_rules()
    ensures { NoFaultExactlyWhereUsesAreThere }
{}

/// A law: the fault in the uses of a module's records is the first: that of the first entry, in
/// order, that uses what doesn't exist. A fixup is checked against the last content record before
/// it, and the fixups of that which come before it.
pub fn fault_of_use_is_the_first()
    ensures bodies { BodiesFaultIsTheFirst }
    ensures all { UseFaultIsTheFirst }
{}

/// A law: the bytes that are written for a module spell it at any place: it is read again as the
/// same module.
pub fn written_module_is_spelled()
    ensures { WrittenModuleIsSpelled }
{
    written_is_spelled();
}

/// A law: the bytes that are written for a file spell its modules: they are read again as the same
/// modules.
pub fn written_file_is_spelled()
    ensures { WrittenFileIsSpelled }
{
    written_is_spelled();
}
