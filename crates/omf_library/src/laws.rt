//! What holds of all libraries, whatever calls are made. Each law is ensured by a function that does nothing: a layer above
//! that calls it has the law in its proof.

ghost use Rattle.omf_library.specs.Laws.{OneLibrary, OneLibraryFault, NeverBothLibrary};
ghost use Rattle.omf_library.specs.FeedLaws.{OneModuleCount, LastingFaultsLast, CountedHaveNone};
ghost use Rattle.omf_library.specs.Writing.{WrittenLibraryIsSpelled};

use omf_core::laws::{
    lists_stay, no_fault_exactly_at_records, one_record_at_each_place, records_stay,
    truncated_can_be_spoilt, written_is_spelled, written_list_is_spelled,
};
use omf_module::laws::{modules_stay, one_reading};

/// Bytes spell at most one list of modules as a library, or have one first fault, and never both.
pub fn one_library()
    ensures library { OneLibrary }
    ensures fault { OneLibraryFault }
    ensures never_both { NeverBothLibrary }
{
    one_record_at_each_place();
    no_fault_exactly_at_records();
    one_reading();
}

/// The bytes that are written for a library spell its modules: they are read again as the same
/// modules.
pub fn written_library_is_spelled()
    ensures { WrittenLibraryIsSpelled }
{
    written_is_spelled();
    written_list_is_spelled();
    modules_stay();
}

/// The bytes of a library have one number of whole modules.
pub fn one_module_count()
    ensures { OneModuleCount }
{
    one_record_at_each_place();
    no_fault_exactly_at_records();
    one_reading();
    modules_stay();
}

/// A fault that a library has whatever bytes follow is one that it has with any bytes after it.
#[tactic(auto, using(crate::proofs::FeedLemmas::lasting_faults_last))]
pub fn lasting_faults_last()
    ensures { LastingFaultsLast }
{}

/// Bytes whose whole modules are counted have no fault that lasts whatever bytes follow.
pub fn counted_have_none()
    ensures { CountedHaveNone }
{
    one_library();
    records_stay();
    lists_stay();
    modules_stay();
    truncated_can_be_spoilt();
}
